//! The two versions of the format (MS-CFB 2.2).
ghost use Rattle.std.specs.Prelude.{◌≡◌, ◌-◌, IfSome, IfNone, MatchResult, Some};
ghost use Rattle.cfb_format.specs.declared.version.Version.{Version as VersionOf};
ghost use Rattle.cfb_format.specs.Bytes.{version_number, sector_shift, sector_len, words_per_sector, entries_per_sector, max_stream_len};
ghost use Rattle.cfb_format.specs.VersionText.{version_text};
ghost use Rattle.cfb_format.specs.Refused.{IsInvalidInput};

use crate::error::{Detail, Error};
use std::fmt;
use std::str::FromStr;

/// A version of the format. It sets the length of sectors (MS-CFB 2.2).
#[derive(Clone, Copy, Debug, PartialEq, Eq, PartialOrd, Ord, Hash)]
pub enum Version {
    /// Version 3, with sectors of 512 bytes.
    V3,
    /// Version 4, with sectors of 4096 bytes.
    V4,
}

impl Version {
    /// The version of a major version number, if there is one.
    pub fn from_number(number: u16) -> Option<Version>
        ensures some { IfSome result (λ version. number ≡ version_number version) }
        ensures none { IfNone result ((version : VersionOf) → number ≡ version_number version → ⊥) }
    {
        match number {
            3 => Some(Version::V3),
            4 => Some(Version::V4),
            _ => None,
        }
    }

    /// The major version number: 3 or 4.
    pub fn number(self) -> u16
        ensures { result ≡ version_number self }
    {
        match self {
            Version::V3 => 3,
            Version::V4 => 4,
        }
    }

    /// The power of 2 that the length of a sector in bytes is (MS-CFB 2.2).
    pub fn sector_shift(self) -> u16
        ensures { result ≡ sector_shift self }
    {
        match self {
            Version::V3 => 9,
            Version::V4 => 12,
        }
    }

    /// The length of a sector, in bytes (MS-CFB 2.1).
    pub fn sector_len(self) -> usize
        ensures { result ≡ sector_len self }
    {
        match self {
            Version::V3 => 512,
            Version::V4 => 4096,
        }
    }

    /// The bits of a directory entry's length that count, and so also the greatest length of a
    /// stream, in bytes (MS-CFB 2.6.3).
    pub fn stream_len_mask(self) -> u64
        ensures { result ≡ max_stream_len self }
    {
        match self {
            Version::V3 => 0xffff_ffff,
            Version::V4 => 0xffff_ffff_ffff_ffff,
        }
    }

    /// How many directory entries a sector holds (MS-CFB 2.6).
    pub fn dir_entries_per_sector(self) -> usize
        ensures { result ≡ entries_per_sector self }
    {
        match self {
            Version::V3 => 4,
            Version::V4 => 32,
        }
    }

    /// How many words of 4 bytes a sector holds, and so how many values a FAT sector.
    pub fn words_per_sector(self) -> usize
        ensures { result ≡ words_per_sector self }
    {
        self.sector_len() / 4
    }
}

/// The major version number.
impl From<Version> for u16 {
    ghost from_gives = { λ version number. number ≡ version_number version };

    fn from(version: Version) -> u16 {
        version.number()
    }
}

/// The version of a major version number; `InvalidInput` where there is none.
impl TryFrom<u16> for Version {
    type Error = Error;

    ghost try_from_gives = { λ number result. MatchResult result
        (λ version. number ≡ version_number version)
        (λ e. IsInvalidInput e × ((version : VersionOf) → number ≡ version_number version → ⊥)) };

    fn try_from(number: u16) -> Result<Version, Error> {
        match Version::from_number(number) {
            Some(version) => Ok(version),
            None => Err(Error::InvalidInput(Detail::number(
                "version {} is neither 3 nor 4",
                u64::from(number),
            ))),
        }
    }
}

/// Prints the major version number: `3` or `4`.
impl fmt::Display for Version {
    ghost output = { λ version. Some (version_text version) };

    fn fmt<W: fmt::Write>(&self, f: &mut fmt::Formatter<W>) -> fmt::Result {
        match self {
            Version::V3 => f.write_str("3"),
            Version::V4 => f.write_str("4"),
        }
    }
}

/// The version that prints so; `InvalidInput` where there is none.
impl FromStr for Version {
    type Err = Error;

    ghost from_str_gives = { λ text result. MatchResult result
        (λ version. text ≡ version_text version)
        (λ e. IsInvalidInput e × ((version : VersionOf) → text ≡ version_text version → ⊥)) };

    fn from_str(text: &str) -> Result<Version, Error> {
        match text {
            "3" => Ok(Version::V3),
            "4" => Ok(Version::V4),
            _ => Err(Error::InvalidInput(Detail::text("a version is 3 or 4"))),
        }
    }
}
