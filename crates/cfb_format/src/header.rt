//! The header (MS-CFB 2.2).
ghost use Rattle.std.specs.Prelude.{◌≡◌, ◌↔◌, ◌-◌, true, length, take, IsTrue, IfOk, IfErr, IfSome, IfNone};
ghost use Rattle.std.specs.List.{list_all};
ghost use Rattle.cfb_format.specs.declared.version.Version.{Version as VersionOf};
ghost use Rattle.cfb_format.specs.Bytes.{is_regular};
ghost use Rattle.cfb_format.specs.Header.{magic_number, header_units, HasFixedFields, IfStrict, IsStrictDirCount, dir_sectors_of, first_difat_of, padded_difat, stored_difat};
ghost use Rattle.cfb_format.specs.Refused.{IsInvalidData};

use crate::bytes::{put, put_units, put_words, u16_at, u32_at};
use crate::consts;
use crate::consts::{Runs, run_of};
use crate::error::{Detail, Error};
use crate::validate::Validation;
use crate::version::Version;
use std::fmt;

/// The fields of a header (MS-CFB 2.2).
#[derive(Clone, Copy, PartialEq, Eq)]
pub struct Header {
    /// The major version, which fixes the length of a sector.
    pub version: Version,
    /// How many directory sectors there are; 0 in version 3, which does not count them.
    pub num_dir_sectors: u32,
    /// How many FAT sectors there are (MS-CFB 2.3).
    pub num_fat_sectors: u32,
    /// The number of the directory's first sector (MS-CFB 2.6).
    pub first_dir_sector: u32,
    /// The number of the MiniFAT's first sector, or `END_OF_CHAIN` (MS-CFB 2.4).
    pub first_minifat_sector: u32,
    /// How many MiniFAT sectors there are.
    pub num_minifat_sectors: u32,
    /// The number of the first DIFAT sector, or `END_OF_CHAIN` (MS-CFB 2.5).
    pub first_difat_sector: u32,
    /// How many DIFAT sectors there are.
    pub num_difat_sectors: u32,
    /// The first entries of the DIFAT: numbers of FAT sectors, and `FREE_SECTOR` after the last.
    pub initial_difat_entries: [u32; consts::NUM_DIFAT_ENTRIES_IN_HEADER],
}

impl fmt::Debug for Header {
    fn fmt<W: fmt::Write>(&self, f: &mut fmt::Formatter<W>) -> fmt::Result {
        f.debug_struct("Header")
            .field("version", &self.version)
            .field("num_dir_sectors", &self.num_dir_sectors)
            .field("num_fat_sectors", &self.num_fat_sectors)
            .field("first_dir_sector", &run_of(self.first_dir_sector))
            .field("first_minifat_sector", &run_of(self.first_minifat_sector))
            .field("num_minifat_sectors", &self.num_minifat_sectors)
            .field("first_difat_sector", &run_of(self.first_difat_sector))
            .field("num_difat_sectors", &self.num_difat_sectors)
            .field(
                "initial_difat_entries",
                &Runs(without_free_end(&self.initial_difat_entries)),
            )
            .finish()
    }
}

/// The words up to the last that is not free.
fn without_free_end(words: &[u32]) -> &[u32] {
    let last = words.iter().rposition(|word| *word != consts::FREE_SECTOR);
    match last {
        Some(last) => &words[..last + 1],
        None => &[],
    }
}

impl Header {
    ghost use Rattle.cfb_format.specs.declared.header.Header.{Header as HeaderOf};
    ghost use Rattle.cfb_format.specs.Header.{AcceptsHeader, header_words, header_bytes};

    /// The header that these bytes hold (MS-CFB 2.2). `InvalidData` exactly where they hold none,
    /// or where opening is strict and the bytes of version 3 count directory sectors. Reserved bytes, the minor
    /// version and the transaction signature are not looked at.
    pub fn read_from(
        bytes: &[u8; consts::HEADER_LEN],
        validation: Validation,
    ) -> Result<Header, Error>
        ensures ok { IfOk result (λ header. AcceptsHeader validation bytes.now header) }
        ensures refused { IfErr result (λ e. IsInvalidData e
            × ((header : HeaderOf) → AcceptsHeader validation bytes.now header → ⊥)) }
    {
        let Some(version) = fixed_version(bytes) else {
            return Err(wrong_field(bytes));
        };
        let counted = u32_at(bytes, 40);
        if !may_count(version, counted, validation) {
            return Err(invalid(Detail::number(
                "strict: version 3 counts {} directory sectors",
                u64::from(counted),
            )));
        }
        let Some(initial_difat_entries) = difat_entries(bytes) else {
            return Err(invalid(Detail::text("DIFAT: the header lists what is no sector")));
        };
        Ok(Header {
            version,
            num_dir_sectors: dir_sectors(version, counted),
            num_fat_sectors: u32_at(bytes, 44),
            first_dir_sector: u32_at(bytes, 48),
            first_minifat_sector: u32_at(bytes, 60),
            num_minifat_sectors: u32_at(bytes, 64),
            first_difat_sector: first_difat(u32_at(bytes, 68)),
            num_difat_sectors: u32_at(bytes, 72),
            initial_difat_entries,
        })
    }

    /// Writes the header as its 512 bytes (MS-CFB 2.2). A valid one is read back as it was written.
    pub fn write_to(&self, into: &mut [u8; consts::HEADER_LEN])
        ensures { into.new ≡ header_bytes self.now }
    {
        let mut end = put(into, 0, &consts::MAGIC_NUMBER);
        end = put(into, end, &[0; 16]);
        end = put_units(into, end, &version_units(self.version));
        end = put(into, end, &[0; 6]);
        end = put_words(into, end, &self.words());
        put_words(into, end, &self.initial_difat_entries);
    }

    /// The words between the fixed fields and the DIFAT.
    fn words(&self) -> [u32; 9]
        ensures { result ≡ header_words self.now }
    {
        [
            self.num_dir_sectors,
            self.num_fat_sectors,
            self.first_dir_sector,
            0,
            consts::MINI_STREAM_CUTOFF,
            self.first_minifat_sector,
            self.num_minifat_sectors,
            self.first_difat_sector,
            self.num_difat_sectors,
        ]
    }
}

fn invalid(detail: Detail) -> Error
    ensures { IsInvalidData result }
{
    Error::InvalidData(detail)
}

/// What is told of bytes that have the fixed fields of no version: the first field that is not as
/// it has to be.
fn wrong_field(bytes: &[u8; consts::HEADER_LEN]) -> Error
    ensures { IsInvalidData result }
{
    if !has_magic(bytes) {
        return invalid(Detail::number(
            "not a compound file: it begins with {bytes}",
            u64::from(u32_at(bytes, 0)) | u64::from(u32_at(bytes, 4)) << 32,
        ));
    }
    let number = u64::from(u16_at(bytes, 26));
    let byte_order = u16_at(bytes, 28);
    let shift = u16_at(bytes, 30);
    let mini_shift = u16_at(bytes, 32);
    let Some(version) = Version::from_number(u16_at(bytes, 26)) else {
        return invalid(Detail::number("version {} is neither 3 nor 4", number));
    };
    invalid(if byte_order != consts::BYTE_ORDER_MARK {
        Detail::number(
            "byte order mark {x} in place of 0xfffe",
            u64::from(byte_order),
        )
    } else if shift != version.sector_shift() {
        Detail::numbers(
            "sectors of 2^{} bytes in version {}",
            u64::from(shift),
            number,
        )
    } else if mini_shift != consts::MINI_SECTOR_SHIFT {
        Detail::number("mini sectors of 2^{} bytes", u64::from(mini_shift))
    } else {
        let cutoff = u32_at(bytes, 56);
        Detail::number("mini stream cutoff {} in place of 4096", u64::from(cutoff))
    })
}

/// Minor version, version, byte order and the two shifts.
fn version_units(version: Version) -> [u16; 5]
    ensures { result ≡ header_units version }
{
    [
        consts::MINOR_VERSION,
        version.number(),
        consts::BYTE_ORDER_MARK,
        version.sector_shift(),
        consts::MINI_SECTOR_SHIFT,
    ]
}

fn has_magic(bytes: &[u8; consts::HEADER_LEN]) -> bool
    ensures { IsTrue result ↔ (take 8 bytes.now ≡ magic_number) }
{
    bytes[..8] == consts::MAGIC_NUMBER[..]
}

fn has_fixed_fields(bytes: &[u8; consts::HEADER_LEN], version: Version) -> bool
    ensures { IsTrue result ↔ HasFixedFields bytes.now version }
{
    has_magic(bytes)
        && u16_at(bytes, 26) == version.number()
        && u16_at(bytes, 28) == consts::BYTE_ORDER_MARK
        && u16_at(bytes, 30) == version.sector_shift()
        && u16_at(bytes, 32) == consts::MINI_SECTOR_SHIFT
        && u32_at(bytes, 56) == consts::MINI_STREAM_CUTOFF
}

/// The version whose fixed fields the bytes have.
fn fixed_version(bytes: &[u8; consts::HEADER_LEN]) -> Option<Version>
    ensures some { IfSome result (λ version. HasFixedFields bytes.now version) }
    ensures none { IfNone result ((version : VersionOf) → HasFixedFields bytes.now version → ⊥) }
{
    if has_fixed_fields(bytes, Version::V3) {
        Some(Version::V3)
    } else if has_fixed_fields(bytes, Version::V4) {
        Some(Version::V4)
    } else {
        None
    }
}

/// Strict opening wants version 3 to count no directory sectors.
fn may_count(version: Version, counted: u32, validation: Validation) -> bool
    ensures { IsTrue result ↔ IfStrict validation (IsStrictDirCount version counted) }
{
    match version {
        Version::V3 => counted == 0 || !validation.is_strict(),
        Version::V4 => true,
    }
}

fn dir_sectors(version: Version, counted: u32) -> u32
    ensures { result ≡ dir_sectors_of version counted }
{
    match version {
        Version::V3 => 0,
        Version::V4 => counted,
    }
}

/// FREE in place of the first DIFAT sector says that there is none.
fn first_difat(word: u32) -> u32
    ensures { result ≡ first_difat_of word }
{
    if word == consts::FREE_SECTOR {
        consts::END_OF_CHAIN
    } else {
        word
    }
}

fn is_regular_word(word: u32) -> bool
    ensures { result ≡ is_regular word }
{
    word <= consts::MAX_REGULAR_SECTOR
}

/// The entries of the DIFAT up to the first FREE, and FREE behind them, if all of them are numbers
/// of sectors.
fn difat_entries(
    bytes: &[u8; consts::HEADER_LEN],
) -> Option<[u32; consts::NUM_DIFAT_ENTRIES_IN_HEADER]>
    ensures some { IfSome result (λ entries. (entries ≡ padded_difat (stored_difat bytes.now))
        × (list_all is_regular (stored_difat bytes.now) ≡ true)) }
    ensures none { IfNone result (list_all is_regular (stored_difat bytes.now) ≡ true → ⊥) }
{
    let mut entries = [consts::FREE_SECTOR; consts::NUM_DIFAT_ENTRIES_IN_HEADER];
    for i in 0..consts::NUM_DIFAT_ENTRIES_IN_HEADER {
        let word = u32_at(bytes, 76 + 4 * i);
        if word == consts::FREE_SECTOR {
            return Some(entries);
        }
        if !is_regular_word(word) {
            return None;
        }
        entries[i] = word;
    }
    Some(entries)
}
