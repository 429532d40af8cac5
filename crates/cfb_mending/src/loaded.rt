//! What is read of a file.
ghost use Rattle.std.specs.Prelude.{◌≡◌, ◌+◌, ◌*◌, ◌/◌, ◌^◌, ◌<◌, ℕ, List, length, nat_lt, if◌then◌else◌, IsTrue, IfOk, OnOk};
ghost use Rattle.cfb_format.specs.Bytes.{byte_at, word_at};
ghost use Rattle.cfb_format.specs.Medium.{part};
ghost use Rattle.cfb_mending.specs.Missing.{Holds, len_at};

use crate::bounds::{Bounds, place_in};
use cfb_format::bytes::u32_at;
use cfb_format::error::Error;
use cfb_format::medium::{MediumFault, ReadMedium};
use cfb_format::version::Version;

/// The length of the longest sector.
const MAX_SECTOR_LEN: usize = 4096;

/// How many bytes a slot of the directory has, and a word.
pub(crate) const SLOT_LEN: usize = 128;

pub(crate) const WORD_LEN: usize = 4;

// Where a slot has its type and its length (MS-CFB 2.6.1).
const TYPE_AT: usize = 66;

const LEN_AT: usize = 120;

/// What one sector holds, and zeros behind it.
#[derive(Drop)]
pub(crate) struct Loaded {
    bytes: [u8; MAX_SECTOR_LEN],
    /// How many of its bytes the file has.
    len: usize,
}

impl Loaded {
    /// Whether the file has the word of this number.
    pub(crate) fn has(&self, index: usize) -> bool
        ensures { result ≡ nat_lt index (self.now.len / 4) }
    {
        index < self.len / WORD_LEN
    }

    /// The word of this number.
    pub(crate) fn word(&self, index: usize) -> u32
        ensures { index < 1024 → result ≡ word_at self.now.bytes (4 * index) }
    {
        u32_at(&self.bytes, 4 * (index % 1024))
    }

    /// The type of the object in a slot, that of none where the slot is cut.
    pub(crate) fn kind(&self, slot: usize) -> u8
        ensures { slot < 32 → result ≡ (if nat_lt slot (self.now.len / 128)
            then byte_at self.now.bytes (128 * slot + 66) else 0) }
    {
        if slot >= self.len / SLOT_LEN {
            return 0;
        }
        self.bytes[(slot % 32) * SLOT_LEN + TYPE_AT]
    }

    /// The length that the first slot has, 0 where it is cut.
    pub(crate) fn first_len(&self, version: Version) -> u64
        ensures { result ≡ (if nat_lt 0 (self.now.len / 128)
            then len_at version self.now.bytes 0 else 0) }
    {
        if self.len / SLOT_LEN == 0 {
            return 0;
        }
        let low = u64::from(u32_at(&self.bytes, LEN_AT));
        match version {
            Version::V3 => low,
            Version::V4 => u64::from(u32_at(&self.bytes, LEN_AT + 4)) * (1 << 32) + low,
        }
    }
}

/// Fills `into` with the bytes from `at` on. `Stuck` where there are not so many.
#[tactic(auto, using(cfb_format::proofs::ByteLemmas::served_more))]
pub(crate) fn read_whole<F: ReadMedium>(
    medium: &mut F,
    at: u64,
    into: &mut [u8],
) -> Result<(), MediumFault>
    requires { at + length into.old < 2 ^ 64 }
    ensures same { IsTrue F.tells → F.bytes medium.new ≡ F.bytes medium.old }
    ensures ok { IsTrue F.tells
        → OnOk result (into.new ≡ part (F.bytes medium.old) at (length into.old)) }
{
    let mut done = 0;
    while done < into.len() {
        let count = medium.read_at(at + done as u64, &mut into[done..])?;
        if count == 0 {
            return Err(MediumFault::Stuck);
        }
        done += count;
    }
    Ok(())
}

/// What the sector of this number holds. Of one that is cut short only what is whole of the parts that it has, each of so many bytes.
pub(crate) fn load<F: ReadMedium>(
    medium: &mut F,
    bounds: Bounds,
    sector: u32,
    part_len: usize,
) -> Result<Loaded, Error>
    requires { 0 < part_len }
    ensures same { IsTrue F.tells → F.bytes medium.new ≡ F.bytes medium.old }
    ensures holds { IsTrue F.tells → (bytes : List ℕ) → F.bytes medium.old ≡ bytes
        → bounds.len ≡ length bytes → IfOk result (λ loaded.
        Holds part_len bounds.version bytes sector loaded.bytes loaded.len) }
{
    let mut bytes = [0; MAX_SECTOR_LEN];
    let there = bounds.bytes_of(sector);
    let len = there - there % part_len;
    read_whole(
        medium,
        place_in(bounds.version, sector, 0),
        &mut bytes[..len],
    )?;
    Ok(Loaded { bytes, len })
}

/// The word at this place.
pub(crate) fn word_at<F: ReadMedium>(medium: &mut F, at: u64) -> Result<u32, Error>
    requires { at < 2 ^ 63 }
    ensures same { IsTrue F.tells → F.bytes medium.new ≡ F.bytes medium.old }
    ensures ok { IsTrue F.tells → IfOk result (λ word. word ≡ word_at (F.bytes medium.old) at) }
{
    let mut bytes = [0; 4];
    read_whole(medium, at, &mut bytes)?;
    Ok(u32_at(&bytes, 0))
}
