//! Sectors that go on past the last one of a file.
ghost use Rattle.std.specs.Prelude.{◌≡◌, ◌↔◌, ◌+◌, ◌<◌, ℕ, List, length, slice_index, IsTrue, IfErr, OnOk};
ghost use Rattle.cfb_format.specs.declared.error.Error.TheVariants.{Memory};
ghost use Rattle.cfb_format.specs.Names.{Cases};
ghost use Rattle.cfb_format.specs.Reading.{Reading, Reads};
ghost use Rattle.cfb_flaws.specs.Flaws.{PointsPast, raw_of};
ghost use Rattle.cfb_flaws.specs.Telling.{KnowsFile, ToldPast};

use crate::flaw::Flaw;
use crate::known::{Known, owners_in};
use crate::owner::{Table, owner_at};
use cfb_format::consts::MAX_REGULAR_SECTOR;
use cfb_format::error::Error;
use std::alloc::Allocator;

/// Tells each sector that goes on past the last one, by these words of the FAT as they stand in the file. `Memory`.
pub(crate) fn tell_past<A: Allocator>(
    known: &Known<'_, '_, A>,
    raw: &[u32],
    found: &mut Vec<Flaw, A>,
) -> Result<(), Error>
    ensures told { (cases : Cases) (bytes : List ℕ) (r : Reading) → Reads cases bytes r
        → KnowsFile known.now bytes r → raw.now ≡ raw_of bytes r
        → OnOk result (ToldPast bytes r 0 (length raw.now) found.old.items found.new.items) }
    ensures err { IfErr result (λ e. e ≡ Memory) }
{
    for (sector, next) in raw.iter().enumerate() {
        tell_past_at(known, sector, *next, found)?;
    }
    Ok(())
}

/// Tells whether the sector, whose word of the FAT is this one, goes on past the last one. `Memory`.
fn tell_past_at<A: Allocator>(
    known: &Known<'_, '_, A>,
    sector: usize,
    next: u32,
    found: &mut Vec<Flaw, A>,
) -> Result<(), Error>
    ensures told { (cases : Cases) (bytes : List ℕ) (r : Reading) → Reads cases bytes r
        → KnowsFile known.now bytes r → sector < length (raw_of bytes r)
        → slice_index (raw_of bytes r) sector ≡ next
        → OnOk result (ToldPast bytes r sector (sector + 1) found.old.items found.new.items) }
    ensures err { IfErr result (λ e. e ≡ Memory) }
{
    if !goes_past(known, sector, next) {
        return Ok(());
    }
    found.push(Flaw::PastFile {
        sector: sector as u64,
        next,
    })?;
    Ok(())
}

/// Whether the sector, whose word of the FAT is this one, goes on past the last one, and is none of the FAT or the DIFAT.
fn goes_past<A: Allocator>(known: &Known<'_, '_, A>, sector: usize, next: u32) -> bool
    ensures { (cases : Cases) (bytes : List ℕ) (r : Reading) → Reads cases bytes r
        → KnowsFile known.now bytes r → sector < length (raw_of bytes r)
        → slice_index (raw_of bytes r) sector ≡ next
        → IsTrue result ↔ PointsPast bytes r sector next }
{
    if next > MAX_REGULAR_SECTOR {
        return false;
    }
    let sectors = known.parts.fat.len();
    let at = next as usize;
    if at < sectors {
        return false;
    }
    let owner = owner_at(owners_in(Table::Fat, known), sector);
    !owner.is_of_tables()
}
