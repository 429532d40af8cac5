//! What is wrong with the tables of a file.
ghost use Rattle.std.specs.Prelude.{◌≡◌, ◌<◌, ◌++◌, ◌∷◌, [], true, false, nat_eq, length, IsSome, IfErr, OnOk};
ghost use Rattle.std.specs.List.{IsDistinct};
ghost use Rattle.cfb_format.specs.declared.error.Error.TheVariants.{Memory};
ghost use Rattle.cfb_format.specs.Content.{mini_stream_chain};
ghost use Rattle.cfb_format.specs.Soundness.{mini_stream_sectors};
ghost use Rattle.cfb_soundness.specs.Marks.{HoldsMarks};
ghost use Rattle.cfb_flaws.specs.declared.flaw.Flaw.TheVariants.{ListedTwice};
ghost use Rattle.cfb_flaws.specs.declared.owner.Owner.TheVariants.{Minifat as MinifatOwner, MiniStream};
ghost use Rattle.cfb_flaws.specs.declared.owner.Table.TheVariants.{Fat};
ghost use Rattle.cfb_flaws.specs.Claims.{words_in, words_of};
ghost use Rattle.cfb_flaws.specs.Flaws.{Covers, HasRoom, IsLoosePair, KeepsLooseIn, OwnsIn, loose_in, on_covers, on_mini_room, on_mini_stream, on_sectors};
ghost use Rattle.cfb_flaws.specs.Telling.{Tells};

use crate::flaw::Flaw;
use crate::known::{Known, owners_in, root_in};
use crate::owner::{Owner, Table, owner_at};
use crate::owners::words_of;
use crate::searches::break_of;
use crate::shared::tell_shared_chain;
use crate::starts::{start_of_list, start_of_mini_stream};
use crate::streams::steps_for;
use cfb_format::consts::{END_OF_CHAIN, MAX_REGULAR_SECTOR, MINI_SECTOR_LEN};
use cfb_format::error::Error;
use std::alloc::Allocator;

/// Tells whether the FAT has too few words. `Memory`.
pub(crate) fn tell_coverage<A: Allocator>(
    known: &Known<'_, '_, A>,
    found: &mut Vec<Flaw, A>,
) -> Result<(), Error>
    ensures told { OnOk result (Tells known.now on_covers Covers found.old.items found.new.items) }
    ensures err { IfErr result (λ e. e ≡ Memory) }
{
    let words_in = known.parts.version.words_per_sector();
    let sectors = known.parts.fat.len() as u64;
    let listed = known.parts.fat_sectors.len() as u64;
    let words = listed.saturating_mul(words_in as u64);
    if words >= sectors {
        return Ok(());
    }
    found.push(Flaw::TooFewWords { words, sectors })?;
    Ok(())
}

/// Tells whether the mini stream has too little room. `Memory`.
pub(crate) fn tell_room<A: Allocator>(
    known: &Known<'_, '_, A>,
    found: &mut Vec<Flaw, A>,
) -> Result<(), Error>
    ensures told { OnOk result (Tells known.now on_mini_room (λ bytes r. HasRoom r) found.old.items found.new.items) }
    ensures err { IfErr result (λ e. e ≡ Memory) }
{
    let sector_len = known.parts.version.sector_len();
    let named = known.parts.minifat.len() as u64;
    let root = root_in(known);
    let sectors = root.len() as u64;
    let room = sectors.saturating_mul((sector_len / MINI_SECTOR_LEN) as u64);
    if room >= named {
        return Ok(());
    }
    found.push(Flaw::TooLittleRoom { room, named })?;
    Ok(())
}

/// Tells each sector that the FAT lists twice; none is marked as listed yet. `Memory`.
pub(crate) fn tell_listed_twice<A: Allocator>(
    known: &Known<'_, '_, A>,
    listed: &mut [bool],
    found: &mut Vec<Flaw, A>,
) -> Result<(), Error>
    requires len { length listed.old ≡ length known.now.parts.now.fat.now }
    requires unmarked { HoldsMarks [] listed.old }
    ensures told { OnOk result (Tells known.now on_sectors
        (λ bytes r. IsDistinct nat_eq r.fat_sectors) found.old.items found.new.items) }
    ensures err { IfErr result (λ e. e ≡ Memory) }
{
    for number in known.parts.fat_sectors {
        let at = *number as usize;
        if at >= listed.len() {
            return Ok(());
        }
        tell_listed(*number, listed[at], found)?;
        listed[at] = true;
    }
    Ok(())
}

/// Tells that the sector is listed again, if it was listed before. `Memory`.
fn tell_listed<A: Allocator>(
    number: u32,
    is_listed: bool,
    found: &mut Vec<Flaw, A>,
) -> Result<(), Error>
    ensures again { is_listed ≡ true
        → OnOk result (found.new.items ≡ found.old.items ++ ListedTwice number ∷ []) }
    ensures once { is_listed ≡ false → OnOk result (found.new.items ≡ found.old.items) }
    ensures err { IfErr result (λ e. e ≡ Memory) }
{
    if is_listed {
        found.push(Flaw::ListedTwice(number))?;
    }
    Ok(())
}

/// Tells what the MiniFAT and the mini stream share with others. `Memory`.
pub(crate) fn tell_roots<A: Allocator>(
    known: &Known<'_, '_, A>,
    found: &mut Vec<Flaw, A>,
) -> Result<(), Error>
    ensures minifat { OnOk result (Tells known.now on_sectors
        (λ bytes r. OwnsIn Fat r MinifatOwner r.minifat_sectors) found.old.items found.new.items) }
    ensures mini_stream { OnOk result (Tells known.now on_sectors
        (λ bytes r. OwnsIn Fat r MiniStream (mini_stream_sectors r)) found.old.items found.new.items) }
    ensures err { IfErr result (λ e. e ≡ Memory) }
{
    let most = steps_for(Table::Fat, known);
    let minifat = start_of_list(known.parts.minifat_sectors);
    tell_shared_chain(known, Table::Fat, Owner::Minifat, minifat, most, found)?;
    let root = start_of_mini_stream(known.parts);
    tell_shared_chain(known, Table::Fat, Owner::MiniStream, root, most, found)?;
    Ok(())
}

/// Tells where the mini stream breaks. `Memory`.
pub(crate) fn tell_mini_stream<A: Allocator>(
    known: &Known<'_, '_, A>,
    found: &mut Vec<Flaw, A>,
) -> Result<(), Error>
    ensures told { OnOk result (Tells known.now on_mini_stream
        (λ bytes r. IsSome (mini_stream_chain r)) found.old.items found.new.items) }
    ensures err { IfErr result (λ e. e ≡ Memory) }
{
    let start = start_of_mini_stream(known.parts);
    if start == END_OF_CHAIN {
        return Ok(());
    }
    let root = root_in(known);
    if !root.is_empty() {
        return Ok(());
    }
    let (place, _) = break_of(known.parts.fat, start, known.parts.fat.len());
    found.push(Flaw::Broken {
        table: Table::Fat,
        owner: Owner::MiniStream,
        place,
    })?;
    Ok(())
}

/// Tells each number of that table that nothing uses and that goes on in one that is free or has an owner. `Memory`.
pub(crate) fn tell_loose<A: Allocator>(
    known: &Known<'_, '_, A>,
    table: Table,
    found: &mut Vec<Flaw, A>,
) -> Result<(), Error>
    ensures told { OnOk result (Tells known.now (loose_in table)
        (λ bytes r. KeepsLooseIn table r) found.old.items found.new.items) }
    ensures err { IfErr result (λ e. e ≡ Memory) }
{
    let words = words_of(table, known.parts);
    for i in 0..words.len() {
        tell_loose_at(known, table, i, found)?;
    }
    Ok(())
}

/// Tells whether nothing uses the number, and it goes on in one that is free or has an owner. `Memory`.
fn tell_loose_at<A: Allocator>(
    known: &Known<'_, '_, A>,
    table: Table,
    number: usize,
    found: &mut Vec<Flaw, A>,
) -> Result<(), Error>
    requires { number < length (words_in table known.now.parts.now) }
    ensures told { OnOk result (Tells known.now (loose_in table)
        (λ bytes r. IsLoosePair table r number) found.old.items found.new.items) }
    ensures err { IfErr result (λ e. e ≡ Memory) }
{
    let owners = owners_in(table, known);
    let next = words_of(table, known.parts)[number];
    if next > MAX_REGULAR_SECTOR {
        return Ok(());
    }
    if !owner_at(owners, number).is_unused() {
        return Ok(());
    }
    let owner = owner_at(owners, next as usize);
    if owner.is_unused() {
        return Ok(());
    }
    found.push(Flaw::Loose {
        table,
        number: number as u64,
        next,
        owner,
    })?;
    Ok(())
}
