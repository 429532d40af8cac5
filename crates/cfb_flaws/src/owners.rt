//! Who has each sector and each mini sector of a file.
ghost use Rattle.std.specs.Prelude.{◌≡◌, ℕ, List, length, IfOk, IfErr, OnOk};
ghost use Rattle.cfb_format.specs.declared.error.Error.TheVariants.{Memory};
ghost use Rattle.cfb_format.specs.Names.{Cases};
ghost use Rattle.cfb_format.specs.Reading.{Reading, Reads};
ghost use Rattle.cfb_format.specs.Siblings.{entry_at};
ghost use Rattle.cfb_format.specs.Soundness.{mini_owner, owner};
ghost use Rattle.cfb_soundness.specs.Parts.{parts_reading};
ghost use Rattle.cfb_flaws.specs.Claims.{Claimed, ClaimedInTurn, Freed, freed, IsKnown, IsNew, members_in, words_in};
ghost use Rattle.cfb_flaws.specs.declared.owner.Owner.TheVariants.{Stream};
ghost use Rattle.cfb_flaws.specs.Owners.{AreKept, AreOwners};

use crate::claims::{claim_chain, claim_list};
use crate::owner::{Owner, Table, owner_at};
use crate::starts::{start_in, start_of_list, start_of_mini_stream};
use cfb_format::consts::FREE_SECTOR;
use cfb_format::error::Error;
use cfb_soundness::parts::Parts;
use std::alloc::Allocator;

/// The owner of each sector: the first that has it of the FAT, the DIFAT, the directory, the MiniFAT, the mini stream, and the streams in
/// the order of the tree. It takes time and memory for the sectors and the streams, whatever the file. `Memory`.
pub fn sector_owners<A: Allocator + Clone>(
    heap: &A,
    parts: &Parts<'_, A>,
) -> Result<Vec<Owner, A>, Error>
    ensures exact { (cases : Cases) (bytes : List ℕ) (r : Reading) → Reads cases bytes r
        → AreKept parts.now bytes r
        → IfOk result (λ owners. AreOwners r.fat (owner r) owners.items) }
    ensures err { IfErr result (λ e. e ≡ Memory) }
{
    let mut owners = Vec::from_elem(heap.clone()?, Owner::Unused, parts.fat.len())?;
    let mut seen = Vec::from_elem(heap.clone()?, false, parts.fat.len())?;
    claim_sectors(heap, parts, &mut owners, &mut seen)?;
    Ok(owners)
}

/// The owner of each mini sector: the first stream that has it. It takes time and memory for the mini sectors and the streams. `Memory`.
pub fn mini_sector_owners<A: Allocator + Clone>(
    heap: &A,
    parts: &Parts<'_, A>,
) -> Result<Vec<Owner, A>, Error>
    ensures exact { (cases : Cases) (bytes : List ℕ) (r : Reading) → Reads cases bytes r
        → AreKept parts.now bytes r
        → IfOk result (λ owners. AreOwners r.minifat (mini_owner r) owners.items) }
    ensures err { IfErr result (λ e. e ≡ Memory) }
{
    let mut owners = Vec::from_elem(heap.clone()?, Owner::Unused, parts.minifat.len())?;
    let mut seen = Vec::from_elem(heap.clone()?, false, parts.minifat.len())?;
    claim_mini_sectors(heap, parts, &mut owners, &mut seen)?;
    Ok(owners)
}

/// The sectors get their owners, none of which has one yet. `Memory`.
fn claim_sectors<A: Allocator + Clone>(
    heap: &A,
    parts: &Parts<'_, A>,
    owners: &mut [Owner],
    seen: &mut [bool],
) -> Result<(), Error>
    requires owners { length owners.old ≡ length parts.now.fat.now }
    requires seen { length seen.old ≡ length parts.now.fat.now }
    ensures exact { (cases : Cases) (bytes : List ℕ) (r : Reading) → Reads cases bytes r
        → AreKept parts.now bytes r → IsNew owners.old seen.old
        → OnOk result (AreOwners r.fat (owner r) owners.new) }
    ensures err { IfErr result (λ e. e ≡ Memory) }
{
    let fat = parts.fat;
    claim_list(parts.fat_sectors, Owner::Fat, owners, seen);
    claim_list(parts.difat_sectors, Owner::Difat, owners, seen);
    let directory = start_of_list(parts.directory);
    claim_chain(
        heap.clone()?,
        fat,
        directory,
        Owner::Directory,
        owners,
        seen,
    )?;
    let minifat = start_of_list(parts.minifat_sectors);
    claim_chain(heap.clone()?, fat, minifat, Owner::Minifat, owners, seen)?;
    let root = start_of_mini_stream(parts);
    claim_chain(heap.clone()?, fat, root, Owner::MiniStream, owners, seen)?;
    claim_streams(heap, Table::Fat, parts, owners, seen)?;
    tell_free(fat, owners);
    Ok(())
}

/// The mini sectors get their owners, none of which has one yet. `Memory`.
fn claim_mini_sectors<A: Allocator + Clone>(
    heap: &A,
    parts: &Parts<'_, A>,
    owners: &mut [Owner],
    seen: &mut [bool],
) -> Result<(), Error>
    requires owners { length owners.old ≡ length parts.now.minifat.now }
    requires seen { length seen.old ≡ length parts.now.minifat.now }
    ensures exact { (cases : Cases) (bytes : List ℕ) (r : Reading) → Reads cases bytes r
        → AreKept parts.now bytes r → IsNew owners.old seen.old
        → OnOk result (AreOwners r.minifat (mini_owner r) owners.new) }
    ensures err { IfErr result (λ e. e ≡ Memory) }
{
    claim_streams(heap, Table::Minifat, parts, owners, seen)?;
    tell_free(parts.minifat, owners);
    Ok(())
}

/// The streams get what they have in that table, in their order. `Memory`.
fn claim_streams<A: Allocator + Clone>(
    heap: &A,
    table: Table,
    parts: &Parts<'_, A>,
    owners: &mut [Owner],
    seen: &mut [bool],
) -> Result<(), Error>
    requires owners { length owners.old ≡ length (words_in table parts.now) }
    requires seen { length seen.old ≡ length (words_in table parts.now) }
    ensures claimed { IsKnown (words_in table parts.now) owners.old seen.old
        → OnOk result (ClaimedInTurn owners.old (λ i. members_in table (parts_reading parts.now)
        (entry_at (parts_reading parts.now).entries i)) parts.now.streams.now owners.new) }
    ensures err { IfErr result (λ e. e ≡ Memory) }
{
    for number in parts.streams {
        claim_stream(heap.clone()?, table, parts, *number, owners, seen)?;
    }
    Ok(())
}

/// The stream with that entry gets what it has in that table. `Memory`.
fn claim_stream<A: Allocator>(
    heap: A,
    table: Table,
    parts: &Parts<'_, A>,
    number: u32,
    owners: &mut [Owner],
    seen: &mut [bool],
) -> Result<(), Error>
    requires owners { length owners.old ≡ length (words_in table parts.now) }
    requires seen { length seen.old ≡ length (words_in table parts.now) }
    ensures claimed { IsKnown (words_in table parts.now) owners.old seen.old
        → OnOk result (Claimed owners.old (members_in table (parts_reading parts.now)
        (entry_at (parts_reading parts.now).entries number)) (Stream number) owners.new) }
    ensures known { IsKnown (words_in table parts.now) owners.old seen.old
        → OnOk result (IsKnown (words_in table parts.now) owners.new seen.new) }
    ensures err { IfErr result (λ e. e ≡ Memory) }
{
    let at = number as usize;
    if at >= parts.entries.len() {
        return Ok(());
    }
    let start = start_in(table, &parts.entries[at]);
    let words = words_of(table, parts);
    claim_chain(heap, words, start, Owner::Stream(number), owners, seen)
}

/// The words of that table.
pub(crate) fn words_of<'a, A: Allocator>(table: Table, parts: &Parts<'a, A>) -> &'a [u32]
    ensures { result.now ≡ words_in table parts.now }
{
    match table {
        Table::Fat => parts.fat,
        Table::Minifat => parts.minifat,
    }
}

/// The owner, or `Free` if there is none and the word says so.
fn freed(owner: Owner, word: u32) -> Owner
    ensures { result ≡ freed owner word }
{
    if owner.is_unused() && word == FREE_SECTOR {
        return Owner::Free;
    }
    owner
}

/// What has no owner and is marked as free is told as free.
fn tell_free(table: &[u32], owners: &mut [Owner])
    requires { length owners.old ≡ length table.now }
    ensures { Freed table.now owners.old owners.new }
{
    for (i, word) in table.iter().enumerate() {
        let old = owner_at(owners, i);
        owners[i] = freed(old, *word);
    }
}
