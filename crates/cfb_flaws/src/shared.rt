//! Sectors and mini sectors that are used twice.
ghost use Rattle.std.specs.Prelude.{◌≡◌, ◌≢◌, ◌≤◌, ℕ, List, IfErr, IfOk, OnOk, Contains, true};
ghost use Rattle.cfb_format.specs.declared.error.Error.TheVariants.{Memory};
ghost use Rattle.cfb_format.specs.Bytes.{end_of_chain};
ghost use Rattle.cfb_format.specs.Names.{Cases};
ghost use Rattle.cfb_format.specs.Reading.{Reading, Reads};
ghost use Rattle.cfb_flaws.specs.declared.owner.Owner.TheVariants.{Difat};
ghost use Rattle.cfb_flaws.specs.declared.owner.Table.TheVariants.{Fat};
ghost use Rattle.cfb_flaws.specs.Claims.{chain_of, words_of};
ghost use Rattle.cfb_flaws.specs.Flaws.{HasAll, OwnsIn, owner_in, twice_in};
ghost use Rattle.cfb_flaws.specs.Owners.{is_chained, meant, owner_at};
ghost use Rattle.cfb_flaws.specs.Searches.{IsWithin};
ghost use Rattle.cfb_flaws.specs.Telling.{KnowsFile, Tells, Told, owners_of};

use crate::claims::is_on_chain;
use crate::flaw::Flaw;
use crate::known::{Known, owners_in};
use crate::owner::{Owner, Table, owner_at};
use crate::owners::words_of;
use crate::searches::{last_of_run, own_end};
use cfb_format::consts::END_OF_CHAIN;
use cfb_format::error::Error;
use std::alloc::Allocator;

/// Tells what the owner's chain at `start` shares with others: the first run of numbers at least, and further ones in so many steps. It
/// answers how many it took. `Memory`.
pub(crate) fn tell_shared_chain<A: Allocator>(
    known: &Known<'_, '_, A>,
    table: Table,
    owner: Owner,
    start: u32,
    most: usize,
    found: &mut Vec<Flaw, A>,
) -> Result<usize, Error>
    requires { is_chained owner ≡ true }
    ensures told { (cases : Cases) (bytes : List ℕ) (r : Reading) → Reads cases bytes r
        → KnowsFile known.now bytes r → HasAll table r owner (chain_of (words_of table r) start)
        → OnOk result (Told (twice_in table)
        (OwnsIn table r owner (chain_of (words_of table r) start)) bytes r found.old.items found.new.items) }
    ensures err { IfErr result (λ e. e ≡ Memory) }
{
    let owners = owners_in(table, known);
    if !is_on_chain(start, owners) {
        return Ok(0);
    }
    let next = own_end(words_of(table, known.parts), owners, start, owner);
    if next == END_OF_CHAIN {
        return Ok(0);
    }
    let taken = tell_runs(known, table, owner, next, most, found)?;
    Ok(taken)
}

/// Tells the runs from `next` on, which this owner has and others too. `Memory`.
fn tell_runs<A: Allocator>(
    known: &Known<'_, '_, A>,
    table: Table,
    owner: Owner,
    next: u32,
    most: usize,
    found: &mut Vec<Flaw, A>,
) -> Result<usize, Error>
    ensures told { (cases : Cases) (bytes : List ℕ) (r : Reading) (list : List ℕ) → Reads cases bytes r
        → KnowsFile known.now bytes r → HasAll table r owner list
        → IsWithin (words_of table r) list next → next ≢ end_of_chain
        → owner_at (owners_of table known.now) next ≢ owner
        → OnOk result (Told (twice_in table) ⊥ bytes r found.old.items found.new.items) }
    ensures err { IfErr result (λ e. e ≡ Memory) }
{
    let owners = owners_in(table, known);
    let words = words_of(table, known.parts);
    let mut last = tell_run(known, table, owner, next, most, found)?;
    let mut taken = (last - next) as usize;
    for _step in 0..most {
        let at = last as usize;
        if at >= words.len() || taken >= most {
            return Ok(taken);
        }
        let number = words[at];
        if number == END_OF_CHAIN {
            return Ok(taken);
        }
        if owner_at(owners, number as usize).is_same(owner) {
            return Ok(taken);
        }
        last = tell_run(known, table, owner, number, most - taken, found)?;
        taken = taken.saturating_add((last - number) as usize + 1);
    }
    Ok(taken)
}

/// Tells the run at `first`, which this owner has and another one too, and answers its last number. `Memory`.
fn tell_run<A: Allocator>(
    known: &Known<'_, '_, A>,
    table: Table,
    owner: Owner,
    first: u32,
    most: usize,
    found: &mut Vec<Flaw, A>,
) -> Result<u32, Error>
    ensures told { (cases : Cases) (bytes : List ℕ) (r : Reading) (list : List ℕ) → Reads cases bytes r
        → KnowsFile known.now bytes r → HasAll table r owner list
        → IsWithin (words_of table r) list first → first ≢ end_of_chain
        → owner_at (owners_of table known.now) first ≢ owner
        → OnOk result (Told (twice_in table) ⊥ bytes r found.old.items found.new.items) }
    ensures within { (bytes : List ℕ) (r : Reading) (list : List ℕ) → KnowsFile known.now bytes r
        → IsWithin (words_of table r) list first → first ≢ end_of_chain
        → IfOk result (λ last. IsWithin (words_of table r) list last × (last ≢ end_of_chain)) }
    ensures last { IfOk result (λ last. first ≤ last) }
    ensures err { IfErr result (λ e. e ≡ Memory) }
{
    let owners = owners_in(table, known);
    let last = last_of_run(words_of(table, known.parts), owners, first, most);
    found.push(Flaw::UsedTwice {
        table,
        first,
        last,
        owner: owner_at(owners, first as usize),
        other: owner,
    })?;
    Ok(last)
}

/// Tells each DIFAT sector that is one of the FAT's too. `Memory`.
pub(crate) fn tell_difat<A: Allocator>(
    known: &Known<'_, '_, A>,
    found: &mut Vec<Flaw, A>,
) -> Result<(), Error>
    ensures told { OnOk result (Tells known.now (twice_in Fat)
        (λ bytes r. OwnsIn Fat r Difat r.difat_sectors) found.old.items found.new.items) }
    ensures err { IfErr result (λ e. e ≡ Memory) }
{
    for number in known.parts.difat_sectors {
        tell_difat_sector(known, *number, found)?;
    }
    Ok(())
}

/// Tells whether the DIFAT sector is one of the FAT's too. `Memory`.
fn tell_difat_sector<A: Allocator>(
    known: &Known<'_, '_, A>,
    number: u32,
    found: &mut Vec<Flaw, A>,
) -> Result<(), Error>
    ensures told { (cases : Cases) (bytes : List ℕ) (r : Reading) → Reads cases bytes r
        → KnowsFile known.now bytes r → Contains r.difat_sectors number
        → OnOk result (Told (twice_in Fat) (owner_in Fat r number ≡ meant Difat)
        bytes r found.old.items found.new.items) }
    ensures err { IfErr result (λ e. e ≡ Memory) }
{
    let owner = owner_at(owners_in(Table::Fat, known), number as usize);
    if owner.is_same(Owner::Difat) {
        return Ok(());
    }
    found.push(Flaw::UsedTwice {
        table: Table::Fat,
        first: number,
        last: number,
        owner,
        other: Owner::Difat,
    })?;
    Ok(())
}
