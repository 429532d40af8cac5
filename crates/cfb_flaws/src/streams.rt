//! What is wrong with the streams of a file.
ghost use Rattle.std.specs.Prelude.{◌≡◌, ℕ, List, IfErr, OnOk, Contains};
ghost use Rattle.cfb_format.specs.declared.error.Error.TheVariants.{Memory};
ghost use Rattle.cfb_format.specs.Names.{Cases};
ghost use Rattle.cfb_format.specs.Reading.{Reading, Reads};
ghost use Rattle.cfb_format.specs.Siblings.{entry_at};
ghost use Rattle.cfb_format.specs.Soundness.{streams};
ghost use Rattle.cfb_flaws.specs.Flaws.{HasChainIn, HaveChainsIn, OwnsMembers, OwnTheirMembers, on_chains, twice_in};
ghost use Rattle.cfb_flaws.specs.Telling.{KnowsFile, Tells, Told};

use crate::claims::is_on_chain;
use crate::flaw::Flaw;
use crate::known::{Known, owners_in};
use crate::owner::{Owner, Table};
use crate::owners::words_of;
use crate::searches::break_of;
use crate::shared::tell_shared_chain;
use crate::starts::{lies_in, start_in};
use cfb_format::error::Error;
use std::alloc::Allocator;

/// How many times over a table is walked at most, where streams share what they lie in or break.
const MOST_WALKS: usize = 8;

/// How many steps the searches along the chains of that table may take.
pub(crate) fn steps_for<A: Allocator>(table: Table, known: &Known<'_, '_, A>) -> usize {
    words_of(table, known.parts)
        .len()
        .saturating_mul(MOST_WALKS)
}

/// Tells what streams in that table share with each other and with the tables. `Memory`.
pub(crate) fn tell_shared_streams<A: Allocator>(
    known: &Known<'_, '_, A>,
    table: Table,
    found: &mut Vec<Flaw, A>,
) -> Result<(), Error>
    ensures told { OnOk result (Tells known.now (twice_in table)
        (λ bytes r. OwnTheirMembers table r (streams r)) found.old.items found.new.items) }
    ensures err { IfErr result (λ e. e ≡ Memory) }
{
    let mut steps = steps_for(table, known);
    for number in known.parts.streams {
        let taken = tell_shared_stream(known, table, *number, steps, found)?;
        steps = steps.saturating_sub(taken);
    }
    Ok(())
}

/// Tells what the stream with that entry shares in that table, and answers how many steps it took. `Memory`.
fn tell_shared_stream<A: Allocator>(
    known: &Known<'_, '_, A>,
    table: Table,
    number: u32,
    most: usize,
    found: &mut Vec<Flaw, A>,
) -> Result<usize, Error>
    ensures told { (cases : Cases) (bytes : List ℕ) (r : Reading) → Reads cases bytes r
        → KnowsFile known.now bytes r → Contains (streams r) number
        → OnOk result (Told (twice_in table) (OwnsMembers table r number) bytes r found.old.items found.new.items) }
    ensures err { IfErr result (λ e. e ≡ Memory) }
{
    let at = number as usize;
    if at >= known.parts.entries.len() {
        return Ok(0);
    }
    let start = start_in(table, &known.parts.entries[at]);
    let taken = tell_shared_chain(known, table, Owner::Stream(number), start, most, found)?;
    Ok(taken)
}

/// Tells each stream in that table that has no chain. `Memory`.
pub(crate) fn tell_broken_streams<A: Allocator>(
    known: &Known<'_, '_, A>,
    table: Table,
    found: &mut Vec<Flaw, A>,
) -> Result<(), Error>
    ensures told { OnOk result (Tells known.now on_chains
        (λ bytes r. HaveChainsIn table r (streams r)) found.old.items found.new.items) }
    ensures err { IfErr result (λ e. e ≡ Memory) }
{
    let mut steps = steps_for(table, known);
    for number in known.parts.streams {
        let taken = tell_broken_stream(known, table, *number, steps, found)?;
        steps = steps.saturating_sub(taken);
    }
    Ok(())
}

/// Tells whether the stream with that entry lies in that table and has no chain, and answers how many steps it took. `Memory`.
fn tell_broken_stream<A: Allocator>(
    known: &Known<'_, '_, A>,
    table: Table,
    number: u32,
    most: usize,
    found: &mut Vec<Flaw, A>,
) -> Result<usize, Error>
    ensures told { (cases : Cases) (bytes : List ℕ) (r : Reading) → Reads cases bytes r
        → KnowsFile known.now bytes r → Contains (streams r) number
        → OnOk result (Told on_chains (HasChainIn table r number) bytes r found.old.items found.new.items) }
    ensures err { IfErr result (λ e. e ≡ Memory) }
{
    let at = number as usize;
    if at >= known.parts.entries.len() {
        return Ok(0);
    }
    let entry = &known.parts.entries[at];
    if !lies_in(table, entry) {
        return Ok(0);
    }
    let start = entry.start_sector;
    if is_on_chain(start, owners_in(table, known)) {
        return Ok(0);
    }
    let (place, taken) = break_of(words_of(table, known.parts), start, most);
    found.push(Flaw::Broken {
        table,
        owner: Owner::Stream(number),
        place,
    })?;
    Ok(taken)
}
