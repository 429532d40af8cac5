//! How much of each stream the file has.
ghost use Rattle.std.specs.Prelude.{◌≡◌, ◌≢◌, ◌<◌, ◌≤◌, ◌+◌, ◌-◌, ◌++◌, ℕ, List, false, length, min, nat_eq, replicate, slice_index_or, Contains, IfErr, IfOk, OnOk};
ghost use Rattle.std.specs.List.{IsDistinct};
ghost use Rattle.cfb_format.specs.Bytes.{end_of_chain};
ghost use Rattle.cfb_format.specs.declared.error.Error.TheVariants.{Memory};
ghost use Rattle.cfb_format.specs.Chain.{Follows};
ghost use Rattle.cfb_format.specs.Content.{readable as readable_of};
ghost use Rattle.cfb_format.specs.Names.{Cases};
ghost use Rattle.cfb_format.specs.Reading.{Reading, Reads};
ghost use Rattle.cfb_format.specs.Siblings.{entry_at};
ghost use Rattle.cfb_format.specs.Soundness.{streams};
ghost use Rattle.cfb_flaws.specs.Claims.{words_in};
ghost use Rattle.cfb_flaws.specs.Flaws.{AreWholeIn, IsWholeIn, on_whole};
ghost use Rattle.cfb_flaws.specs.Reach.{Filled, KnowsReach, capped, len_in, reach_of, start_in_file};
ghost use Rattle.cfb_flaws.specs.Telling.{KnowsFile, Tells, Told};

use crate::claims::{is_on_chain, walk_unseen};
use crate::flaw::Flaw;
use crate::known::{Known, owners_in, root_in};
use crate::owner::Table;
use crate::owners::words_of;
use crate::starts::lies_in;
use cfb_format::consts::{END_OF_CHAIN, MINI_SECTOR_LEN};
use cfb_format::error::Error;
use std::alloc::Allocator;

/// Tells each stream in that table of which not all can be read. `Memory`.
pub(crate) fn tell_cut_streams<A: Allocator + Clone>(
    known: &Known<'_, '_, A>,
    table: Table,
    found: &mut Vec<Flaw, A>,
) -> Result<(), Error>
    ensures told { OnOk result (Tells known.now on_whole
        (λ bytes r. AreWholeIn table bytes r (streams r)) found.old.items found.new.items) }
    ensures err { IfErr result (λ e. e ≡ Memory) }
{
    let count = words_of(table, known.parts).len();
    let mut seen = Vec::from_elem(known.heap.clone()?, false, count)?;
    let mut reach = Vec::from_elem(known.heap.clone()?, 0u64, count)?;
    tell_cut_with(known, table, &mut seen, &mut reach, found)?;
    Ok(())
}

/// The same with room for what is known of each number of the table: whether a walk saw it, and how many bytes from there on the file
/// has. None was seen yet. `Memory`.
fn tell_cut_with<A: Allocator + Clone>(
    known: &Known<'_, '_, A>,
    table: Table,
    seen: &mut [bool],
    reach: &mut [u64],
    found: &mut Vec<Flaw, A>,
) -> Result<(), Error>
    requires seen { length seen.old ≡ length (words_in table known.now.parts.now) }
    requires reach { length reach.old ≡ length (words_in table known.now.parts.now) }
    requires unseen { seen.old ≡ replicate (length seen.old) false }
    ensures told { OnOk result (Tells known.now on_whole
        (λ bytes r. AreWholeIn table bytes r (streams r)) found.old.items found.new.items) }
    ensures err { IfErr result (λ e. e ≡ Memory) }
{
    for number in known.parts.streams {
        tell_cut_stream(known, table, *number, seen, reach, found)?;
    }
    Ok(())
}

/// Tells whether the stream with that entry lies in that table and can't be read to its end. `Memory`.
fn tell_cut_stream<A: Allocator + Clone>(
    known: &Known<'_, '_, A>,
    table: Table,
    number: u32,
    seen: &mut [bool],
    reach: &mut [u64],
    found: &mut Vec<Flaw, A>,
) -> Result<(), Error>
    requires seen { length seen.old ≡ length (words_in table known.now.parts.now) }
    requires reach { length reach.old ≡ length (words_in table known.now.parts.now) }
    ensures told { (cases : Cases) (bytes : List ℕ) (r : Reading) → Reads cases bytes r
        → KnowsFile known.now bytes r → Contains (streams r) number
        → KnowsReach known.now table seen.old reach.old
        → OnOk result (Told on_whole (IsWholeIn table bytes r number) bytes r found.old.items found.new.items) }
    ensures reach { (cases : Cases) (bytes : List ℕ) (r : Reading) → Reads cases bytes r
        → KnowsFile known.now bytes r → KnowsReach known.now table seen.old reach.old
        → OnOk result (KnowsReach known.now table seen.new reach.new) }
    ensures err { IfErr result (λ e. e ≡ Memory) }
{
    let at = number as usize;
    if at >= known.parts.entries.len() {
        return Ok(());
    }
    let entry = &known.parts.entries[at];
    if !lies_in(table, entry) {
        return Ok(());
    }
    let len = entry.stream_len;
    if !is_on_chain(entry.start_sector, owners_in(table, known)) {
        tell_cut(number, 0, len, found)?;
        return Ok(());
    }
    let there = reach_from(known, table, entry.start_sector, seen, reach)?;
    tell_cut(number, there.min(len), len, found)?;
    Ok(())
}

/// Tells that so many bytes of the stream can be read, if it has more. `Memory`.
fn tell_cut<A: Allocator>(
    stream: u32,
    readable: u64,
    len: u64,
    found: &mut Vec<Flaw, A>,
) -> Result<(), Error>
    requires { readable ≤ len }
    ensures told { (bytes : List ℕ) (r : Reading) → Contains (streams r) stream
        → readable ≡ length (readable_of bytes r (entry_at r.entries stream))
        → len ≡ (entry_at r.entries stream).stream_len
        → OnOk result (Told on_whole (length (readable_of bytes r (entry_at r.entries stream))
        ≡ (entry_at r.entries stream).stream_len) bytes r found.old.items found.new.items) }
    ensures err { IfErr result (λ e. e ≡ Memory) }
{
    if readable == len {
        return Ok(());
    }
    found.push(Flaw::Cut {
        stream,
        readable,
        len,
    })?;
    Ok(())
}

/// How many bytes of the chain from `start` on the file has, up to the first that it has not. All walks together take as many steps as
/// the table has numbers. `Memory`.
fn reach_from<A: Allocator + Clone>(
    known: &Known<'_, '_, A>,
    table: Table,
    start: u32,
    seen: &mut [bool],
    reach: &mut [u64],
) -> Result<u64, Error>
    requires seen { length seen.old ≡ length (words_in table known.now.parts.now) }
    requires reach { length reach.old ≡ length (words_in table known.now.parts.now) }
    ensures reach { (list : List ℕ) → Follows (words_in table known.now.parts.now) start list
        → KnowsReach known.now table seen.old reach.old
        → IfOk result (λ there. there ≡ capped (reach_of known.now table list)) }
    ensures knows { (list : List ℕ) → Follows (words_in table known.now.parts.now) start list
        → KnowsReach known.now table seen.old reach.old
        → OnOk result (KnowsReach known.now table seen.new reach.new) }
    ensures err { IfErr result (λ e. e ≡ Memory) }
{
    let words = words_of(table, known.parts);
    let walk = walk_unseen(known.heap.clone()?, words, start, seen)?;
    let behind = reach_at(reach, walk.next);
    let there = fill(known, table, &walk.path, behind, reach);
    Ok(there)
}

/// How many bytes are known from that number on: none from the end on.
fn reach_at(reach: &[u64], number: u32) -> u64
    ensures end { number ≡ end_of_chain → result ≡ 0 }
    ensures there { number ≢ end_of_chain → result ≡ slice_index_or reach.now number 0 }
{
    let at = number as usize;
    if number == END_OF_CHAIN || at >= reach.len() {
        return 0;
    }
    reach[at]
}

/// Notes for each number of the path how many bytes from there on the file has, where so many are behind the path, and answers how many
/// from its first on.
fn fill<A: Allocator>(
    known: &Known<'_, '_, A>,
    table: Table,
    path: &[u32],
    behind: u64,
    reach: &mut [u64],
) -> u64
    requires { (i : ℕ) → Contains path.now i → i < length reach.old }
    ensures first { (rest : List ℕ) → behind ≡ capped (reach_of known.now table rest)
        → result ≡ capped (reach_of known.now table (path.now ++ rest)) }
    ensures filled { (rest : List ℕ) → behind ≡ capped (reach_of known.now table rest)
        → IsDistinct nat_eq path.now → Filled known.now table reach.old path.now rest reach.new }
{
    let whole = len_in(known, table);
    let mut sum = behind;
    let mut k = path.len();
    while k > 0 {
        k -= 1;
        sum = joined(there_of(known, table, path[k]), whole, sum);
        reach[path[k] as usize] = sum;
    }
    sum
}

/// What is there of a piece of this length, and what is behind it if it is all there.
fn joined(there: u64, whole: u64, behind: u64) -> u64
    ensures cut { there < whole → result ≡ there }
    ensures whole { whole ≤ there → result ≡ min (behind + there) 0xFFFF_FFFF_FFFF_FFFF }
{
    if there < whole {
        return there;
    }
    behind.saturating_add(there)
}

/// How many bytes of a sector or of a mini sector the file has, up to the first that it has not.
fn there_of<A: Allocator>(known: &Known<'_, '_, A>, table: Table, number: u32) -> u64
    ensures { result ≡ min (len_in known.now.parts.now.version table)
        (known.now.parts.now.len - start_in_file known.now.parts.now.version known.now.parts.now.len known.now.root.items table number) }
{
    let start = start_in_file(known, table, number);
    known
        .parts
        .len
        .saturating_sub(start)
        .min(len_in(known, table))
}

/// The length of a sector, or of a mini sector.
fn len_in<A: Allocator>(known: &Known<'_, '_, A>, table: Table) -> u64
    ensures { result ≡ len_in known.now.parts.now.version table }
{
    match table {
        Table::Fat => known.parts.version.sector_len() as u64,
        Table::Minifat => MINI_SECTOR_LEN as u64,
    }
}

/// Where a sector or a mini sector begins in the file: at its end where the mini stream has no room for it.
fn start_in_file<A: Allocator>(known: &Known<'_, '_, A>, table: Table, number: u32) -> u64
    ensures { result ≡ start_in_file known.now.parts.now.version known.now.parts.now.len known.now.root.items table number }
{
    let sector_len = known.parts.version.sector_len() as u64;
    match table {
        Table::Fat => (number as u64 + 1) * sector_len,
        Table::Minifat => {
            let at = MINI_SECTOR_LEN as u64 * number as u64;
            let i = (at / sector_len) as usize;
            let root = root_in(known);
            if i >= root.len() {
                return known.parts.len;
            }
            (root[i] as u64 + 1) * sector_len + at % sector_len
        }
    }
}
