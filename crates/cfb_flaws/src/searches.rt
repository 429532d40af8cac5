//! Searches along chains.
ghost use Rattle.std.specs.Prelude.{◌≡◌, ◌≢◌, ◌<◌, ◌≤◌, ◌↔◌, ℕ, List, length, IsTrue, IfOk, IfErr, IfSome, IfNone};
ghost use Rattle.cfb_format.specs.declared.error.Error.TheVariants.{Memory};
ghost use Rattle.cfb_format.specs.Bytes.{end_of_chain, max_regular_sector};
ghost use Rattle.cfb_format.specs.Chain.{Follows};
ghost use Rattle.cfb_flaws.specs.Flaws.{BreaksAt};
ghost use Rattle.cfb_flaws.specs.Searches.{GoesOn, OwnEnd, RunEnd};

use crate::flaw::Break;
use crate::owner::{Owner, owner_at};
use cfb_format::consts::{END_OF_CHAIN, MAX_REGULAR_SECTOR};
use cfb_format::error::Error;
use std::alloc::Allocator;

/// Whether the number is one of the table's.
fn is_inside(table: &[u32], number: u32) -> bool
    ensures { IsTrue result ↔ (number < length table.now) × (number ≤ max_regular_sector) }
{
    (number as usize) < table.len() && number <= MAX_REGULAR_SECTOR
}

/// Where the chain from `start` breaks, looked for in at most so many steps, and how many were taken.
pub(crate) fn break_of(table: &[u32], start: u32, most: usize) -> (Break, usize)
    requires { start ≢ end_of_chain }
    ensures { BreaksAt table.now start result.0 }
{
    if !is_inside(table, start) {
        return (Break::BeginsAt(start), 0);
    }
    let mut number = start;
    for step in 0..most {
        let next = table[number as usize];
        if next == END_OF_CHAIN {
            return (Break::Somewhere, step);
        }
        if !is_inside(table, next) {
            return (Break::LeadsTo(number, next), step);
        }
        if next == start {
            return (Break::LeadsBackTo(number, next), step);
        }
        number = next;
    }
    (Break::Somewhere, most)
}

/// The chain from `start`, if it has at most `most` members. `Memory`.
pub(crate) fn short_chain<A: Allocator>(
    heap: A,
    table: &[u32],
    start: u32,
    most: usize,
) -> Result<Option<Vec<u32, A>>, Error>
    ensures chain { IfOk result (λ found.
        IfSome found (λ list. Follows table.now start list.items)) }
    ensures none { IfOk result (λ found. IfNone found ((list : List ℕ)
        → Follows table.now start list → length list ≤ most → ⊥)) }
    ensures err { IfErr result (λ e. e ≡ Memory) }
{
    let mut list = Vec::new(heap);
    let mut number = start;
    for _step in 0..most {
        if number == END_OF_CHAIN {
            return Ok(Some(list));
        }
        if !is_inside(table, number) {
            return Ok(None);
        }
        list.push(number)?;
        number = table[number as usize];
    }
    if number == END_OF_CHAIN {
        return Ok(Some(list));
    }
    Ok(None)
}

/// The first number from `start` on along its chain that this owner has not, or the end if it has all.
pub(crate) fn own_end(table: &[u32], owners: &[Owner], start: u32, owner: Owner) -> u32
    ensures { (list : List ℕ) → Follows table.now start list → length list ≤ length table.now
        → OwnEnd table.now owners.now owner list result }
{
    let mut number = start;
    for _step in 0..table.len() {
        if !is_inside(table, number) {
            return number;
        }
        if !owner_at(owners, number as usize).is_same(owner) {
            return number;
        }
        number = table[number as usize];
    }
    number
}

/// Whether the number leads to the next one, which has the same owner.
fn goes_on(table: &[u32], owners: &[Owner], number: u32) -> bool
    ensures { IsTrue result → GoesOn table.now owners.now number }
{
    let at = number as usize;
    if at >= table.len() || number >= MAX_REGULAR_SECTOR {
        return false;
    }
    if table[at] != number + 1 {
        return false;
    }
    owner_at(owners, at + 1).is_same(owner_at(owners, at))
}

/// The last number of the run at `first`, of at most so many more: each leads to the next one, which has the same owner.
pub(crate) fn last_of_run(table: &[u32], owners: &[Owner], first: u32, most: usize) -> u32
    ensures last { first ≤ result }
    ensures run { (list : List ℕ) → RunEnd table.now owners.now list first result }
{
    let mut last = first;
    for _step in 0..most {
        if !goes_on(table, owners, last) {
            return last;
        }
        last += 1;
    }
    last
}
