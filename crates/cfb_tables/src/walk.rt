//! Walks along the chains of a table.
ghost use Rattle.std.specs.Prelude.{◌≡◌, ◌≢◌, ℕ, List, Contains, ◌^◌, ◌+◌, ◌-◌, ◌*◌, ◌<◌, ◌≤◌, [], ◌∷◌, ◌++◌, length, IfOk, IfErr, OnErr, OnOk, vec_len, vec_capacity};
ghost use Rattle.cfb_format.specs.Chain.{IsChain, value};
ghost use Rattle.cfb_format.specs.Refused.{IsInvalidData};
ghost use Rattle.cfb_tables.specs.Changes.{IsNextOf};
ghost use Rattle.cfb_tables.specs.Refused.{WalkRefused, LastRefused, NextRefused};

use cfb_format::consts::{END_OF_CHAIN, MAX_REGULAR_SECTOR};
use cfb_format::error::{Detail, Error};
use std::alloc::Allocator;

/// A chain runs into what is no sector, or into itself (MS-CFB 2.3).
fn no_chain(sector: u32) -> Error
    ensures { IsInvalidData result }
{
    Error::InvalidData(Detail::number("the chain that begins at {} has no end", sector as u64))
}

/// The sectors of the chain that begins at `start`, in order (MS-CFB 2.3 and 2.4), in the list that is given, whatever it held:
/// it asks for memory only where that has too little room. `InvalidData` where the table has no such chain, as where it comes
/// back to itself, and `Memory`.
pub fn walk<A: Allocator>(
    mut list: Vec<u32, A>,
    table: &[u32],
    start: u32,
) -> Result<Vec<u32, A>, Error>
    ensures ok { IfOk result (λ list. IsChain table.now start list.items) }
    ensures err { IfErr result (WalkRefused table.now start) }
{
    list.clear();
    let mut sector = start;
    while sector != END_OF_CHAIN {
        if sector > MAX_REGULAR_SECTOR
            || sector as usize >= table.len()
            || list.len() >= table.len()
        {
            return Err(no_chain(start));
        }
        list.push(sector)?;
        sector = table[sector as usize];
    }
    Ok(list)
}

/// The last sector of the chain that begins at `start`. `InvalidData` where the table has no such chain, and where it is
/// empty.
pub fn last_of(table: &[u32], start: u32) -> Result<u32, Error>
    ensures ok { IfOk result (λ last. (front : List ℕ)
        × IsChain table.now start (front ++ last ∷ [])) }
    ensures err { IfErr result (LastRefused table.now start) }
{
    if start == END_OF_CHAIN {
        return Err(no_chain(start));
    }
    let mut last = start;
    for turn in 0..table.len() {
        let _fact = turn;
        if last > MAX_REGULAR_SECTOR || last as usize >= table.len() {
            return Err(no_chain(start));
        }
        let next = table[last as usize];
        if next == END_OF_CHAIN {
            return Ok(last);
        }
        last = next;
    }
    Err(no_chain(start))
}

/// The sector that comes after this one in its chain, or END. `InvalidData` where the sector or what its word names is no
/// sector of the table.
pub fn next_in(table: &[u32], sector: u32) -> Result<u32, Error>
    ensures ok { IfOk result (λ next. IsNextOf table.now sector next) }
    ensures err { IfErr result (NextRefused table.now sector) }
{
    if sector as usize >= table.len() {
        return Err(no_chain(sector));
    }
    let next = table[sector as usize];
    if next == END_OF_CHAIN {
        return Ok(next);
    }
    if next > MAX_REGULAR_SECTOR || next as usize >= table.len() {
        return Err(no_chain(sector));
    }
    Ok(next)
}
