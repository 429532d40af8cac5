//! Sectors get owners, list by list and chain by chain.
ghost use Rattle.std.specs.Prelude.{◌≡◌, ◌↔◌, ◌++◌, ◌∷◌, [], IsTrue, ◌<◌, ℕ, List, false, true, length, Contains, IfOk, IfErr, OnOk};
ghost use Rattle.cfb_format.specs.declared.error.Error.TheVariants.{Memory};
ghost use Rattle.cfb_format.specs.Chain.{Follows};
ghost use Rattle.cfb_soundness.specs.Marks.{AreFresh, Marked};
ghost use Rattle.cfb_flaws.specs.declared.owner.Owner.{Owner as OwnerOf};
ghost use Rattle.cfb_flaws.specs.Owners.{is_chained, is_unused};
ghost use Rattle.cfb_flaws.specs.Claims.{Arrives, Claimed, Given, IsKnown, IsPath, Stops, chain_of};

use crate::owner::{Owner, owner_at};
use cfb_format::consts::{END_OF_CHAIN, MAX_REGULAR_SECTOR};
use cfb_format::error::Error;
use std::alloc::{Allocator, Global};

/// A walk along a table: the numbers that it passed, and the first that it did not.
#[derive(Drop)]
pub(crate) struct Walk<A: Allocator = Global> {
    pub(crate) path: Vec<u32, A>,
    pub(crate) next: u32,
}

/// Walks from `start` on over numbers that no walk has seen yet, which then are seen. `Memory`.
pub(crate) fn walk_unseen<A: Allocator>(
    heap: A,
    table: &[u32],
    start: u32,
    seen: &mut [bool],
) -> Result<Walk<A>, Error>
    requires { length seen.old ≡ length table.now }
    ensures path { IfOk result (λ walk. IsPath table.now start walk.path.items walk.next) }
    ensures fresh { IfOk result (λ walk. AreFresh seen.old walk.path.items) }
    ensures marked { IfOk result (λ walk. Marked seen.old walk.path.items seen.new) }
    ensures stops { IfOk result (λ walk. Stops table.now seen.new walk.next) }
    ensures err { IfErr result (λ e. e ≡ Memory) }
{
    let mut path = Vec::new(heap);
    let mut sector = start;
    while sector != END_OF_CHAIN {
        let at = sector as usize;
        if sector > MAX_REGULAR_SECTOR || at >= table.len() || seen[at] {
            return Ok(Walk { path, next: sector });
        }
        seen[at] = true;
        path.push(sector)?;
        sector = table[at];
    }
    Ok(Walk { path, next: sector })
}

/// Gives the numbers of the chain that begins at `start` to this owner, but for those that have one. None where there is no such
/// chain. All walks together take as many steps as the table has entries. `Memory`.
pub(crate) fn claim_chain<A: Allocator>(
    heap: A,
    table: &[u32],
    start: u32,
    owner: Owner,
    owners: &mut [Owner],
    seen: &mut [bool],
) -> Result<(), Error>
    requires owners { length owners.old ≡ length table.now }
    requires seen { length seen.old ≡ length table.now }
    requires chained { is_chained owner ≡ true }
    ensures claimed { IsKnown table.now owners.old seen.old
        → OnOk result (Claimed owners.old (chain_of table.now start) owner owners.new) }
    ensures known { IsKnown table.now owners.old seen.old
        → OnOk result (IsKnown table.now owners.new seen.new) }
    ensures err { IfErr result (λ e. e ≡ Memory) }
{
    let walk = walk_unseen(heap, table, start, seen)?;
    if !is_on_chain(walk.next, owners) {
        return Ok(());
    }
    give(&walk.path, owner, owners);
    Ok(())
}

/// The number is the end, or one of a chain that has an owner.
pub(crate) fn is_on_chain(number: u32, owners: &[Owner]) -> bool
    ensures { IsTrue result ↔ Arrives owners.now number }
{
    let at = number as usize;
    number == END_OF_CHAIN || at < owners.len() && owners[at].is_chained()
}

/// Gives these numbers to this owner.
fn give(numbers: &[u32], owner: Owner, owners: &mut [Owner])
    requires { (i : ℕ) → Contains numbers.now i → i < length owners.old }
    ensures { Given owners.old numbers.now owner owners.new }
{
    for number in numbers {
        owners[*number as usize] = owner;
    }
}

/// Gives the number to this owner, if it is one of the table's and has none.
fn claim(number: u32, owner: Owner, owners: &mut [Owner], seen: &mut [bool])
    requires { length owners.old ≡ length seen.old }
    ensures claimed { (first : List OwnerOf) (done : List ℕ) → Claimed first done owner owners.old
        → Claimed first (done ++ number ∷ []) owner owners.new }
    ensures known { (table : List ℕ) → IsKnown table owners.old seen.old
        → ((xs : List ℕ) → Follows table number xs → ⊥)
        → is_unused owner ≡ false → is_chained owner ≡ false → IsKnown table owners.new seen.new }
{
    let at = number as usize;
    if at >= owners.len() {
        return;
    }
    let old = owner_at(owners, at);
    if !old.is_unused() {
        return;
    }
    owners[at] = owner;
    seen[at] = true;
}

/// Gives the numbers of a list to this owner, but for those that have one. No walk goes over them then.
pub(crate) fn claim_list(list: &[u32], owner: Owner, owners: &mut [Owner], seen: &mut [bool])
    requires owners { length owners.old ≡ length seen.old }
    ensures claimed { Claimed owners.old list.now owner owners.new }
    ensures known { (table : List ℕ) → IsKnown table owners.old seen.old
        → ((i : ℕ) → Contains list.now i → (xs : List ℕ) → Follows table i xs → ⊥)
        → is_unused owner ≡ false → is_chained owner ≡ false → IsKnown table owners.new seen.new }
{
    for number in list {
        claim(*number, owner, owners, seen);
    }
}
