//! The walk over all objects of a directory (MS-CFB 2.6.4).
ghost use Rattle.std.specs.Prelude.{◌≡◌, ◌++◌, ℕ, List, [], map, reverse, OnOk, IfOk, IfErr};
ghost use Rattle.cfb_codecs.specs.EntryModel.{entries_of};
ghost use Rattle.cfb_format.specs.Names.{Cases};
ghost use Rattle.cfb_format.specs.Siblings.{Below};
ghost use Rattle.cfb_format.specs.Reading.{Outline, IsOutline};
ghost use Rattle.cfb_format.specs.Refused.{IsMemory};
ghost use Rattle.cfb_places.specs.cfb_siblings.Paths.{HasOutline};
ghost use Rattle.cfb_places.specs.Places.{placed_in, places_of};

use cfb_codecs::direntry::DirEntry;
use cfb_codecs::links::{child_link, left_link, right_link};
use cfb_format::consts::NO_STREAM;
use cfb_format::error::Error;
use cfb_outline::links::is_storage;
use std::alloc::Allocator;

/// An object of a directory, and where the storage that it is in stands in the list of all objects.
#[derive(Clone, Copy, Debug, PartialEq, Eq)]
pub struct Place {
    /// The number of the object's entry.
    pub entry: u32,
    /// The place in the list of the storage that it is in, or none where that is the root.
    pub parent: Option<usize>,
}

/// Appends the siblings that hang at a number, the greatest name first.
fn push_siblings<A: Allocator>(
    entries: &[DirEntry<A>],
    top: u32,
    parent: Option<usize>,
    stack: &mut Vec<u32, A>,
    pending: &mut Vec<Place, A>,
) -> Result<(), Error>
    requires listed { (cases : Cases)
        × (list : List ℕ) × Below cases (entries_of entries.now) top list }
    requires empty { stack.old.items ≡ [] }
    ensures ok { OnOk result ((cases : Cases) (list : List ℕ)
        → Below cases (entries_of entries.now) top list
        → pending.new.items ≡ pending.old.items ++ map (placed_in parent) (reverse list)) }
    ensures emptied { OnOk result (stack.new.items ≡ []) }
    ensures refused { IfErr result IsMemory }
{
    let mut current = top;
    loop {
        if current != NO_STREAM {
            stack.push(current)?;
            current = right_link(entries, current);
            continue;
        }
        let Some(entry) = stack.pop() else {
            return Ok(());
        };
        pending.push(Place { entry, parent })?;
        current = left_link(entries, entry);
    }
}

/// All objects of a directory but the root: a storage before what is in it, and siblings in name
/// order. `Memory` where the list gets none, and no other error.
///
/// It goes by the links of the entries alone and calls itself nowhere, so neither their names nor
/// the depth of the storages count; each entry that is reached is looked at once.
pub fn places<A: Allocator + Clone>(
    alloc: A,
    entries: &[DirEntry<A>],
) -> Result<Vec<Place, A>, Error>
    requires { (cases : Cases) × HasOutline cases (entries_of entries.now) }
    ensures ok { IfOk result (λ list. (cases : Cases) (o : Outline)
        → IsOutline cases (entries_of entries.now) o → list.items ≡ places_of o) }
    ensures refused { IfErr result IsMemory }
{
    let mut stack = Vec::new(alloc.clone()?);
    let mut pending = Vec::new(alloc.clone()?);
    let mut list = Vec::new(alloc);
    let first = child_link(entries, 0);
    push_siblings(entries, first, None, &mut stack, &mut pending)?;
    while let Some(next) = pending.pop() {
        let place = list.len();
        list.push(next)?;
        if !is_storage(entries, next.entry) {
            continue;
        }
        let child = child_link(entries, next.entry);
        push_siblings(entries, child, Some(place), &mut stack, &mut pending)?;
    }
    Ok(list)
}
