//! What an insertion needs, asked for before anything changes.
ghost use Rattle.std.specs.Prelude.{◌≡◌, ℕ, ◌≤◌, List, length, chars, IfOk};
ghost use Rattle.cfb_codecs.specs.EntryModel.{entries_of};
ghost use Rattle.cfb_siblings.specs.Children.{HasChildren, IsAbsent, IsParent};
ghost use Rattle.cfb_entries.specs.Insertions.{IsInsertionOf};

use cfb_codecs::direntry::DirEntry;
use cfb_codecs::path::CaseMapper;
use cfb_format::consts::NO_STREAM;
use cfb_siblings::insert::place_for;
use cfb_siblings::place::Place;
use std::alloc::{AllocError, Allocator, Global};

/// What an insertion needs: the name, its place among the siblings, and the memory for the list of slots that it touches.
#[derive(Drop)]
pub struct Insertion<A: Allocator = Global> {
    pub(crate) name: String<A>,
    pub(crate) place: Place<A>,
}

/// What the insertion of this name among the children of `parent` needs. `AllocError` where memory for it is refused.
pub(crate) fn insertion_of<A: Allocator + Clone>(
    heap: &A,
    letters: &CaseMapper<A>,
    list: &[DirEntry<A>],
    parent: u32,
    name: &str,
) -> Result<Insertion<A>, AllocError>
    requires few { length (entries_of list.now) ≤ NO_STREAM }
    requires stands { IsParent letters.now (entries_of list.now) parent }
    requires absent { (children : List ℕ)
        → HasChildren letters.now (entries_of list.now) parent children
        → IsAbsent letters.now (entries_of list.now) (chars name.now) children }
    ensures { IfOk result (λ insertion.
        IsInsertionOf (chars name.now) letters.now (entries_of list.now) parent insertion) }
{
    let place = place_for(heap.clone()?, letters, list, parent, name)?;
    let name = String::from_str(heap.clone()?, name)?;
    Ok(Insertion { name, place })
}
