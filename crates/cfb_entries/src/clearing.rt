//! All that is in a storage, taken from a directory's entries at once.
ghost use Rattle.std.specs.Prelude.{◌≡◌, ℕ, ◌<◌, ◌≤◌, ◌++◌, ◌∷◌, List, length, slice_set, vec_len, Contains, IfOk, OnOk, OnErr};
ghost use Rattle.cfb_format.specs.Bytes.{no_stream};
ghost use Rattle.cfb_format.specs.DirectoryEntry.{unallocated_entry};
ghost use Rattle.cfb_format.specs.Reading.{Outline, numbers};
ghost use Rattle.cfb_format.specs.Siblings.{entry_at};
ghost use Rattle.cfb_codecs.specs.EntryModel.{entry_of, entries_of};
ghost use Rattle.cfb_index.specs.Index.{HasSame};
ghost use Rattle.cfb_outline.specs.Outlines.{HasInside, IsReachedStorage};
ghost use Rattle.cfb_entries.specs.Clearing.{HasCleared};
ghost use Rattle.cfb_entries.specs.Covering.{Covers};
ghost use Rattle.cfb_entries.specs.EntryList.{HaveShortNames};

use crate::indexing::{children_in, take_entries};
use cfb_codecs::direntry::DirEntry;
use cfb_codecs::path::CaseMapper;
use cfb_codecs::timestamp::Timestamp;
use cfb_format::color::Color;
use cfb_format::consts::NO_STREAM;
use cfb_format::objtype::ObjType;
use cfb_index::index::NameIndex;
use std::alloc::{AllocError, Allocator};
use uuid::Uuid;

/// Makes the entry one that is not used.
fn unuse<A: Allocator>(entry: &mut DirEntry<A>)
    ensures { entry_of entry.new ≡ unallocated_entry }
{
    entry.name.clear();
    entry.obj_type = ObjType::Unallocated;
    entry.color = Color::Red;
    entry.left_sibling = NO_STREAM;
    entry.right_sibling = NO_STREAM;
    entry.child = NO_STREAM;
    entry.clsid = Uuid::nil();
    entry.state_bits = 0;
    entry.creation_time = Timestamp::zero();
    entry.modified_time = Timestamp::zero();
    entry.start_sector = 0;
    entry.stream_len = 0;
}

/// Makes the entry of that number one that is not used.
fn unuse_at<A: Allocator>(list: &mut [DirEntry<A>], number: u32)
    requires { number < length list.old }
    ensures { entries_of list.new
        ≡ slice_set (entries_of list.old) number unallocated_entry }
{
    unuse(&mut list[number as usize]);
}

/// Leaves the entry of that number without a child.
fn leave_childless<A: Allocator>(list: &mut [DirEntry<A>], number: u32)
    requires { number < length list.old }
    ensures { entries_of list.new ≡ slice_set (entries_of list.old) number
        (record (entry_at (entries_of list.old) number) { child = no_stream }) }
{
    list[number as usize].child = NO_STREAM;
}

/// Leaves the entry `top` without a child, and makes the entries of these numbers ones that are not used.
fn clear_entries<A: Allocator>(list: &mut [DirEntry<A>], top: u32, inside: &[u32])
    requires top { top < length list.old }
    requires within { (k : ℕ) → Contains inside.now k → k < length list.old }
    requires apart { Contains inside.now top → ⊥ }
    ensures { HasCleared (entries_of list.old) (entries_of list.new) top inside.now }
{
    leave_childless(list, top);
    for number in inside {
        unuse_at(list, *number);
    }
}

/// Takes all that is in the storage `top`, the entries of the numbers `inside`, out of the list, and puts their slots behind the free
/// ones. It answers the slots whose entries changed.
pub(crate) fn clear_storage<A: Allocator + Clone>(
    letters: &CaseMapper<A>,
    list: &mut Vec<DirEntry<A>, A>,
    free: &mut Vec<u32, A>,
    index: &mut NameIndex<A>,
    heap: &A,
    top: u32,
    inside: &[u32],
) -> Result<Vec<u32, A>, AllocError>
    requires top { top < length list.old.items }
    requires within { (k : ℕ) → Contains inside.now k → k < length list.old.items }
    requires apart { Contains inside.now top → ⊥ }
    requires storage { IsReachedStorage letters.now (entries_of list.old.items) top }
    requires all { (o : Outline)
        → HasInside letters.now (entries_of list.old.items) top o → inside.now ≡ numbers o }
    requires covers { Covers letters.now (entries_of list.old.items) index.old }
    requires short { HaveShortNames (entries_of list.old.items) }
    ensures cleared { OnOk result ((HasCleared
        (entries_of list.old.items) (entries_of list.new.items) top inside.now)
        × (free.new.items ≡ free.old.items ++ inside.now)) }
    ensures covered { OnOk result (Covers letters.now (entries_of list.new.items) index.new) }
    ensures room { OnOk result (vec_len free.new ≤ index.new.room) }
    ensures touched { IfOk result (λ touched. touched.items ≡ top ∷ inside.now) }
    ensures refused { OnErr result ((list.new.items ≡ list.old.items)
        × (free.new.items ≡ free.old.items)
        × HasSame index.old index.new × (index.old.room ≤ index.new.room)) }
{
    let mut touched = Vec::new(heap.clone()?);
    touched.push(top)?;
    touched.extend_from_slice(inside)?;
    let Ok(children) = children_in(heap, list, &touched) else {
        return Err(AllocError);
    };
    index.reserve(free.len() + inside.len())?;
    free.extend_from_slice(inside)?;
    take_entries(index, letters, list, &children);
    clear_entries(list, top, inside);
    Ok(touched)
}
