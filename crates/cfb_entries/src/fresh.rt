//! Entries that are not used, for a directory that grows.
ghost use Rattle.std.specs.Prelude.{◌≡◌, ℕ, ◌+◌, ◌≤◌, List, length, replicate, vec_len, vec_capacity, IfOk, IfErr};
ghost use Rattle.cfb_format.specs.DirectoryEntry.{unallocated_entry};
ghost use Rattle.cfb_codecs.specs.EntryModel.{entries_of};
ghost use Rattle.cfb_format.specs.Refused.{IsMemory};
ghost use Rattle.cfb_siblings.specs.Laws.{grown_by};

use cfb_codecs::direntry::DirEntry;
use cfb_format::error::Error;
use std::alloc::Allocator;

/// So many entries that are not used. `Memory` where memory for them is refused.
pub fn fresh_entries<A: Allocator + Clone>(
    heap: &A,
    count: usize,
) -> Result<Vec<DirEntry<A>, A>, Error>
    ensures count { IfOk result (λ list. vec_len list ≡ count) }
    ensures unused { IfOk result (λ list. entries_of list.items
        ≡ replicate count unallocated_entry) }
    ensures refused { IfErr result IsMemory }
{
    let mut list = Vec::new(heap.clone()?);
    list.reserve(count)?;
    for turn in 0..count {
        let _fact = turn;
        list.push_reserved(DirEntry::unallocated(heap.clone()?));
    }
    Ok(list)
}

/// Moves entries that are not used behind the others, in memory that was asked for before.
pub(crate) fn append_fresh<A: Allocator>(
    list: &mut Vec<DirEntry<A>, A>,
    fresh: &mut Vec<DirEntry<A>, A>,
)
    requires room { vec_len list.old + vec_len fresh.old ≤ vec_capacity list.old }
    requires unused { entries_of fresh.old.items ≡ replicate (vec_len fresh.old) unallocated_entry }
    ensures { entries_of list.new.items ≡ grown_by (entries_of list.old.items) (vec_len fresh.old) }
{
    while let Some(entry) = fresh.pop() {
        list.push_reserved(entry);
    }
}
