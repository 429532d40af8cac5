//! The free slots of a directory, as a stack: the last one is taken first. Right after opening that is the lowest one, after
//! the directory grew the lowest of the new ones, and after a removal the slot that it freed.
ghost use Rattle.std.specs.Prelude.{◌≡◌, ℕ, ◌+◌, ◌<◌, ◌≤◌, ◌↔◌, ◌++◌, ◌∷◌, [], IsTrue, length, not, vec_len, vec_capacity, IfOk, IfErr};
ghost use Rattle.cfb_format.specs.declared.objtype.ObjType.TheVariants.{Unallocated};
ghost use Rattle.cfb_format.specs.Refused.{IsMemory};
ghost use Rattle.cfb_format.specs.Siblings.{entry_at};
ghost use Rattle.cfb_codecs.specs.EntryModel.{entries_of};
ghost use Rattle.cfb_format.specs.Full.{max_entries};
ghost use Rattle.cfb_entries.specs.EntryList.{ListsFreeSlots};
ghost use Rattle.cfb_entries.specs.Slots.{with_numbers};

use cfb_codecs::direntry::DirEntry;
use cfb_format::error::Error;
use cfb_format::objtype::ObjType;
use std::alloc::Allocator;

/// Whether no entry uses the slot.
fn is_unused<A: Allocator>(list: &[DirEntry<A>], number: usize) -> bool
    requires { number < length list.now }
    ensures { IsTrue result ↔ ((entry_at (entries_of list.now) number).obj_type ≡ Unallocated) }
{
    list[number].obj_type == ObjType::Unallocated
}

/// The free slots, the greatest number first. `Memory` where memory for them is refused.
pub(crate) fn free_slots<A: Allocator>(heap: A, list: &[DirEntry<A>]) -> Result<Vec<u32, A>, Error>
    requires { length list.now ≤ max_entries }
    ensures ok { IfOk result (λ free. ListsFreeSlots (entries_of list.now) free.items) }
    ensures refused { IfErr result IsMemory }
{
    let mut free = Vec::new(heap);
    let mut left = list.len();
    while left > 0 {
        left -= 1;
        if is_unused(list, left) {
            free.push(left as u32)?;
        }
    }
    Ok(free)
}

/// Lists so many numbers from this one on, the greatest first, in memory that was asked for before.
pub(crate) fn list_numbers<A: Allocator>(free: &mut Vec<u32, A>, from: usize, count: usize)
    requires room { vec_len free.old + count ≤ vec_capacity free.old }
    requires few { from + count ≤ max_entries }
    ensures { free.new.items ≡ with_numbers free.old.items from count }
{
    let mut left = count;
    while left > 0 {
        left -= 1;
        free.push_reserved((from + left) as u32);
    }
}

/// Takes the slot that is taken first.
pub(crate) fn take_slot<A: Allocator>(free: &mut Vec<u32, A>) -> u32
    requires { 0 < vec_len free.old }
    ensures items { free.old.items ≡ free.new.items ++ result ∷ [] }
    ensures capacity { vec_capacity free.new ≡ vec_capacity free.old }
    ensures len { vec_len free.new + 1 ≡ vec_len free.old }
{
    free.pop().unwrap()
}
