//! All that is in a storage (MS-CFB 2.6.4).
ghost use Rattle.std.specs.Prelude.{◌≡◌, ◌++◌, ℕ, List, [], reverse, OnOk, IfOk, IfErr};
ghost use Rattle.cfb_codecs.specs.EntryModel.{entries_of};
ghost use Rattle.cfb_format.specs.Names.{Cases};
ghost use Rattle.cfb_format.specs.Siblings.{Below};
ghost use Rattle.cfb_format.specs.Reading.{Outline, numbers};
ghost use Rattle.cfb_format.specs.Refused.{IsMemory};
ghost use Rattle.cfb_outline.specs.Outlines.{HasInside, IsReachedStorage};

use crate::links::is_storage;
use cfb_codecs::direntry::DirEntry;
use cfb_codecs::links::{child_link, left_link, right_link};
use cfb_format::consts::NO_STREAM;
use cfb_format::error::Error;
use std::alloc::Allocator;

/// Appends the siblings that hang at a number, the greatest name first. `Memory` where memory for them is refused.
pub fn push_siblings<A: Allocator>(
    entries: &[DirEntry<A>],
    top: u32,
    stack: &mut Vec<u32, A>,
    pending: &mut Vec<u32, A>,
) -> Result<(), Error>
    requires listed { (cases : Cases)
        × (list : List ℕ) × Below cases (entries_of entries.now) top list }
    requires empty { stack.old.items ≡ [] }
    ensures ok { OnOk result ((cases : Cases) (list : List ℕ)
        → Below cases (entries_of entries.now) top list
        → pending.new.items ≡ pending.old.items ++ reverse list) }
    ensures emptied { OnOk result (stack.new.items ≡ []) }
    ensures refused { IfErr result IsMemory }
{
    let mut current = top;
    loop {
        if current != NO_STREAM {
            stack.push(current)?;
            current = right_link(entries, current);
            continue;
        }
        let Some(number) = stack.pop() else {
            return Ok(());
        };
        pending.push(number)?;
        current = left_link(entries, number);
    }
}

/// The numbers of all that is in a storage, each storage before what is in it and the children of
/// each in name order. `Memory` where the list gets none, and no other error.
pub fn contents<A: Allocator + Clone>(
    alloc: A,
    entries: &[DirEntry<A>],
    parent: u32,
) -> Result<Vec<u32, A>, Error>
    requires { (cases : Cases) × IsReachedStorage cases (entries_of entries.now) parent }
    ensures ok { IfOk result (λ order. (cases : Cases) (o : Outline)
        → HasInside cases (entries_of entries.now) parent o → order.items ≡ numbers o) }
    ensures refused { IfErr result IsMemory }
{
    let mut stack = Vec::new(alloc.clone()?);
    let mut pending = Vec::new(alloc.clone()?);
    let mut order = Vec::new(alloc);
    let first = child_link(entries, parent);
    push_siblings(entries, first, &mut stack, &mut pending)?;
    while let Some(number) = pending.pop() {
        order.push(number)?;
        if !is_storage(entries, number) {
            continue;
        }
        let child = child_link(entries, number);
        push_siblings(entries, child, &mut stack, &mut pending)?;
    }
    Ok(order)
}
