//! Which entries are reached from the root (MS-CFB 2.6.2 to 2.6.4).
ghost use Rattle.std.specs.Prelude.{◌≡◌, ◌++◌, ◌||◌, ℕ, List, [], length, nat_eq, replicate, reverse, false, OnOk, IfOk, IfErr};
ghost use Rattle.std.specs.List.{list_all, list_any};
ghost use Rattle.cfb_codecs.specs.EntryModel.{entries_of};
ghost use Rattle.cfb_format.specs.Siblings.{is_red_apart};
ghost use Rattle.cfb_format.specs.Reading.{Outline, IsOutline, numbers};
ghost use Rattle.cfb_format.specs.Refused.{IsInvalidOrMemory, IsMemory};
ghost use Rattle.cfb_outline.specs.Families.{Family, is_marked};
ghost use Rattle.cfb_outline.specs.Outlines.{AcceptsOutline};

use crate::links::{has_root, is_object, is_storage, keeps_red_apart, precedes, red_child};
use cfb_codecs::direntry::DirEntry;
use cfb_codecs::links::{child_link, left_link, right_link};
use cfb_codecs::path::CaseMapper;
use cfb_format::consts::NO_STREAM;
use cfb_format::error::{Detail, Error};
use cfb_format::objtype::ObjType;
use cfb_format::validate::Validation;
use std::alloc::Allocator;

/// The refusal of what stands at the entry of this number.
fn malformed(text: &'static str, number: u32) -> Error
    ensures { (detail : _) × (result ≡ Error.InvalidData detail) }
{
    Error::InvalidData(Detail::number(text, u64::from(number)))
}

/// What is told of the entries of these two numbers.
fn of_pair(text: &'static str, first: u32, second: u32) -> Detail {
    Detail::numbers(text, u64::from(first), u64::from(second))
}

/// What is told of a first entry that is no root, or a root whose length is no whole mini sectors.
fn no_root<A: Allocator>(entries: &[DirEntry<A>]) -> Detail {
    match entries.first() {
        Some(root) if root.obj_type == ObjType::Root => Detail::number(
            "entry 0: the length of the mini stream, {}, is no multiple of 64",
            root.stream_len,
        ),
        _ => Detail::text("entry 0: not the root"),
    }
}

/// As many marks, none of them set.
fn no_marks<A: Allocator>(alloc: A, count: usize) -> Result<Vec<bool, A>, Error>
    ensures marks { IfOk result (λ marks. marks.items ≡ replicate count false) }
    ensures refused { IfErr result IsMemory }
{
    let mut marks = Vec::new(alloc);
    marks.resize(count, false)?;
    Ok(marks)
}

/// Appends the siblings that hang at a number, the greatest name first, and marks them.
///
/// `InvalidData` exactly where they are not storages and streams in range, each of them reached
/// once and not marked before, whose names rise along the whole list.
fn walk_siblings<A: Allocator>(
    cases: &CaseMapper<A>,
    entries: &[DirEntry<A>],
    top: u32,
    seen: &mut Vec<bool, A>,
    stack: &mut Vec<u32, A>,
    pending: &mut Vec<u32, A>,
) -> Result<(), Error>
    requires marks { length seen.old.items ≡ length entries.now }
    requires empty { stack.old.items ≡ [] }
    ensures ok { OnOk result ((list : List ℕ)
        × Family cases.now (entries_of entries.now) top seen.old.items list
        × (pending.new.items ≡ pending.old.items ++ reverse list) × ((k : ℕ)
        → is_marked seen.new.items k ≡ (is_marked seen.old.items k || list_any (nat_eq k) list))) }
    ensures size { OnOk result (length seen.new.items ≡ length entries.now) }
    ensures emptied { OnOk result (stack.new.items ≡ []) }
    ensures refused { IfErr result (IsInvalidOrMemory ((list : List ℕ)
        → Family cases.now (entries_of entries.now) top seen.old.items list → ⊥)) }
{
    let mut current = top;
    let mut last = None;
    loop {
        if current != NO_STREAM {
            if current as usize >= entries.len() {
                return Err(malformed("entry {}: a link leads to it, but it is not there", current));
            }
            if seen[current as usize] {
                return Err(malformed("entry {}: reached twice", current));
            }
            stack.push(current)?;
            seen[current as usize] = true;
            current = right_link(entries, current);
            continue;
        }
        let Some(number) = stack.pop() else {
            return Ok(());
        };
        if !is_object(entries, number) {
            return Err(malformed("entry {}: neither a storage nor a stream", number));
        }
        if !precedes(cases, entries, number, last) {
            let later = last.unwrap_or(number);
            let detail = of_pair("entries {} and {}: names out of order", number, later);
            return Err(Error::InvalidData(detail));
        }
        pending.push(number)?;
        last = Some(number);
        current = left_link(entries, number);
    }
}

/// The numbers of all entries that are reached from the root, a storage before what is in it.
///
/// `InvalidData` exactly where the entries have no outline.
fn reach<A: Allocator + Clone>(
    alloc: A,
    cases: &CaseMapper<A>,
    entries: &[DirEntry<A>],
) -> Result<Vec<u32, A>, Error>
    ensures ok { IfOk result (λ order. (o : Outline)
        × IsOutline cases.now (entries_of entries.now) o × (order.items ≡ numbers o)) }
    ensures refused { IfErr result (IsInvalidOrMemory ((o : Outline)
        → IsOutline cases.now (entries_of entries.now) o → ⊥)) }
{
    if entries.len() == 0 {
        return Err(Error::InvalidData(Detail::text("the directory has no entry")));
    }
    if !has_root(entries) {
        return Err(Error::InvalidData(no_root(entries)));
    }
    let mut seen = no_marks(alloc.clone()?, entries.len())?;
    seen[0] = true;
    let mut stack = Vec::new(alloc.clone()?);
    let mut pending = Vec::new(alloc.clone()?);
    let mut order = Vec::new(alloc);
    let first = child_link(entries, 0);
    walk_siblings(cases, entries, first, &mut seen, &mut stack, &mut pending)?;
    while let Some(number) = pending.pop() {
        order.push(number)?;
        if !is_storage(entries, number) {
            continue;
        }
        let child = child_link(entries, number);
        walk_siblings(cases, entries, child, &mut seen, &mut stack, &mut pending)?;
    }
    Ok(order)
}

/// Whether each of these entries is not red, or neither of those that hang directly under it is.
fn are_red_apart<A: Allocator>(entries: &[DirEntry<A>], order: &[u32]) -> bool
    ensures { result ≡ list_all (is_red_apart (entries_of entries.now)) order.now }
{
    order.iter().all(|number| keeps_red_apart(entries, *number))
}

/// What is told of the first of these entries that is red, and under which a red one hangs.
fn red_below_red<A: Allocator>(entries: &[DirEntry<A>], order: &[u32]) -> Detail {
    let upper = order
        .iter()
        .find(|number| !keeps_red_apart(entries, **number));
    let upper = upper.copied().unwrap_or(0);
    let lower = red_child(entries, upper);
    of_pair("strict: entry {}: red below red entry {}", lower, upper)
}

/// The numbers of all entries that are reached from the root, a storage before what is in it and
/// the siblings of each storage in name order. The root itself, number 0, is not among them.
///
/// `InvalidData` exactly where the entries have no outline that opening in this mode takes: entry 0
/// is a root whose length is whole mini sectors; each entry that is reached from it by child and
/// sibling numbers is there, is a storage or a stream, and is reached once; and the names of each
/// storage rise along the whole list. Strict opening wants no red entry directly under a red one.
/// The siblings of entry 0 do not count. Else `Memory` where memory was refused.
pub fn reached_entries<A: Allocator + Clone>(
    alloc: A,
    cases: &CaseMapper<A>,
    entries: &[DirEntry<A>],
    validation: Validation,
) -> Result<Vec<u32, A>, Error>
    ensures ok { IfOk result (λ order. (o : Outline)
        × AcceptsOutline validation cases.now (entries_of entries.now) o
        × (order.items ≡ numbers o)) }
    ensures refused { IfErr result (IsInvalidOrMemory ((o : Outline)
        → AcceptsOutline validation cases.now (entries_of entries.now) o → ⊥)) }
{
    let order = reach(alloc, cases, entries)?;
    match validation {
        Validation::Permissive => Ok(order),
        Validation::Strict => {
            if are_red_apart(entries, order.as_slice()) {
                Ok(order)
            } else {
                let detail = red_below_red(entries, order.as_slice());
                Err(Error::InvalidData(detail))
            }
        }
    }
}
