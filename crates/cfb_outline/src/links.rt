//! What an entry of a number says.
ghost use Rattle.std.specs.Prelude.{◌≡◌, ◌<◌, length};
ghost use Rattle.std.specs.Ordering.{is_lt};
ghost use Rattle.cfb_codecs.specs.EntryModel.{entries_of};
ghost use Rattle.cfb_format.specs.Names.{name_cmp};
ghost use Rattle.cfb_format.specs.Siblings.{entry_at, is_red_color, is_red_at, is_red_apart};
ghost use Rattle.cfb_outline.specs.Families.{is_object_kind, is_storage_kind, is_root_entry, is_before_last, IsInside};

use cfb_codecs::direntry::DirEntry;
use cfb_codecs::links::{left_link, right_link};
use cfb_codecs::path::{CaseMapper, compare_names};
use cfb_format::color::Color;
use cfb_format::consts::NO_STREAM;
use cfb_format::objtype::ObjType;
use std::alloc::Allocator;

/// Whether the entry may be in a storage: it is a storage or a stream.
pub(crate) fn is_object<A: Allocator>(entries: &[DirEntry<A>], number: u32) -> bool
    requires { number < length entries.now }
    ensures { result ≡ is_object_kind (entry_at (entries_of entries.now) number).obj_type }
{
    match entries[number as usize].obj_type {
        ObjType::Storage | ObjType::Stream => true,
        ObjType::Unallocated | ObjType::Root => false,
    }
}

/// Whether the entry is a storage, and not the root.
pub fn is_storage<A: Allocator>(entries: &[DirEntry<A>], number: u32) -> bool
    requires { number < length entries.now }
    ensures { result ≡ is_storage_kind (entry_at (entries_of entries.now) number).obj_type }
{
    match entries[number as usize].obj_type {
        ObjType::Storage => true,
        ObjType::Stream | ObjType::Unallocated | ObjType::Root => false,
    }
}

/// Whether the first entry is a root whose length is whole mini sectors.
pub(crate) fn has_root<A: Allocator>(entries: &[DirEntry<A>]) -> bool
    requires { 0 < length entries.now }
    ensures { result ≡ is_root_entry (entry_at (entries_of entries.now) 0) }
{
    match entries[0].obj_type {
        ObjType::Root => entries[0].stream_len % 64 == 0,
        ObjType::Storage | ObjType::Stream | ObjType::Unallocated => false,
    }
}

/// Whether the first name comes before the second.
fn is_before<A: Allocator>(
    cases: &CaseMapper<A>,
    entries: &[DirEntry<A>],
    first: u32,
    second: u32,
) -> bool
    requires first_in { first < length entries.now }
    requires second_in { second < length entries.now }
    ensures { result ≡ is_lt (name_cmp cases.now (entry_at (entries_of entries.now) first).name
        (entry_at (entries_of entries.now) second).name) }
{
    compare_names(
        cases,
        entries[first as usize].name.as_str(),
        entries[second as usize].name.as_str(),
    )
    .is_lt()
}

/// Whether the entry's name comes before that of the last one, if there is one.
pub(crate) fn precedes<A: Allocator>(
    cases: &CaseMapper<A>,
    entries: &[DirEntry<A>],
    number: u32,
    last: Option<u32>,
) -> bool
    requires number_in { number < length entries.now }
    requires last_in { IsInside entries.now last }
    ensures { result ≡ is_before_last cases.now (entries_of entries.now) number last }
{
    match last {
        None => true,
        Some(later) => is_before(cases, entries, number, later),
    }
}

fn is_red(color: Color) -> bool
    ensures { result ≡ is_red_color color }
{
    match color {
        Color::Red => true,
        Color::Black => false,
    }
}

/// Whether an entry of this number is red. Past the end stands an unused entry, which is red.
fn is_red_link<A: Allocator>(entries: &[DirEntry<A>], number: u32) -> bool
    ensures { result ≡ is_red_at (entries_of entries.now) number }
{
    if number == NO_STREAM {
        return false;
    }
    if number as usize >= entries.len() {
        return true;
    }
    is_red(entries[number as usize].color)
}

/// Whether the entry is not red, or neither of those that hang directly under it is. Nothing hangs
/// under what stands past the end.
pub(crate) fn keeps_red_apart<A: Allocator>(entries: &[DirEntry<A>], number: u32) -> bool
    ensures { result ≡ is_red_apart (entries_of entries.now) number }
{
    if number as usize >= entries.len() {
        return true;
    }
    let red = is_red(entries[number as usize].color);
    !(red && is_red_link(entries, left_link(entries, number)))
        && !(red && is_red_link(entries, right_link(entries, number)))
}

/// The red entry that hangs directly under this one: the left one, if that is red.
pub(crate) fn red_child<A: Allocator>(entries: &[DirEntry<A>], number: u32) -> u32 {
    if number as usize >= entries.len() {
        return number;
    }
    let left = left_link(entries, number);
    if is_red_link(entries, left) {
        left
    } else {
        right_link(entries, number)
    }
}
