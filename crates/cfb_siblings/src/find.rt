//! Look-ups in the children of a storage, along the sibling tree. They take no memory.
ghost use Rattle.std.specs.Prelude.{◌≡◌, ◌≢◌, ℕ, ◌<◌, ◌≤◌, ◌↔◌, IsTrue, length, chars, map, List, ◌∷◌, Contains, IfSome, MatchOption};
ghost use Rattle.cfb_siblings.specs.Children.{HasChildren, IsAbsent, IsChildNamed, IsParent};
ghost use Rattle.cfb_codecs.specs.EntryModel.{entries_of};
ghost use Rattle.cfb_siblings.specs.Paths.{HasOutline, LeadsOn, number_at_path, number_from};
ghost use Rattle.cfb_format.specs.declared.objtype.ObjType.TheVariants.{Stream};
ghost use Rattle.cfb_format.specs.Reading.{IsOutline, Outline, numbers};
ghost use Rattle.cfb_format.specs.Siblings.{entry_at};

use crate::links::links;
use cfb_codecs::direntry::DirEntry;
use cfb_codecs::links::child_link;
use cfb_codecs::path::{CaseMapper, compare_names, next_name, stays_below_root};
use cfb_format::consts::NO_STREAM;
use cfb_format::objtype::ObjType;
use std::alloc::Allocator;
use std::cmp::Ordering;

/// The child of that name in the storage `parent`, or `None` where it has none (MS-CFB 2.6.4). It
/// takes no memory.
pub fn find_child<A: Allocator>(
    cases: &CaseMapper<A>,
    entries: &[DirEntry<A>],
    parent: u32,
    name: &str,
) -> Option<u32>
    requires few { length (entries_of entries.now) ≤ NO_STREAM }
    requires stands { IsParent cases.now (entries_of entries.now) parent }
    ensures named { (list : List ℕ) → HasChildren cases.now (entries_of entries.now) parent list
        → MatchOption result (IsAbsent cases.now (entries_of entries.now) (chars name.now) list)
        (λ k. IsChildNamed cases.now (entries_of entries.now) (chars name.now) list k) }
    ensures reached { (outline : Outline) → IsOutline cases.now (entries_of entries.now) outline
        → Contains (0 ∷ numbers outline) parent
        → (entry_at (entries_of entries.now) parent).obj_type ≢ Stream
        → IfSome result (λ k. Contains (numbers outline) k) }
{
    let mut link = child_link(entries, parent);
    while link != NO_STREAM {
        let (left, right) = links(entries, link);
        link = match compare_names(cases, name, &entries[link as usize].name) {
            Ordering::Equal => return Some(link),
            Ordering::Less => left,
            Ordering::Greater => right,
        };
    }
    None
}

/// What the entry `node` has of that name in it. There is nothing in a stream (MS-CFB 2.6.2).
fn find_below<A: Allocator>(
    cases: &CaseMapper<A>,
    entries: &[DirEntry<A>],
    node: u32,
    name: &str,
) -> Option<u32>
    requires few { length (entries_of entries.now) ≤ NO_STREAM }
    requires node_in { node < length entries.now }
    requires stands { (entry_at (entries_of entries.now) node).obj_type ≢ Stream
        → IsParent cases.now (entries_of entries.now) node }
    ensures { LeadsOn cases.now (entries_of entries.now) node (chars name.now) result }
{
    if is_stream(entries, node) {
        return None;
    }
    find_child(cases, entries, node, name)
}

/// The entry at a path from the root, which is entry 0: `None` where a `..` leaves the root, and
/// where nothing is there. There is nothing in a stream (MS-CFB 2.6.2). It takes no memory.
pub fn find_path<A: Allocator>(
    cases: &CaseMapper<A>,
    entries: &[DirEntry<A>],
    path: &str,
) -> Option<u32>
    requires few { length (entries_of entries.now) ≤ NO_STREAM }
    requires stands { HasOutline cases.now (entries_of entries.now) }
    ensures found { (outline : Outline) → IsOutline cases.now (entries_of entries.now) outline
        → result ≡ number_at_path cases.now (entries_of entries.now) outline (chars path.now) }
    ensures reached { (outline : Outline) → IsOutline cases.now (entries_of entries.now) outline
        → IfSome result (λ k. Contains (0 ∷ numbers outline) k) }
{
    if !stays_below_root(path) {
        return None;
    }
    let mut node: u32 = 0;
    let mut left = path;
    while let Some((name, rest)) = next_name(left) {
        match find_below(cases, entries, node, name) {
            Some(found) => node = found,
            None => return None,
        }
        left = rest;
    }
    Some(node)
}

/// The entry at a chain of names from the root, which is entry 0: `None` where nothing is there.
/// There is nothing in a stream (MS-CFB 2.6.2). It takes no memory.
pub fn find_names<A: Allocator>(
    cases: &CaseMapper<A>,
    entries: &[DirEntry<A>],
    names: &[&str],
) -> Option<u32>
    requires few { length (entries_of entries.now) ≤ NO_STREAM }
    requires stands { HasOutline cases.now (entries_of entries.now) }
    ensures found { (outline : Outline) → IsOutline cases.now (entries_of entries.now) outline
        → result ≡ number_from cases.now (entries_of entries.now) 0 outline (map (λ name.
        chars name.now) names.now) }
    ensures reached { (outline : Outline) → IsOutline cases.now (entries_of entries.now) outline
        → IfSome result (λ k. Contains (0 ∷ numbers outline) k) }
{
    let mut node: u32 = 0;
    for name in names {
        match find_below(cases, entries, node, name) {
            Some(found) => node = found,
            None => return None,
        }
    }
    Some(node)
}

fn is_stream<A: Allocator>(entries: &[DirEntry<A>], n: u32) -> bool
    requires { n < length entries.now }
    ensures { IsTrue result ↔ ((entry_at (entries_of entries.now) n).obj_type ≡ Stream) }
{
    entries[n as usize].obj_type == ObjType::Stream
}
