//! The links and the colour of single entries.
ghost use Rattle.std.specs.Prelude.{slice_set, ◌≡◌, ℕ, ◌<◌, ◌≤◌, ◌==◌, length, cond, Option, MatchOption, List};
ghost use Rattle.cfb_format.specs.DirectoryEntry.{unallocated_entry};
ghost use Rattle.cfb_codecs.specs.EntryModel.{entry_of};
ghost use Rattle.cfb_format.specs.Siblings.{entry_at, is_red_color};
ghost use Rattle.cfb_siblings.specs.Painted.{color_if_red};
ghost use Rattle.cfb_codecs.specs.EntryModel.{entries_of};
ghost use Rattle.cfb_siblings.specs.Taking.{vacated};
ghost use Rattle.cfb_siblings.specs.Way.{Frame, above, way};
ghost use Rattle.cfb_siblings.specs.Writes.{set_node, set_red, relinked, link_red, far_link, near_below, far_below};

use cfb_codecs::direntry::DirEntry;
use cfb_codecs::timestamp::Timestamp;
use cfb_format::color::Color;
use cfb_format::consts::NO_STREAM;
use cfb_format::objtype::ObjType;
use std::alloc::Allocator;
use uuid::Uuid;

/// One step on a way down: the node, and whether the way goes on to its left.
#[derive(Clone, Copy)]
pub(crate) struct PathStep {
    pub(crate) number: u32,
    pub(crate) left: bool,
}

fn is_red_color_of(color: Color) -> bool
    ensures { result ≡ is_red_color color }
{
    match color {
        Color::Red => true,
        Color::Black => false,
    }
}

fn color_if(red: bool) -> Color
    ensures { result ≡ color_if_red red }
{
    if red { Color::Red } else { Color::Black }
}

/// Whether a red entry stands at the link.
pub(crate) fn is_red<A: Allocator>(entries: &[DirEntry<A>], link: u32) -> bool
    ensures { result ≡ link_red (entries_of entries.now) link }
{
    (link as usize) < entries.len() && is_red_color_of(entries[link as usize].color)
}

/// Whether the entry is red.
pub(crate) fn is_red_entry<A: Allocator>(entries: &[DirEntry<A>], n: u32) -> bool
    requires { n < length entries.now }
    ensures { result ≡ is_red_color (entry_at (entries_of entries.now) n).color }
{
    is_red_color_of(entries[n as usize].color)
}

/// The links to the parts below the entry.
pub(crate) fn links<A: Allocator>(entries: &[DirEntry<A>], n: u32) -> (u32, u32)
    requires { n < length entries.now }
    ensures { result ≡ (
      (entry_at (entries_of entries.now) n).left_sibling,
      (entry_at (entries_of entries.now) n).right_sibling,
    ) }
{
    let entry = &entries[n as usize];
    (entry.left_sibling, entry.right_sibling)
}

/// The link to the part below the entry that a step does not go to.
pub(crate) fn far_side<A: Allocator>(entries: &[DirEntry<A>], step: PathStep) -> u32
    requires { step.number < length entries.now }
    ensures { result ≡ far_link (entries_of entries.now) step }
{
    let (left, right) = links(entries, step.number);
    if step.left { right } else { left }
}

/// The link to the part that takes the place of an entry with a missing part.
pub(crate) fn only_part<A: Allocator>(entries: &[DirEntry<A>], n: u32) -> u32
    requires { n < length entries.now }
    ensures { result ≡ cond ((entry_at (entries_of entries.now) n).right_sibling == NO_STREAM)
        (entry_at (entries_of entries.now) n).left_sibling
        (entry_at (entries_of entries.now) n).right_sibling }
{
    let (left, right) = links(entries, n);
    if right == NO_STREAM { left } else { right }
}

/// The links to the children of `s`, which stands beside where the step `p` leads: the one nearer
/// to that, and the farther one.
pub(crate) fn children_beside<A: Allocator>(
    entries: &[DirEntry<A>],
    p: PathStep,
    s: u32,
) -> (u32, u32)
    requires { s < length entries.now }
    ensures { result ≡ (
      near_below (entries_of entries.now) p s,
      far_below (entries_of entries.now) p s,
    ) }
{
    let (left, right) = links(entries, s);
    if p.left { (left, right) } else { (right, left) }
}

/// Gives the entry another colour.
pub(crate) fn paint<A: Allocator>(entries: &mut [DirEntry<A>], n: u32, red: bool)
    requires { n < length entries.old }
    ensures { entries_of entries.new ≡ set_red (entries_of entries.old) n red }
{
    entries[n as usize].color = color_if(red);
}

/// Makes the entry a node with these parts.
pub(crate) fn join<A: Allocator>(
    entries: &mut [DirEntry<A>],
    n: u32,
    left: u32,
    right: u32,
    red: bool,
)
    requires { n < length entries.old }
    ensures { entries_of entries.new ≡ set_node (entries_of entries.old) n left right red }
{
    let entry = &mut entries[n as usize];
    entry.left_sibling = left;
    entry.right_sibling = right;
    entry.color = color_if(red);
}

/// Changes the link above a place.
pub(crate) fn relink<A: Allocator>(
    entries: &mut [DirEntry<A>],
    parent: u32,
    above: Option<PathStep>,
    link: u32,
)
    requires parent_in { parent < length entries.old }
    requires above_in { MatchOption above (Unit {0}) (λ s. s.number < length entries.old) }
    ensures { entries_of entries.new ≡ relinked (entries_of entries.old) parent above link }
{
    match above {
        None => set_child(entries, parent, link),
        Some(step) => {
            if step.left {
                set_left(entries, step.number, link);
            } else {
                set_right(entries, step.number, link);
            }
        }
    }
}

fn set_child<A: Allocator>(entries: &mut [DirEntry<A>], n: u32, link: u32)
    requires { n < length entries.old }
    ensures { entries_of entries.new ≡ slice_set
        (entries_of entries.old) n (record (entry_at (entries_of entries.old) n) { child = link }) }
{
    entries[n as usize].child = link;
}

fn set_left<A: Allocator>(entries: &mut [DirEntry<A>], n: u32, link: u32)
    requires { n < length entries.old }
    ensures { entries_of entries.new ≡ slice_set (entries_of entries.old) n
        (record (entry_at (entries_of entries.old) n) { left_sibling = link }) }
{
    entries[n as usize].left_sibling = link;
}

fn set_right<A: Allocator>(entries: &mut [DirEntry<A>], n: u32, link: u32)
    requires { n < length entries.old }
    ensures { entries_of entries.new ≡ slice_set (entries_of entries.old) n
        (record (entry_at (entries_of entries.old) n) { right_sibling = link }) }
{
    entries[n as usize].right_sibling = link;
}

/// Moves the entry `m` to `n`, into its place in the tree, and frees the slot `m`.
pub(crate) fn vacate<A: Allocator>(entries: &mut [DirEntry<A>], n: u32, m: u32)
    requires n_in { n < length entries.old }
    requires m_in { m < length entries.old }
    ensures { entries_of entries.new ≡ vacated (entries_of entries.old) n m }
{
    let (left, right) = links(entries, n);
    let color = entries[n as usize].color;
    entries.swap(n as usize, m as usize);
    let moved = &mut entries[n as usize];
    moved.left_sibling = left;
    moved.right_sibling = right;
    moved.color = color;
    clear(&mut entries[m as usize]);
}

/// Makes the entry one that is not used.
fn clear<A: Allocator>(entry: &mut DirEntry<A>)
    ensures { entry_of entry.new ≡ unallocated_entry }
{
    entry.name.clear();
    entry.obj_type = ObjType::Unallocated;
    entry.color = Color::Red;
    entry.left_sibling = NO_STREAM;
    entry.right_sibling = NO_STREAM;
    entry.child = NO_STREAM;
    entry.clsid = Uuid::nil();
    entry.state_bits = 0;
    entry.creation_time = Timestamp::zero();
    entry.modified_time = Timestamp::zero();
    entry.start_sector = 0;
    entry.stream_len = 0;
}

/// The last step of a way.
pub(crate) fn last_step(path: &[PathStep]) -> Option<PathStep>
    ensures { (fs : List Frame) → path.now ≡ way fs → result ≡ above fs }
{
    path.last().copied()
}
