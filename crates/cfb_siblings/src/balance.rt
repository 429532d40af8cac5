//! What makes up for a black node that was taken out of a sibling tree, so that a tree in balance
//! stays so, and no red node comes to stand under a red one (MS-CFB 2.6.4).
//!
//! `x` is the link to what stands at the place that is short of one black node, `p` the node above
//! it, and `s` the other child of `p`. A red `x` becomes black, and the top may be short. A red `s`
//! goes above `p`. A red child of `s` gives its node away, by one rotation or two; where `s` has
//! none it becomes red, and `p` is short in place of `x`. So it is where there is no `s`, which
//! happens in trees out of balance alone.
ghost use Rattle.std.specs.Prelude.{◌≡◌, ℕ, ◌+◌, ◌*◌, ◌∷◌, ◌<◌, ◌≤◌, length, MatchOption, List, vec_len, vec_capacity, true, false};
ghost use Rattle.std.specs.Bool.{OnFalse};
ghost use Rattle.cfb_siblings.specs.Painted.{Painted};
ghost use Rattle.cfb_format.specs.DirectoryEntry.{Entry};
ghost use Rattle.cfb_codecs.specs.EntryModel.{entries_of};
ghost use Rattle.cfb_siblings.specs.Mending.{Edge, EvenedBy, HasEdge, Rose, Settled};
ghost use Rattle.cfb_siblings.specs.Taking.{HasSpot, Spot};
ghost use Rattle.cfb_siblings.specs.Altered.{Altered, AltersTo, Evens, Shifts};
ghost use Rattle.cfb_siblings.specs.Touched.{IsNear, Tells, TouchesChanged};
ghost use Rattle.cfb_siblings.specs.Way.{Frame, KeptOutside, plug, red_top};
ghost use Rattle.cfb_siblings.specs.Writes.{far_link, far_turned, link_red, near_turned};

use crate::links::{
    PathStep, children_beside, far_side, is_red, is_red_entry, join, last_step, links, paint,
    relink,
};
use crate::touched::{link_slot, note};
use cfb_codecs::direntry::DirEntry;
use cfb_format::consts::NO_STREAM;
use std::alloc::Allocator;

/// Rotates `p` towards `x`.
fn far_turn<A: Allocator>(
    entries: &mut [DirEntry<A>],
    p: PathStep,
    s: u32,
    x: u32,
    p_red: bool,
    s_red: bool,
)
    requires p_in { p.number < length entries.old }
    requires s_in { s < length entries.old }
    ensures { entries_of entries.new
        ≡ far_turned p.left (entries_of entries.old) p.number s x p_red s_red }
{
    let (left, right) = links(entries, s);
    if p.left {
        join(entries, p.number, x, left, p_red);
        join(entries, s, p.number, right, s_red);
    } else {
        join(entries, p.number, right, x, p_red);
        join(entries, s, left, p.number, s_red);
    }
}

/// Rotates `s` away from `x`, and then `p` towards `x`: `near`, the child of `s` that is nearer to
/// `x`, comes above both.
fn near_turn<A: Allocator>(
    entries: &mut [DirEntry<A>],
    p: PathStep,
    s: u32,
    x: u32,
    near: u32,
    red: bool,
)
    requires p_in { p.number < length entries.old }
    requires s_in { s < length entries.old }
    requires near_in { near < length entries.old }
    ensures { entries_of entries.new
        ≡ near_turned p.left (entries_of entries.old) p.number s x near red }
{
    let (s_left, s_right) = links(entries, s);
    let (left, right) = links(entries, near);
    if p.left {
        join(entries, p.number, x, left, false);
        join(entries, s, right, s_right, false);
        join(entries, near, p.number, s, red);
    } else {
        join(entries, p.number, right, x, false);
        join(entries, s, s_left, left, false);
        join(entries, near, s, p.number, red);
    }
}

/// Makes up for a missing black node at `x` by what stands below the other child of `p`, where it
/// has a red child; where it has none, that child becomes red, and `p` is short: then it answers
/// `false`.
fn even<A: Allocator>(
    entries: &mut [DirEntry<A>],
    parent: u32,
    above: Option<PathStep>,
    p: PathStep,
    x: u32,
    touched: &mut Vec<u32, A>,
) -> bool
    requires few { length (entries_of entries.old) ≤ NO_STREAM }
    requires stands { HasEdge (entries_of entries.old) parent p x above }
    requires room { vec_len touched.old + 4 ≤ vec_capacity touched.old }
    ensures evened { (f : Frame) (gs : List Frame) (t : Painted)
        → Edge (entries_of entries.old) parent p x above f gs t
        → KeptOutside (entries_of entries.old) (entries_of entries.new) parent (plug (f ∷ gs) t)
        × EvenedBy result (entries_of entries.new) parent f gs t }
    ensures told { (f : Frame) (gs : List Frame) (t : Painted)
        → Edge (entries_of entries.old) parent p x above f gs t
        → Tells (IsNear parent (plug (f ∷ gs) t))
        (entries_of entries.old) (entries_of entries.new) touched.old.items touched.new.items }
    ensures evens { (f : Frame) (gs : List Frame) (t : Painted)
        → Edge (entries_of entries.old) parent p x above f gs t
        → Evens result (entries_of entries.old) (entries_of entries.new)
        parent f gs touched.old.items touched.new.items }
    ensures len { vec_len touched.new ≤ vec_len touched.old + 4 }
    ensures one { OnFalse result (vec_len touched.new ≤ vec_len touched.old + 1) }
    ensures capacity { vec_capacity touched.old ≤ vec_capacity touched.new }
{
    let s = far_side(entries, p);
    if s == NO_STREAM {
        return false;
    }
    let (near, far) = children_beside(entries, p, s);
    let red = is_red_entry(entries, p.number);
    if is_red(entries, far) {
        far_turn(entries, p, s, x, false, red);
        relink(entries, parent, above, s);
        paint(entries, far, false);
        note(touched, p.number);
        note(touched, s);
        note(touched, link_slot(parent, above));
        note(touched, far);
        return true;
    }
    if is_red(entries, near) {
        near_turn(entries, p, s, x, near, red);
        relink(entries, parent, above, near);
        note(touched, p.number);
        note(touched, s);
        note(touched, near);
        note(touched, link_slot(parent, above));
        return true;
    }
    if !is_red_entry(entries, s) {
        paint(entries, s, true);
        note(touched, s);
    }
    false
}

/// The other child `s` of `p` is red: it goes above `p`, black, and what stands beside `x` then
/// makes up for the missing black node, or `p` does, which is red now.
fn lower<A: Allocator>(
    entries: &mut [DirEntry<A>],
    parent: u32,
    above: Option<PathStep>,
    p: PathStep,
    x: u32,
    s: u32,
    touched: &mut Vec<u32, A>,
)
    requires few { length (entries_of entries.old) ≤ NO_STREAM }
    requires stands { HasEdge (entries_of entries.old) parent p x above }
    requires s_is { s ≡ far_link (entries_of entries.old) p }
    requires s_red { link_red (entries_of entries.old) s ≡ true }
    requires room { vec_len touched.old + 8 ≤ vec_capacity touched.old }
    ensures settled { (f : Frame) (gs : List Frame) (t : Painted)
        → Edge (entries_of entries.old) parent p x above f gs t → red_top t ≡ false
        → KeptOutside (entries_of entries.old) (entries_of entries.new) parent (plug (f ∷ gs) t)
        × Settled (entries_of entries.new) parent (f ∷ gs) t }
    ensures told { (f : Frame) (gs : List Frame) (t : Painted)
        → Edge (entries_of entries.old) parent p x above f gs t
        → Tells (IsNear parent (plug (f ∷ gs) t))
        (entries_of entries.old) (entries_of entries.new) touched.old.items touched.new.items }
    ensures shifts { (f : Frame) (gs : List Frame) (t : Painted)
        → Edge (entries_of entries.old) parent p x above f gs t
        → Shifts (entries_of entries.old) (entries_of entries.new)
        parent f gs touched.old.items touched.new.items }
    ensures len { vec_len touched.new ≤ vec_len touched.old + 7 }
    ensures capacity { vec_capacity touched.old ≤ vec_capacity touched.new }
{
    let below = PathStep {
        number: s,
        left: p.left,
    };
    far_turn(entries, p, s, x, true, false);
    relink(entries, parent, above, s);
    note(touched, p.number);
    note(touched, s);
    note(touched, link_slot(parent, above));
    if !even(entries, parent, Some(below), p, x, touched) {
        paint(entries, p.number, false);
        note(touched, p.number);
    }
}

/// One step of the repair above the short place `x`: the node that is short next, if any.
fn rise<A: Allocator>(
    entries: &mut [DirEntry<A>],
    parent: u32,
    path: &mut Vec<PathStep, A>,
    x: u32,
    touched: &mut Vec<u32, A>,
) -> Option<u32>
    requires few { length (entries_of entries.old) ≤ NO_STREAM }
    requires stands { HasSpot (entries_of entries.old) parent path.old.items x }
    requires room { vec_len touched.old + 8 ≤ vec_capacity touched.old }
    ensures rose { (fs : List Frame) (t : Painted)
        → Spot (entries_of entries.old) parent path.old.items x fs t → Rose
        (entries_of entries.old) (entries_of entries.new) parent path.new.items result fs t }
    ensures shorter { MatchOption result (Unit {0}) (λ _. vec_len path.new < vec_len path.old) }
    ensures told { (fs : List Frame) (t : Painted)
        → Spot (entries_of entries.old) parent path.old.items x fs t
        → Tells (IsNear parent (plug fs t))
        (entries_of entries.old) (entries_of entries.new) touched.old.items touched.new.items }
    ensures alters { (first : List Entry) (fs : List Frame) (t : Painted)
        → Spot (entries_of entries.old) parent path.old.items x fs t
        → Altered first (entries_of entries.old) parent touched.old.items fs t
        → AltersTo first (entries_of entries.new)
        parent path.new.items result touched.new.items }
    ensures few { MatchOption result
        (vec_len touched.new + vec_len path.new ≤ vec_len touched.old + vec_len path.old + 6)
        (λ _. vec_len touched.new + vec_len path.new ≤ vec_len touched.old + vec_len path.old) }
    ensures capacity { vec_capacity touched.old ≤ vec_capacity touched.new }
{
    if is_red(entries, x) {
        paint(entries, x, false);
        note(touched, x);
        return None;
    }
    let Some(p) = path.pop() else {
        return None;
    };
    let above = last_step(path);
    let s = far_side(entries, p);
    if is_red(entries, s) {
        lower(entries, parent, above, p, x, s, touched);
        return None;
    }
    if even(entries, parent, above, p, x, touched) {
        return None;
    }
    Some(p.number)
}

/// Makes up for a missing black node at `x`, at the end of the path.
pub(crate) fn restore<A: Allocator>(
    entries: &mut [DirEntry<A>],
    parent: u32,
    path: &mut Vec<PathStep, A>,
    x: u32,
    touched: &mut Vec<u32, A>,
)
    requires few { length (entries_of entries.old) ≤ NO_STREAM }
    requires stands { HasSpot (entries_of entries.old) parent path.old.items x }
    requires room { vec_len touched.old + (8 * vec_len path.old + 8) ≤ vec_capacity touched.old }
    ensures settled { (fs : List Frame) (t : Painted)
        → Spot (entries_of entries.old) parent path.old.items x fs t
        → KeptOutside (entries_of entries.old) (entries_of entries.new) parent (plug fs t)
        × Settled (entries_of entries.new) parent fs t }
    ensures told { (fs : List Frame) (t : Painted)
        → Spot (entries_of entries.old) parent path.old.items x fs t
        → Tells (IsNear parent (plug fs t))
        (entries_of entries.old) (entries_of entries.new) touched.old.items touched.new.items }
    ensures changed { (first : List Entry) (fs : List Frame) (t : Painted)
        → Spot (entries_of entries.old) parent path.old.items x fs t
        → Altered first (entries_of entries.old) parent touched.old.items fs t
        → TouchesChanged first (entries_of entries.new) touched.new.items }
    ensures few { vec_len touched.new ≤ vec_len touched.old + vec_len path.old + 6 }
{
    let mut node = x;
    while let Some(next) = rise(entries, parent, path, node, touched) {
        node = next;
    }
}
