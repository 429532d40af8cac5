//! Laws of growth. This function does nothing: it has the laws as its contract.
ghost use Rattle.cfb_entries.specs.Insertions.{InsertionsStay, ReachedStay};

use std::alloc::Allocator;

/// What an insertion needs stays good as the directory grows, and a storage that is reached stays one.
pub fn growth_keeps_insertions<A: Allocator>()
    ensures insertions { InsertionsStay A }
    ensures reached { ReachedStay }
{}
