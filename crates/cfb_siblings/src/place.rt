//! Places for new entries among the children of a storage.
ghost use Rattle.std.specs.Prelude.{◌≡◌, ◌+◌, ◌*◌, ◌≤◌, [], vec_len, vec_capacity};

use crate::links::PathStep;
use std::alloc::Allocator;

/// Where a new child joins the children of a storage, with all the memory that putting it there
/// asks for.
#[derive(Drop)]
pub struct Place<A: Allocator> {
    /// The steps of the way down to the place.
    pub(crate) path: Vec<PathStep, A>,
    /// An empty list for the slots that a change along this way touches.
    pub(crate) touched: Vec<u32, A>,
    ghost none: { touched.items ≡ [] },
    ghost room: { vec_len touched + (8 * vec_len path + 16) ≤ vec_capacity touched },
}
