//! What is told of streams that cannot be read to their ends.
use std::alloc::{Allocator as Heap, Global};

/// A stream that cannot be read to its end.
#[derive(Debug, Drop)]
pub struct Cut<A: Heap = Global> {
    /// The names that lead to it from the storage that was asked for, each behind a `/`.
    pub path: String<A>,
    /// How many of its bytes can be read, from the first one on.
    pub got: u64,
    /// Its length.
    pub len: u64,
}
