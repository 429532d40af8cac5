//! Media for tests: they serve single bytes, fail, stick or count their calls; an allocator
//! that refuses requests; and bytes that tell where they stand.
#![tactic(auto)]

pub mod bytes;
pub mod media;
pub mod refusing;
