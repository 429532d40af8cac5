//! What keeps a file sound while its tables and its streams change: laws alone.
#![tactic(auto)]

pub mod laws;

// What crates above name of those below.
pub use cfb_alloc::alloc::Allocator;
