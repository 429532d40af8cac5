//! What a file keeps in memory, when that is what its bytes say, and what follows from it.
#![tactic(auto)]

pub mod laws;

// What crates above name of those below.
pub use cfb_content::{Directory, MiniAllocator};
