//! Making an empty compound file on an empty medium, with memory that is what its bytes say.
#![tactic(auto)]

mod created;
pub mod creating;
mod kept;

// What crates above name of those below.
pub use cfb_mini_sectors::Fields;
