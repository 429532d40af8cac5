//! Mini sectors (MS-CFB 2.4): the MiniFAT and the mini stream over the directory of a file.
#![tactic(auto)]

pub mod mini_allocator;
pub mod mini_runs;
mod opening;

// What crates above name of those below.
pub use cfb_mini_changes::{
    Directory, Fields, Needs, are_known_minis, can_give_back, lacks_for, needs_for,
};
