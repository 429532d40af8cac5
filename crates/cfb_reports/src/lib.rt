//! Texts of what the sectors of a file are used for, and of why it is not sound.
#![tactic(auto)]

pub mod laws;
pub mod mapping;
pub mod names;
mod reasons;
pub mod report;
pub mod runs;
