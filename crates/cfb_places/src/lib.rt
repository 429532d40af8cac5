//! The objects of a directory in the order of a walk, by the numbers of their entries: what a copy
//! of all objects goes by.
#![tactic(auto)]

pub mod laws;
pub mod walk;
