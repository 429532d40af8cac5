//! The objects below a storage in the order of a walk, by the numbers of their entries.
#![tactic(auto)]

pub mod walk;
