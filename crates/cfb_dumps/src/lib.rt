//! Objects of a compound file as lines of `run` that make them.
#![tactic(auto)]

pub mod laws;
pub mod naming;
pub mod objects;
