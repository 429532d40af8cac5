//! What changes of a directory's entries make of the tree of its storages and streams.
#![tactic(auto)]

pub mod children;
pub mod laws;
pub mod paths;
