//! What the entries of a directory make of the tree of objects that the rules of calls speak of.
#![tactic(auto)]

pub mod laws;
