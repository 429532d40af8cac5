//! A plain tree of storages and streams, and the calls on it, as numbers that a seed determines draw them: what each call makes of the tree,
//! and how it is refused, by the rules of calls by path. It knows no file.
#![tactic(auto)]

pub mod calls;
pub mod names;
pub mod numbers;
pub mod tree;
pub mod works;
