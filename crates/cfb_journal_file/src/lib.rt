//! A compound file and its journal beside it, as files of the system.
#![tactic(auto)]

pub mod disk;
pub mod lent;
pub mod place;
