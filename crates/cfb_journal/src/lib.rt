//! Changes of a compound file that are all or nothing, whatever the disk does: a journal beside it.
#![tactic(auto)]

pub mod disk;
mod frames;
mod laying;
pub mod looking;
pub mod medium;
mod overlay;
mod pieces;
pub mod recovery;
mod stages;
mod stamps;
pub mod transaction;
