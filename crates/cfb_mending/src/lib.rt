//! A file that was cut short, read as if what is missing were blank.
#![tactic(auto)]

mod bounds;
mod loaded;
pub mod mending;
pub mod patches;
mod scan;
mod tables;
