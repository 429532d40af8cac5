//! All streams of a compound file as files in a folder, under names that stay in it.
#![tactic(auto)]

pub mod cut;
pub mod error;
pub mod extracting;
pub mod folder;
pub mod memory;
mod naming;
mod objects;
pub mod source;
pub mod system;
