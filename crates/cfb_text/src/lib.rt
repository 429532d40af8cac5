//! Names and paths as they are shown to people, and as names of files of the system.
#![tactic(auto)]

pub mod host;
pub mod laws;
pub mod meant;
pub mod shown;
mod text;
