//! Plays lists of commands, each a line, on a compound file.
#![tactic(auto)]

pub mod lists;
