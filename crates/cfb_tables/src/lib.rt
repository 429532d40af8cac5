//! The tables of chains in memory (MS-CFB 2.3 and 2.5).
#![tactic(auto)]

pub mod consecutive;
pub mod ends;
pub mod fat;
pub mod free;
pub mod laws;
mod lists;
mod spare;
pub mod tables;
pub mod walk;
