//! Random lists of commands on files in memory, each reply compared with that of a plain tree.
#![tactic(auto)]

mod asked;
mod commands;
pub mod lists;
mod replies;
