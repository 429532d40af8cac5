//! The entries of a directory in memory (MS-CFB 2.6): opened, looked up in, inserted into and removed from, with the free
//! slots at hand. Nothing here knows of a medium.
#![tactic(auto)]

mod changes;
mod clearing;
pub mod entries;
pub mod fields;
mod free;
pub mod fresh;
mod indexing;
pub mod insertion;
pub mod laws;
mod names;
