//! The slots of a directory in the chain of its sectors: where they lie, and how entries are written to them, each by one write (MS-CFB 2.6).
#![tactic(auto)]

pub mod bounds;
pub mod laws;
pub mod slots;
