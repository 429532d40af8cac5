//! Bytes that are appended to a medium are held in memory, and reach it by few writes.
#![tactic(auto)]

pub mod buffer;
