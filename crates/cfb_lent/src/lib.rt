//! Bytes that are lent to a file as long as nothing changes them.
#![tactic(auto)]

pub mod lent;
