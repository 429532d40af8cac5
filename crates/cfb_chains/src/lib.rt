//! Chains of sectors over a medium, as lists of bytes (MS-CFB 2.3).
#![tactic(auto)]

pub mod chain;
