//! Chains of mini sectors as lists of bytes (MS-CFB 2.4).
#![tactic(auto)]

pub mod mini_chain;
