//! A medium as sectors (MS-CFB 2.1).
#![tactic(auto)]

pub mod sector;
