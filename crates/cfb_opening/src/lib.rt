//! Opening a compound file: bytes are accepted exactly as the format wants it, and memory then holds what they say.
#![tactic(auto)]

pub mod flaws;
mod head;
mod minis;
pub mod opening;
mod parts;
mod soundness;
mod streams;
mod tables;
