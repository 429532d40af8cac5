//! The words of the program `cfbtool` over files of the system. They are listed at `tool`.
#![tactic(auto)]

pub mod descriptors;
pub mod help;
mod lent;
pub mod options;
pub mod output;
pub mod refusal;
mod shown;
pub mod system;
pub mod words;
