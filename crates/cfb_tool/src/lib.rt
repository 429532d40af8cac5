//! What the program `cfbtool` does with a compound file, on any medium, and what its words ask for.
#![tactic(auto)]

pub mod asking;
pub mod cuts;
pub mod dump_error;
pub mod dumping;
pub mod explaining;
pub mod laws;
pub mod listing;
pub mod playing;
mod replies;
pub mod reports;
pub mod soundness;
pub mod tree;
pub mod word;
