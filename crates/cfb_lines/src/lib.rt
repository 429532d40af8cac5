//! Commands on a compound file, written as lines of text.
#![tactic(auto)]

mod error;
mod fields;
mod hex;
pub mod laws;
pub mod lines;
mod numbers;
pub mod word;
pub mod writing;

pub use error::{LineError, LinesError, WrongLine};
