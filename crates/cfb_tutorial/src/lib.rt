//! The code of docs/TUTORIAL.md: each block of the document stands here word for word.
#![tactic(auto)]

pub mod cases;
pub mod changing;
pub mod damaged;
pub mod errors;
pub mod medium;
pub mod memory;
pub mod reading;
pub mod writing;
