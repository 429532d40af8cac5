//! Plays the lines of a row on a compound file, and on its streams.
//!
//! What plays them on a stream stands on a trait whose calls promise nothing, so that few functions here meet the contracts of the files.
#![tactic(auto)]

pub mod calls;
mod changes;
mod contents;
mod served;
mod streams;
mod told;
