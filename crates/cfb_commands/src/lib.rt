//! Lists of commands on a compound file: each is a call by its name and arguments, or what is done with one stream from its opening to its
//! closing, and is answered by one reply. Start at [`Command`] and [`run`]. The names that it passes on from the crates below are internal.
#![tactic(auto)]

pub mod command;
pub mod laws;
mod queries;
pub mod run;
mod streams;

// What crates above name of those below.
pub use cfb_compound_file::compound_file::CompoundFile;
pub use cfb_compound_file::stream::Stream;
