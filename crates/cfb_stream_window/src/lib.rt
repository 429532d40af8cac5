//! Streams that are read and written through a buffer: for every buffer limit they are the rules'
//! list of bytes with a position.
#![tactic(auto)]

mod pieces;
pub mod read_window;
pub mod window;
