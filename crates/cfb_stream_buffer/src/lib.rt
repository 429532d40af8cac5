//! What buffered streams stand on: contents by number, that are read and written, and a buffer over a
//! piece of them.
#![tactic(auto)]

pub mod buffer;
pub mod content;
pub mod whole;
