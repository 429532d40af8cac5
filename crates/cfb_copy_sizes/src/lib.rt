//! What the objects of a directory need of a file that has them and nothing else: whether that is
//! more than the format gives, which a copy knows before it writes.
#![tactic(auto)]

pub mod cut;
pub mod laws;
pub mod needs;
