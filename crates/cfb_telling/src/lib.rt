//! All that a file says, compared with what another one says: its copy, and one in which a byte was changed.
#![tactic(auto)]

pub mod copies;
pub mod mutations;
mod telling;
