//! Media over what std has: bytes that are lent, and anything that is read and sought.
#![tactic(auto)]

pub mod seek;
pub mod slice;
