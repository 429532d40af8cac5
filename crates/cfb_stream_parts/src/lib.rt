//! Parts of streams that are written, and lengths that are changed, each by one call.
#![tactic(auto)]

pub mod parts;
