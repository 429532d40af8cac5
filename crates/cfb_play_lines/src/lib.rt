//! What plays the lines of a row without a file: the values that lines say, and what is told of an object.
#![tactic(auto)]

pub mod objects;
pub mod values;
