//! What is told of the objects of a compound file, and in which order.
#![tactic(auto)]

pub mod entries;
pub mod entry;
pub mod laws;
mod links;
pub mod listing;
