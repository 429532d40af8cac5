//! Whether a compound file is sound: no sector has two uses, no loose end can come alive, and every stream is whole. And the
//! laws of where the bytes of streams lie.
#![tactic(auto)]

pub mod laws;
mod marks;
pub mod parts;
mod pieces;
pub mod soundness;
mod streams;
