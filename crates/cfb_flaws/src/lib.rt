//! Why a compound file is not sound, and what each of its sectors is used for.
#![tactic(auto)]

mod claims;
pub mod flaw;
pub mod flaws;
mod known;
pub mod owner;
pub mod owners;
mod past;
mod reach;
mod searches;
mod shared;
mod starts;
mod streams;
mod tables;
