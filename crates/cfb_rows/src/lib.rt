//! What interpreters of rows stand on: lines and their words, answers, contents, faults, the medium, and the judge, who compares.
#![tactic(auto)]

pub mod answers;
pub mod content;
pub mod faults;
pub mod forms;
pub mod images;
pub mod judge;
pub mod lines;
pub mod media;
pub mod unfolding;
