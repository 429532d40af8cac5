//! The objects of a compound file as text for people and programs: lines, rows of all fields, a table and a tree. The crate `cfb`
//! re-exports [`to_iso`]; everything else is internal, for the program `cfbtool`.
#![tactic(auto)]

mod entry_fields;
pub mod laws;
pub mod lines;
pub mod moments;
mod plain;
mod rows;
pub mod table;
mod trail;
pub mod tree;
pub mod write_error;
