//! The MiniFAT in memory: which mini sector comes after which, and which are free (MS-CFB 2.4).
#![tactic(auto)]

pub mod laws;
pub mod mini_table;
mod words;

// What crates above name of those below.
pub use cfb_tables::consecutive::count_consecutive;
pub use cfb_tables::ends::{first_number, last_number};
