//! Bytes along a list of sectors: those of sectors that follow each other in the file are read and written by one call of the medium
//! (MS-CFB 2.3).
#![tactic(auto)]

pub mod reading;
pub mod run;
pub mod writing;

// What crates above name of those below.
pub use cfb_alloc::alloc::Allocator;
pub use cfb_alloc::{count_consecutive, first_number};
