//! The tables of a file as its bytes hold them, and what has changed in them written to the sectors that hold them
//! (MS-CFB 2.2, 2.3 and 2.5).
#![tactic(auto)]

pub mod agreement;
pub mod filling;
pub mod run;
pub mod stretch;
pub mod writing;

// What crates above name of those below.
pub use cfb_sectors::sector::{SectorInit, Sectors};
