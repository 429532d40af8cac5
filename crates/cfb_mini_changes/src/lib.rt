//! How mini chains become longer and shorter (MS-CFB 2.4), over the directory and the MiniFAT of a file.
#![tactic(auto)]

pub mod changing;

// What crates above name of those below.
pub use cfb_mini_sectors::giving::{Needs, can_give_back, needs_for};
pub use cfb_mini_sectors::growing::{Lacks, lacks_for};
pub use cfb_mini_sectors::pieces::{are_known_minis, read_piece, write_piece};
pub use cfb_mini_sectors::{Directory, Fields, MiniTable, least_above};
