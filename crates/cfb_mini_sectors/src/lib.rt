//! What the bytes of a file hold of its mini sectors (MS-CFB 2.4), how words of the MiniFAT and mini sectors are written at their places, and
//! how the MiniFAT and the mini stream get sectors and give them back.
#![tactic(auto)]

pub mod giving;
pub mod growing;
pub mod laws;
pub mod pieces;

// What crates above name of those below.
pub use cfb_directory::directory::Directory;
pub use cfb_directory::{Fields, fresh_entries, least_above};
pub use cfb_mini_table::first_number;
pub use cfb_mini_table::mini_table::MiniTable;
