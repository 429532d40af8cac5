//! The content of one stream, read where it stands, be the file sound or not, and written over inside its length (MS-CFB 2.3 and 2.4).
#![tactic(auto)]

pub mod reading;
pub mod writing;

// What crates above name of those below.
pub use cfb_content::in_minis::whole_mini_chain;
pub use cfb_content::in_sectors::grow_listed_with;
pub use cfb_content::listed::{content_in, open_whole_chain, whole_chain_len};
pub use cfb_content::{Fields, MiniAllocator};
