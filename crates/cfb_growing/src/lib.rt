//! Streams that grow as far as there are numbers, and bytes that are put inside them or behind their end (MS-CFB 2.3 and 2.4).
#![tactic(auto)]

mod appending;
pub mod growing;
pub mod putting;

// What crates above name of those below.
pub use cfb_access::reading::{read_content, readable_len};
pub use cfb_access::{Fields, MiniAllocator};
pub use cfb_resizing::resizing::{can_resize, resize_content};
