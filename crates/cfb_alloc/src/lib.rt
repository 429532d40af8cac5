//! The allocator: the tables over the sectors of a medium (MS-CFB 2.3 and 2.5).
#![tactic(auto)]

pub mod alloc;
pub mod laws;
pub mod seeking;

// What crates above name of those below.
pub use cfb_table_words::run::{run_from, run_of};
pub use cfb_table_words::stretch::stretch_at;
pub use cfb_tables::consecutive::count_consecutive;
pub use cfb_tables::ends::{first_number, last_number};
pub use cfb_tables::fat::{are_padding, used_past_end};
