//! The contents of streams (MS-CFB 2.3, 2.4 and 2.6.3): laws of how one changes while the others stay; their chains, listed; pieces along
//! these read, put and made zeros.
#![tactic(auto)]

pub mod in_minis;
pub mod in_sectors;
pub mod laws;
pub mod listed;

// What crates above name of those below.
pub use cfb_mini::mini_allocator::MiniAllocator;
pub use cfb_mini::{
    Directory, Fields, Needs, are_known_minis, can_give_back, lacks_for, needs_for,
};
pub use cfb_sound_changes::Allocator;
