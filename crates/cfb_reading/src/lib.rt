//! The parts of a compound file, read off its medium exactly as opening accepts them (MS-CFB 2.2 to 2.6).
#![tactic(auto)]

pub mod difat;
pub mod fat_words;
pub mod laws;
mod marks;
pub mod minifat;
pub mod raw_fat;
pub mod slots;
mod whole_sectors;
