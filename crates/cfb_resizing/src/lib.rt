//! Another length for the contents of streams (MS-CFB 2.3, 2.4 and 2.6.3): made longer or shorter where they lie, and moved across 4096
//! bytes both ways.
#![tactic(auto)]

mod in_place;
pub mod moving;
pub mod resizing;
pub mod room;
