//! The format of compound files (MS-CFB 2.1 to 2.6): what bytes mean, the media that hold them,
//! and the errors of all layers.
#![tactic(auto)]

pub mod bytes;
pub mod color;
pub mod consts;
pub mod error;
pub mod header;
pub mod laws;
pub mod medium;
pub mod memory;
pub mod objtype;
pub mod transfer;
pub mod validate;
pub mod version;
