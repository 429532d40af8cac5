//! Streams that are read, written and copied whole, each by one call: [`read_stream`], [`write_stream`], [`copy_stream`].
#![tactic(auto)]

pub mod content;
pub mod copying;
