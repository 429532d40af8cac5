//! Compound files: opened and made, looked at, and their streams made, read and written. The crate `cfb` re-exports what programs use:
//! [`CompoundFile`], [`OpenOptions`], [`Stream`], [`ReadStream`], [`Salvaged`]. Everything else here is internal.
#![tactic(auto)]

pub mod adding;
pub mod changes;
pub mod compound_file;
pub mod contents;
pub mod copying;
pub mod files;
pub mod flaws;
pub mod flushing;
pub mod held;
pub mod numbered;
pub mod opening_streams;
pub mod options;
pub mod queries;
pub mod read_stream;
pub mod salvaging;
pub mod std_read_stream;
pub mod std_stream;
pub mod stream;
