//! Commands on a compound file whose changes are all or nothing, whatever the disk does. Internal: the crate `cfb` does not re-export it.
//! Programs use [`open_journaled`], [`run`] and [`CompoundFile::flush`].
#![tactic(auto)]

pub mod running;
