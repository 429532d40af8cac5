//! Tests of `cfb_outline`, `cfb_entries` and `cfb_copy_sizes`, in a crate beside them: a crate with tests of its own is proved twice.
#![tactic(auto)]

#[cfg(test)]
mod changed;
#[cfg(test)]
mod changes;
#[cfg(test)]
mod checked;
#[cfg(test)]
mod directories;
#[cfg(test)]
mod outlines;
#[cfg(test)]
mod removals;
#[cfg(test)]
mod sizes;
#[cfg(test)]
mod texts;
