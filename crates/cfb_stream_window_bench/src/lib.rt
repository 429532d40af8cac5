//! Tests of `cfb_stream_window`: a crate beside it, because `rt ci` proves the tests of one crate in one job.
#![tactic(auto)]

#[cfg(test)]
mod calls;
#[cfg(test)]
mod lent;
#[cfg(test)]
mod memory;
#[cfg(test)]
mod odd;
#[cfg(test)]
mod play;
#[cfg(test)]
mod refusals;
#[cfg(test)]
mod room;
#[cfg(test)]
mod scripts;
