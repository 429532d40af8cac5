//! Tests of std's traits over streams of files in memory: what is read, written, sought and copied, what is refused, and as which
//! kind.
#![tactic(auto)]

pub mod copies;
#[cfg(test)]
mod files;
#[cfg(test)]
mod kinds;
#[cfg(test)]
mod reading;
#[cfg(test)]
mod refusals;
#[cfg(test)]
mod streams;
#[cfg(test)]
mod writing;
