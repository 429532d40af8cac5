//! Vectors of the codecs, printed texts, tests of the media, files among them, and of the calls that take memory, and
//! whole reads and writes at media in memory.
#![tactic(auto)]

#[cfg(test)]
mod bytes;
#[cfg(test)]
mod checked;
#[cfg(test)]
mod dates;
#[cfg(test)]
mod entries;
#[cfg(test)]
mod files;
#[cfg(test)]
mod media;
#[cfg(test)]
mod moments;
#[cfg(test)]
mod names;
#[cfg(test)]
mod refusals;
#[cfg(test)]
mod shown;
#[cfg(test)]
mod texts;
#[cfg(test)]
mod whole;
