//! The words of a run. What is written is brought to the disk, unless an option behind the first word or
//! the environment says otherwise.
ghost use Rattle.std.specs.Prelude.{◌≤◌, IsTrue, length};

use crate::refusal::Refusal;
use cfb::Error;
use cfb_tool::word::{Word, word_by};
use std::alloc::Global;
use std::env;
use std::env::VarError;

/// The option that says that nothing is brought to the disk.
const NO_SYNC: &str = "--no-sync";

/// The variable that says the same of each run where it is `off`.
const VARIABLE: &str = "CFBTOOL_SYNC";

/// Whether a word writes a compound file.
fn is_writing(word: &str) -> bool {
    match word_by(word) {
        Some(
            Word::Create
            | Word::Put
            | Word::Changing(_)
            | Word::Run
            | Word::Compact
            | Word::Salvage,
        ) => true,
        _ => false,
    }
}

/// These words without the option, if it stands right behind a word that writes.
pub(crate) fn without_option(
    alloc: Global,
    words: &[String],
) -> Result<Option<Vec<String>>, Refusal> {
    let [call, option, rest @ ..] = words else {
        return Ok(None);
    };
    if option.as_str() != NO_SYNC || !is_writing(call) {
        return Ok(None);
    }
    let mut others = Vec::new(alloc);
    others.push(String::from_str(alloc, call)?)?;
    for word in rest {
        others.push(String::from_str(alloc, word)?)?;
    }
    Ok(Some(others))
}

/// The words of this run, with the option if the environment says so and they have none.
///
/// # Errors
///
/// `Memory`.
pub fn words_of(rt: &HostRuntime) -> Result<Vec<String>, Refusal> {
    let words = match env::args(rt) {
        Ok(all) => all.skip(1).collect(rt.alloc())?,
        Err(_) => Vec::new(rt.alloc()),
    };
    match env::var(rt, VARIABLE) {
        Ok(value) if value.as_str() == "off" => with_option(rt.alloc(), words),
        Err(VarError::OutOfMemory) => Err(Refusal::Of(Error::Memory)),
        _ => Ok(words),
    }
}

fn with_option(alloc: Global, words: Vec<String>) -> Result<Vec<String>, Refusal> {
    let mut words = words;
    if has_place(&words) {
        words.insert(1, String::from_str(alloc, NO_SYNC)?)?;
    }
    Ok(words)
}

/// Whether the first of these words is one that writes, with no option behind it.
fn has_place(words: &[String]) -> bool
    ensures { IsTrue result → 1 ≤ length words.now }
{
    match words {
        [_, option, ..] if option.as_str() == NO_SYNC => false,
        [call, ..] => is_writing(call),
        [] => false,
    }
}
