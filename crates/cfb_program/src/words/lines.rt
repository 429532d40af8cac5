//! One change without `run`, and `run -e`: what lines and words of a run ask for, and how they are
//! explained.
use super::changes::read_input;
use crate::output::Output;
use crate::refusal::Refusal;
use crate::shown::Shown;
use cfb::{Command, Error, Opening, StreamOp};
use cfb_lines::lines::{command_of_words, commands_in, comment_count};
use cfb_lines::word::{Word, word_of};
use cfb_lines::{LineError, LinesError};
use cfb_text::meant::meant;
use cfb_tool::word::Change;
use std::alloc::Global;
use std::io;
use std::io::{Read, SeekFrom};

/// A word that makes one change, PATH, and what stands behind it.
pub(super) type One<'a> = (Change, &'a str, Option<&'a str>);

/// The command that makes this change. `input` is standard input, which `add` reads.
pub(super) fn command_of<R: Read>(
    alloc: Global,
    one: One<'_>,
    input: &mut R,
) -> Result<Command, Refusal> {
    let (change, path, by) = one;
    match (change, word_of(change.text()), by) {
        (Change::Add, _, None) => addition(alloc, path, read_input(alloc, input)?),
        (Change::Add, ..) | (_, None, _) => Err(Refusal::WrongWords),
        (_, Some(word), _) => command_by(alloc, word, path, by),
    }
}

fn command_by(alloc: Global, word: Word, path: &str, by: Option<&str>) -> Result<Command, Refusal> {
    match command_of_words(&alloc, word, path, by) {
        Ok(command) => Ok(command),
        Err(LineError::Wrong(_)) => Err(Refusal::WrongWords),
        Err(LineError::Memory) => Err(Refusal::Of(Error::Memory)),
    }
}

/// The command that writes these bytes behind the end of a stream.
fn addition(alloc: Global, path: &str, bytes: Vec<u8>) -> Result<Command, Refusal> {
    let path = meant(alloc, path)?;
    let ops = vec![in alloc; StreamOp::Seek(SeekFrom::End(0)), StreamOp::Write(bytes)]?;
    Ok(Command::Stream(Opening::Open, path, ops))
}

/// The commands of a text, one a line.
pub(super) fn commands_of(alloc: Global, text: &[u8]) -> Result<Vec<Command>, Refusal> {
    match commands_in(alloc, text) {
        Ok(commands) => Ok(commands),
        Err(LinesError::WrongWords(..)) => Err(Refusal::WrongWords),
        Err(LinesError::Memory) => Err(Refusal::Of(Error::Memory)),
    }
}

/// The same. What is wrong with a line is told.
pub(super) fn explained_commands_of<E: Output>(
    alloc: Global,
    text: &[u8],
    faults: &mut E,
) -> Result<Vec<Command>, Refusal> {
    match commands_in(alloc, text) {
        Ok(commands) => Ok(commands),
        Err(LinesError::WrongWords(number, why)) => {
            let _ = writeln!(faults, "cfbtool: wrong words");
            let _ = writeln!(faults, "cfbtool: line {number}: {why}");
            Err(Refusal::ToldWrong)
        }
        Err(LinesError::Memory) => Err(Refusal::Of(Error::Memory)),
    }
}

/// Tells why commands were refused, each with the place of its line.
pub(super) fn explain<E: Output>(
    text: &[u8],
    refusals: &[(usize, Error)],
    faults: &mut E,
) -> io::Result<()> {
    let comments = comment_count(text);
    let mut rest = refusals;
    for (place, line) in text.split(|byte| *byte == b'\n').skip(comments).enumerate() {
        let Some(((at, e), others)) = rest.split_first() else {
            break;
        };
        if *at == place {
            let number = at.saturating_add(comments).saturating_add(1);
            let (word, path) = line_head(line);
            let (word, path) = (Shown(word), Shown(path));
            writeln!(faults, "cfbtool: line {number}: {word} {path}: {e}")?;
            rest = others;
        }
    }
    Ok(())
}

/// The word and the path of a line.
fn line_head(line: &[u8]) -> (&str, &str) {
    let text = str::from_utf8(line).unwrap_or("");
    let (word, behind) = text.split_once('\t').unwrap_or((text, ""));
    let (path, _) = behind.split_once('\t').unwrap_or((behind, ""));
    (word, path)
}
