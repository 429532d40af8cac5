//! Lines of text that are commands.
ghost use Rattle.std.specs.Prelude.{◌≡◌, ◌<◌, ◌≤◌, ◌+◌, ◌∷◌, ◌++◌, ◌==◌, ℕ, ℤ, List, Some, [], length, map, chars, string_bytes, option_to_list, IfOk, IfErr};
ghost use Rattle.std.specs.List.{slice_split};
ghost use Rattle.uuid.specs.Text.{parsed};
ghost use Rattle.cfb_format.specs.Timestamp.{moment_of_unix};
ghost use Rattle.cfb_text.specs.Meant.{meant};
ghost use Rattle.cfb_lines.specs.Commands.{IsLine, IsScript, Says, given_fields};
ghost use Rattle.cfb_lines.specs.Fields.{IsHex, IsNumber, IsSeconds};
ghost use Rattle.cfb_commands.specs.Commands.{command_of, opening_of, stream_call_of};
ghost use Rattle.cfb_lines.specs.Wrong.{IsNotA, IsWrongBehind, IsWrongWith, TellsFirstWrong, TellsWrong, WrongIf, error_at, last_fields};
ghost use Rattle.cfb_lines.specs.Lines.{command_lines, comment_count, lines_in};
ghost use Rattle.cfb_lines.specs.Words.{spelling};
ghost use Rattle.cfb_lines.specs.cfb_rules.Lists as rules;
ghost use Rattle.cfb_lines.specs.cfb_rules.Lists.{Command as Ordered};

use crate::error::{LineError, LinesError, WrongLine};
use crate::fields::{cut, first_line};
use crate::hex::bytes_in;
use crate::numbers::{bits_in, class_in, len_in, moment_of_units, seconds_in};
use crate::word::{Field, Word, word_of};
use cfb_codecs::timestamp::Timestamp;
use cfb_commands::command::{Command, Opening, StreamOp};
use cfb_text::meant::meant;
use std::alloc::Allocator as Heap;
use std::io::SeekFrom;
use uuid::Uuid;

/// The word of a line, the path, and the field behind it, if there is one.
fn fields_of(line: &str) -> Result<(Word, &str, Option<&str>), WrongLine<'_>>
    ensures ok { IfOk result (λ f.
        slice_split (λ b. b == 9) line.now ≡ spelling f.0 ∷ f.1.now ∷ last_fields f.2) }
    ensures wrong { IfErr result (IsWrongWith line.now) }
{
    let (first, behind) = cut(line);
    let Some(word) = word_of(first) else {
        return Err(WrongLine::NoWord(first));
    };
    let Some(behind) = behind else {
        return Err(WrongLine::Wants(word));
    };
    let (path, last) = cut(behind);
    let Some(last) = last else {
        return Ok((word, path, None));
    };
    let (last, more) = cut(last);
    if more.is_some() {
        return Err(WrongLine::Wants(word));
    }
    Ok((word, path, Some(last)))
}

/// The moment that seconds say.
fn moment_in(text: &str) -> Result<Timestamp, LineError<'_>>
    ensures ok { IfOk result (λ m.
        (z : ℤ) × IsSeconds text.now z × (moment_of_unix z 0 ≡ m)) }
    ensures wrong { IfErr result (IsNotA Field.Seconds text.now) }
{
    match seconds_in(text) {
        Some(seconds) => Ok(Timestamp::from_unix(seconds, 0)),
        None => Err(LineError::Wrong(WrongLine::NotA(Field::Seconds, text))),
    }
}

/// A number of 32 bits.
fn number_32_in(text: &str) -> Result<u32, LineError<'_>>
    ensures ok { IfOk result (λ n. IsNumber 32 text.now n) }
    ensures wrong { IfErr result (IsNotA Field.Number32 text.now) }
{
    match bits_in(text) {
        Some(number) => Ok(number),
        None => Err(LineError::Wrong(WrongLine::NotA(Field::Number32, text))),
    }
}

/// A number of 64 bits.
fn number_64_in(text: &str) -> Result<u64, LineError<'_>>
    ensures ok { IfOk result (λ n. IsNumber 64 text.now n) }
    ensures wrong { IfErr result (IsNotA Field.Number64 text.now) }
{
    match len_in(text) {
        Some(number) => Ok(number),
        None => Err(LineError::Wrong(WrongLine::NotA(Field::Number64, text))),
    }
}

/// A class id.
fn class_id_in(text: &str) -> Result<Uuid, LineError<'_>>
    ensures ok { IfOk result (λ id. parsed text.now ≡ Some id) }
    ensures wrong { IfErr result (IsNotA Field.ClassId text.now) }
{
    match class_in(text) {
        Some(id) => Ok(id),
        None => Err(LineError::Wrong(WrongLine::NotA(Field::ClassId, text))),
    }
}

/// Bytes.
fn content_in<'a, A: Heap + Clone>(alloc: &A, text: &'a str) -> Result<Vec<u8, A>, LineError<'a>>
    ensures ok { IfOk result (λ v. IsHex text.entry.now v.items) }
    ensures wrong { IfErr result (IsNotA Field.Bytes text.entry.now) }
{
    match bytes_in(alloc.clone()?, text)? {
        Some(bytes) => Ok(bytes),
        None => Err(LineError::Wrong(WrongLine::NotA(Field::Bytes, text))),
    }
}

/// What is done with one stream.
fn on_stream<'a, A: Heap + Clone>(
    alloc: &A,
    how: Opening,
    path: String<A>,
    first: Option<StreamOp<A>>,
    last: StreamOp<A>,
) -> Result<Command<A>, LineError<'a>>
    ensures ok { IfOk result (λ c. command_of c ≡ rules.on_stream (opening_of how)
        (chars (string_bytes path)) (map stream_call_of (option_to_list first ++ last ∷ []))) }
    ensures memory { IfErr result (λ e. e ≡ LineError.Memory) }
{
    let mut ops = Vec::new(alloc.clone()?);
    if let Some(op) = first {
        ops.push(op)?;
    }
    ops.push(last)?;
    Ok(Command::Stream(how, path, ops))
}

/// The command of a word and a path with nothing behind it.
fn bare_command<'a, A: Heap>(word: Word, path: String<A>) -> Result<Command<A>, LineError<'a>>
    ensures found { IfOk result (λ c.
        Says word (chars (string_bytes path)) [] (command_of c)) }
    ensures wrong { IfErr result (TellsWrong (IsWrongBehind word [])) }
{
    match word {
        Word::Rmdir => Ok(Command::RemoveStorage(path)),
        Word::Rmtree => Ok(Command::RemoveStorageAll(path)),
        Word::Rm => Ok(Command::RemoveStream(path)),
        _ => Err(LineError::Wrong(WrongLine::Wants(word))),
    }
}

/// The command of a word, a path, and the field behind it.
fn command_with<'a, A: Heap + Clone>(
    alloc: &A,
    word: Word,
    path: String<A>,
    text: &'a str,
) -> Result<Command<A>, LineError<'a>>
    ensures found { IfOk result (λ c.
        Says word (chars (string_bytes path)) (text.entry.now ∷ []) (command_of c)) }
    ensures wrong { IfErr result (TellsWrong (IsWrongBehind word (text.entry.now ∷ []))) }
{
    match word {
        Word::Mkdir => Ok(Command::CreateStorage(path, moment_in(text)?)),
        Word::Mkdirs => Ok(Command::CreateStorageAll(path, moment_in(text)?)),
        Word::Touch => Ok(Command::Touch(path, moment_in(text)?)),
        Word::Created => {
            let moment = moment_of_units(number_64_in(text)?);
            Ok(Command::SetCreatedTime(path, moment))
        }
        Word::Modified => {
            let moment = moment_of_units(number_64_in(text)?);
            Ok(Command::SetModifiedTime(path, moment))
        }
        Word::Clsid => Ok(Command::SetStorageClsid(path, class_id_in(text)?)),
        Word::Bits => Ok(Command::SetStateBits(path, number_32_in(text)?)),
        Word::Len => {
            let len = StreamOp::SetLen(number_64_in(text)?);
            on_stream(alloc, Opening::Open, path, None, len)
        }
        Word::Put => {
            let bytes = StreamOp::Write(content_in(alloc, text)?);
            on_stream(alloc, Opening::Create, path, None, bytes)
        }
        Word::Add => {
            let bytes = StreamOp::Write(content_in(alloc, text)?);
            let end = StreamOp::Seek(SeekFrom::End(0));
            on_stream(alloc, Opening::Open, path, Some(end), bytes)
        }
        _ => Err(LineError::Wrong(WrongLine::Wants(word))),
    }
}

/// The command of a word, a path, and the field behind it, if there is one.
fn command_of_fields<'a, A: Heap + Clone>(
    alloc: &A,
    word: Word,
    path: &str,
    last: Option<&'a str>,
) -> Result<Command<A>, LineError<'a>>
    ensures found { IfOk result (λ c.
        Says word (meant (chars path.now)) (last_fields last.entry) (command_of c)) }
    ensures wrong { IfErr result (TellsWrong (IsWrongBehind word (last_fields last.entry))) }
{
    let path = meant(alloc.clone()?, path)?;
    match last {
        None => bare_command(word, path),
        Some(text) => command_with(alloc, word, path, text),
    }
}

/// What words of a run ask for: a word of `run`, a path, and the field behind it. Where a storage is
/// made, no seconds are 0.
///
/// # Errors
/// `Wrong` exactly where they say no command; `Memory`.
pub fn command_of_words<'a, A: Heap + Clone>(
    alloc: &A,
    word: Word,
    path: &str,
    last: Option<&'a str>,
) -> Result<Command<A>, LineError<'a>>
    ensures found { IfOk result (λ c. Says word (meant (chars path.now))
        (given_fields word (last_fields last.entry)) (command_of c)) }
    ensures wrong { IfErr result (TellsWrong
        (IsWrongBehind word (given_fields word (last_fields last.entry)))) }
{
    match (word, last) {
        (Word::Mkdir, None) => command_of_fields(alloc, word, path, Some("0")),
        (Word::Mkdirs, None) => command_of_fields(alloc, word, path, Some("0")),
        (_, _) => command_of_fields(alloc, word, path, last),
    }
}

/// The command of a line.
fn command_in<'a, A: Heap + Clone>(alloc: &A, line: &'a [u8]) -> Result<Command<A>, LineError<'a>>
    ensures found { IfOk result (λ c. IsLine line.entry.now (command_of c)) }
    ensures wrong { IfErr result (TellsWrong (IsWrongWith line.entry.now)) }
{
    let Ok(text) = str::from_utf8(line) else {
        return Err(LineError::Wrong(WrongLine::NotText));
    };
    match fields_of(text) {
        Ok(fields) => {
            let (word, path, last) = fields;
            command_of_fields(alloc, word, path, last)
        }
        Err(why) => Err(LineError::Wrong(why)),
    }
}

/// How many lines in front are a comment, which is no command: one where the text begins with
/// `# cfbtool dump`, else none.
pub fn comment_count(input: &[u8]) -> usize
    ensures { result ≡ comment_count input.now }
{
    if input.starts_with(b"# cfbtool dump") {
        1
    } else {
        0
    }
}

/// What follows the comment in front, if there is one, and how many lines that is.
fn behind_comment(input: &[u8]) -> (&[u8], usize)
    ensures lines { lines_in result.0.now ≡ command_lines input.now }
    ensures count { result.1 ≡ comment_count input.now }
    ensures short { result.1 + length result.0.now ≤ length input.now }
{
    if input.starts_with(b"# cfbtool dump") {
        let (_, rest) = first_line(input);
        (rest, 1)
    } else {
        (input, 0)
    }
}

/// The error of the line with this number.
fn at_line(number: usize, e: LineError<'_>) -> LinesError<'_>
    ensures { result ≡ error_at number e.entry }
{
    match e {
        LineError::Wrong(why) => LinesError::WrongWords(number, why),
        LineError::Memory => LinesError::Memory,
    }
}

/// The commands of a text, one a line. The first line is left out where it begins with
/// `# cfbtool dump`.
///
/// # Errors
/// `WrongWords` exactly where one of its lines is no command, with the number of the first such
/// line; `Memory`.
pub fn commands_in<'a, A: Heap + Clone>(
    alloc: A,
    input: &'a [u8],
) -> Result<Vec<Command<A>, A>, LinesError<'a>>
    ensures found { IfOk result (λ v. IsScript input.entry.now (map command_of v.items)) }
    ensures wrong { IfErr result
        (WrongIf ((commands : List Ordered) → IsScript input.entry.now commands → ⊥)) }
    ensures first { IfErr result (TellsFirstWrong input.entry.now) }
{
    let mut commands = Vec::new(alloc.clone()?);
    let (mut rest, mut number) = behind_comment(input);
    while !rest.is_empty() {
        let (line, after) = first_line(rest);
        number += 1;
        let command = match command_in(&alloc, line) {
            Ok(command) => command,
            Err(e) => return Err(at_line(number, e)),
        };
        commands.push(command)?;
        rest = after;
    }
    Ok(commands)
}
