//! What the program does.
use crate::help::{HELP, VERSION, help_on};
use crate::options::without_option;
use crate::output::Output;
use crate::refusal::{About, Refusal, tell, tell_wrong};
use crate::system::System;
use cfb_tool::asking::{Asked, asked_by};
use cfb_tool::word::{Word, word_by};
use changes::{change_one, run_explained, run_input};
use compact::compact;
use creating::create;
use dump::dump;
use extract::extract_to;
use files::{Target, is_there};
use info::info;
use looks::look;
use puts::{put_from, put_input};
use salvage::salvage;
use std::io::{Read, Write};
use std::process::ExitCode;

mod beside;
mod changes;
mod compact;
mod creating;
mod details;
mod dump;
mod extract;
mod files;
mod info;
mod lines;
mod looks;
mod pieces;
mod puts;
mod salvage;
mod tree;

/// Does what the words say, with `input` as standard input, `out` as standard output and `faults`
/// as standard error, and answers the status: 0 where it is done, 1 where it is refused, with one
/// line on `faults`, and 2 where the words are wrong. PATH is a path in FILE; `\u0005` in it is the
/// character U+0005.
///
/// - `ls [-l] FILE [PATH]`: a line for each object, or for each from the one at this path on: `d` or
///   `f`, its length, and its path; with `-l` all of its fields.
/// - `tree FILE [PATH]`: the same objects as a tree.
/// - `info FILE`: a report on the file, and why it is not sound, with the status 1 and nothing on
///   `faults` where it is not.
/// - `map FILE`: which sectors belong to what.
/// - `check FILE`, `check FILE strict`: prints `version V sound`, or `version V not sound` with the
///   status 1 and nothing on `faults`.
/// - `cat FILE PATH`: the bytes of this stream on `out`, none where it is refused.
/// - `extract FILE [PATH] DIR`: all streams as files of a new folder.
/// - `dump FILE`: lines of `run` that make the file's tree.
/// - `create 3 FILE`, `create 4 FILE`: a new empty file of this version; an old one is overwritten.
/// - `put FILE PATH [FROM]`: a stream at this path, with the bytes of `input`, or those of FROM.
/// - `mkdir`, `mkdirs`, `rmdir`, `rmtree`, `rm`, `touch`, `bits`, `len`, `clsid`, `add`, then
///   `FILE PATH [ARG]`: one change, as by a line of `run`.
/// - `run FILE`: the commands of `input`, one a line; for each `ok`, or `E` and the number of its
///   first refusal, with the status 1 and nothing on `faults`. A line that is no command makes the
///   words wrong, and then nothing is done. `run -e FILE` explains both on `faults`.
/// - `compact FILE NEW`: a copy in a new file, in which no sector is free.
/// - `salvage FILE NEW`: what can be read of a damaged file, or of one that was cut short, in a new
///   file, and on `out` what is not whole; the status is 1 then.
/// - `help`, `--help`, `-h`, `help WORD`, `WORD --help`, `--version`: what the words are.
///
/// Behind a word that writes a compound file stands `--no-sync` where nothing is to be brought to the disk.
pub fn tool<H: System, R: Read, W: Output, E: Output>(
    rt: &H,
    words: &[String],
    input: &mut R,
    out: &mut W,
    faults: &mut E,
) -> ExitCode {
    match without_option(rt.alloc(), words) {
        Ok(Some(others)) => tell_all(rt, (others.as_slice(), false), input, out, faults),
        Ok(None) => tell_all(rt, (words, true), input, out, faults),
        Err(refusal) => {
            tell(refusal, About::of(Asked::Help), faults);
            ExitCode::from(1)
        }
    }
}

/// Does what the words say; what is written is brought to the disk if that is asked for too.
fn tell_all<H: System, R: Read, W: Output, E: Output>(
    rt: &H,
    (words, syncs): (&[String], bool),
    input: &mut R,
    out: &mut W,
    faults: &mut E,
) -> ExitCode {
    let Some(asked) = asked_by(words) else {
        return tell_wrong(word_in(words), faults);
    };
    match answer(rt, (asked, syncs), input, out, faults) {
        Ok(()) => ExitCode::SUCCESS,
        Err(Refusal::WrongWords) => tell_wrong(word_in(words), faults),
        Err(Refusal::ToldWrong) => ExitCode::from(2),
        Err(refusal) => {
            tell(refusal, About::of(asked), faults);
            ExitCode::from(1)
        }
    }
}

/// The word that a run begins with, if it is one.
fn word_in(words: &[String]) -> Option<Word> {
    match words {
        [call, ..] => word_by(call),
        [] => None,
    }
}

fn answer<H: System, R: Read, W: Output, E: Output>(
    rt: &H,
    (asked, syncs): (Asked<'_>, bool),
    input: &mut R,
    out: &mut W,
    faults: &mut E,
) -> Result<(), Refusal> {
    match asked {
        Asked::Help | Asked::LongHelp | Asked::ShortHelp => print(HELP.as_bytes(), out),
        Asked::HelpOn(word) | Asked::HelpBehind(word) => print(help_on(word).as_bytes(), out),
        Asked::Version => print(VERSION.as_bytes(), out),
        Asked::Compact(..) => compact(rt, (About::of(asked), syncs), faults),
        Asked::Salvage(path, new) => salvage(rt, path, Target { path: new, syncs }, out),
        Asked::Info(path) => info(rt, path, out),
        Asked::Dump(path) => dump(rt, path, out, faults),
        Asked::ExtractAll(_, folder) | Asked::ExtractAt(_, _, folder) if is_there(rt, folder) => {
            Err(Refusal::TargetExists)
        }
        Asked::ExtractAll(..) | Asked::ExtractAt(..) => extract_to(rt, About::of(asked), faults),
        Asked::Create(..)
        | Asked::Put(..)
        | Asked::PutFrom(..)
        | Asked::OneChange(..)
        | Asked::OneChangeBy(..)
        | Asked::Run(_)
        | Asked::RunExplained(_) => change(rt, (asked, syncs), input, out, faults),
        _ => look(rt, asked, out),
    }
}

/// Changes FILE as it is asked.
fn change<H: System, R: Read, W: Output, E: Output>(
    rt: &H,
    (asked, syncs): (Asked<'_>, bool),
    input: &mut R,
    out: &mut W,
    faults: &mut E,
) -> Result<(), Refusal> {
    let path = About::of(asked).file;
    let target = Target { path, syncs };
    match asked {
        Asked::Create(version, _) => create(rt, version, target),
        Asked::Put(_, stream) => put_input(rt, target, stream, input),
        Asked::PutFrom(_, stream, from) => put_from(rt, target, stream, from),
        Asked::OneChange(change, _, object) => {
            change_one(rt, target, (change, object, None), input)
        }
        Asked::OneChangeBy(change, _, object, by) => {
            change_one(rt, target, (change, object, Some(by)), input)
        }
        Asked::Run(_) => run_input(rt, target, input, out),
        Asked::RunExplained(_) => run_explained(rt, target, input, out, faults),
        _ => Err(Refusal::WrongWords),
    }
}

/// Prints what was put together beforehand, at once, and hands it on. `Medium`, `Memory`.
fn print<W: Write>(bytes: &[u8], out: &mut W) -> Result<(), Refusal> {
    let printed = out.write_all(bytes);
    match printed.and_then(|()| out.flush()) {
        Ok(()) => Ok(()),
        Err(e) => Err(Refusal::of_output(e)),
    }
}
