//! The words that change FILE by commands. It is opened once all that they read is there, and each word
//! changes all of it or nothing, by the journal beside it.
ghost use Rattle.std.specs.Prelude.{◌≡◌, ◌+◌, ◌*◌, ◌≤◌, [], IfOk, IsTrue, length, vec_capacity};
ghost use Rattle.cfb_journal.specs.Disk.{IsOpened};

use super::files::{Target, begun, committed, ended, opened_to_change, place_of, to_change};
use super::lines::{One, command_of, commands_of, explain, explained_commands_of};
use super::print;
use crate::lent::Lent;
use crate::output::Output;
use crate::refusal::Refusal;
use crate::system::System;
use cfb::{Command, Error, Medium};
use cfb_journal::disk::Disk;
use cfb_journal_file::lent::LentDisk;
use cfb_tool::explaining::play_explained;
use std::alloc::Global;
use std::io::{Read, Write};

/// All of standard input. `Medium`, `Memory`.
pub(super) fn read_input<R: Read>(alloc: Global, input: &mut R) -> Result<Vec<u8>, Refusal> {
    let mut bytes = Vec::new(alloc);
    match input.read_to_end(&mut bytes) {
        Ok(_) => Ok(bytes),
        Err(e) => Err(Refusal::of_input(e)),
    }
}

/// One change, or none where it is refused.
pub(super) fn change_one<H: System, R: Read>(
    rt: &H,
    target: Target<'_>,
    one: One<'_>,
    input: &mut R,
) -> Result<(), Refusal> {
    let commands = vec![in rt.alloc(); command_of(rt.alloc(), one, input)?]?;
    run_commands(rt, target, commands.as_slice(), Refused::TakesBack)?;
    Ok(())
}

/// `run`.
pub(super) fn run_input<H: System, R: Read, W: Write>(
    rt: &H,
    target: Target<'_>,
    input: &mut R,
    out: &mut W,
) -> Result<(), Refusal> {
    let text = read_input(rt.alloc(), input)?;
    let commands = commands_of(rt.alloc(), text.as_slice())?;
    let told = run_commands(rt, target, commands.as_slice(), Refused::IsTold)?;
    print_told(&told, out)
}

/// `run -e`.
pub(super) fn run_explained<H: System, R: Read, W: Output, E: Output>(
    rt: &H,
    target: Target<'_>,
    input: &mut R,
    out: &mut W,
    faults: &mut E,
) -> Result<(), Refusal> {
    let text = read_input(rt.alloc(), input)?;
    let commands = explained_commands_of(rt.alloc(), text.as_slice(), faults)?;
    let told = run_commands(rt, target, commands.as_slice(), Refused::IsTold)?;
    let printed = print_told(&told, out);
    let _ = explain(text.as_slice(), told.refusals.as_slice(), faults);
    printed
}

/// What is told of commands.
#[derive(Drop)]
struct Told {
    /// A line for each.
    lines: Vec<u8>,
    /// The place of each that was refused, and why.
    refusals: Vec<(usize, Error)>,
    is_done: bool,
}

/// What a refused command does to the change that it is part of.
#[derive(Clone, Copy)]
enum Refused {
    /// It is told, and what else was done stays.
    IsTold,
    /// All is taken back: a command that was refused on the way may have written some bytes.
    TakesBack,
}

fn run_commands<H: System>(
    rt: &H,
    target: Target<'_>,
    commands: &[Command],
    refused: Refused,
) -> Result<Told, Refusal> {
    let mut told = Told {
        lines: room_for_lines(rt.alloc(), commands.len())?,
        refusals: Vec::with_capacity(rt.alloc(), commands.len())?,
        is_done: false,
    };
    let place = place_of(rt, target.path)?;
    let mut disk = to_change(rt, &place, target.syncs)?;
    let done = play_whole(rt, LentDisk(&mut disk), commands, &mut told, refused);
    ended(rt, &place, disk, done)?;
    Ok(told)
}

/// Plays the commands, and makes their changes on the disk, unless one of them left the file failed:
/// then there is no change at all. Nor is there one where a command is refused that takes back.
fn play_whole<H: System, D: Disk>(
    rt: &H,
    disk: D,
    commands: &[Command],
    told: &mut Told,
    refused: Refused,
) -> Result<(), Refusal>
    requires opened { IsTrue D.tells → IsOpened D.opened (D.view disk) }
    requires room { length told.old.lines.items + 3 * length commands.now ≤ vec_capacity told.old.lines }
    requires kept { length commands.now ≤ vec_capacity told.old.refusals }
    requires empty { told.old.refusals.items ≡ [] }
{
    let mut medium = begun(rt.alloc(), disk)?;
    let file = Lent(&mut medium);
    let lines = &mut told.lines;
    told.is_done = play_in(rt, file, commands, lines, &mut told.refusals)?;
    if let (Refused::TakesBack, Some((_, e))) = (refused, told.refusals.first()) {
        return Err(Refusal::Of(*e));
    }
    committed(medium)
}

fn play_in<H: System, F: Medium>(
    rt: &H,
    medium: F,
    commands: &[Command],
    lines: &mut Vec<u8>,
    refusals: &mut Vec<(usize, Error)>,
) -> Result<bool, Refusal>
    requires room { length lines.old.items + 3 * length commands.now ≤ vec_capacity lines.old }
    requires kept { length commands.now ≤ vec_capacity refusals.old }
    requires empty { refusals.old.items ≡ [] }
{
    let mut file = opened_to_change(rt, medium)?;
    let is_done = play_explained(&rt.alloc(), &mut file, commands, lines, refusals)?;
    if file.is_failed() {
        return Err(Refusal::Of(why_failed(refusals.as_slice())));
    }
    file.flush()?;
    Ok(is_done)
}

/// What left the file failed: the first refusal that blames the medium, memory or numbers.
fn why_failed(refusals: &[(usize, Error)]) -> Error {
    for (_, e) in refusals {
        if matches!(e, Error::Medium(_) | Error::Memory | Error::Full) {
            return *e;
        }
    }
    Error::Failed
}

/// Prints what is told of commands, once they are done.
fn print_told<W: Write>(told: &Told, out: &mut W) -> Result<(), Refusal> {
    print(told.lines.as_slice(), out)?;
    if told.is_done {
        Ok(())
    } else {
        Err(Refusal::Told)
    }
}

/// Room for a line of two letters for each command. `Memory`.
fn room_for_lines(alloc: Global, count: usize) -> Result<Vec<u8>, Refusal>
    ensures { IfOk result (λ lines. (lines.items ≡ []) × (3 * count ≤ vec_capacity lines)) }
{
    let Some(len) = count.checked_mul(3) else {
        return Err(Refusal::Of(Error::Memory));
    };
    Ok(Vec::with_capacity(alloc, len)?)
}
