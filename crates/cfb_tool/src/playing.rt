//! Commands done one after the other, each to its end: a write goes on until all of its bytes are
//! taken.
ghost use Rattle.std.specs.Prelude.{◌≡◌, ◌<◌, ◌≤◌, ◌+◌, ◌*◌, ◌++◌, ◌∷◌, ◌||◌, [], IfErr, IfOk, IsTrue, OnErr, chars, drop, length, map, take, vec_capacity};
ghost use Rattle.cfb_commands.specs.Commands.{refusal_of_result, command_of};
ghost use Rattle.cfb_format.specs.Refused.{IsMemory};
ghost use Rattle.cfb_rules.specs.Lists.{Command as Ordered};
ghost use Rattle.cfb_tool.specs.Playing.{ArePlayed, IsAdded, IsPlayed, PlaysOnce, addition};

use crate::replies::{first_error, taken, written_by};
use cfb_commands::CompoundFile;
use cfb_commands::command::{Command, Opening, Reply, StreamOp};
use cfb_commands::run::run;
use cfb_format::error::Error;
use cfb_format::medium::{Medium, MediumFault};
use cfb_whole_streams::content::behind;
use std::alloc::Allocator as Heap;
use std::io::SeekFrom;

/// Does one command, once, and answers how many bytes its last operation took, or its first refusal.
/// There is room for its reply.
fn do_once<F: Medium, A: Heap + Clone>(
    file: &mut CompoundFile<F, A>,
    one: &[Command<A>],
    replies: &mut Vec<Reply<A>, A>,
) -> Result<usize, Error>
    requires one { length one.now ≡ 1 }
    requires room { 1 ≤ vec_capacity replies.old }
    ensures room { 1 ≤ vec_capacity replies.new }
    ensures plays { IsTrue F.tells → (asked : Ordered) → map command_of one.now ≡ asked ∷ []
        → PlaysOnce (λ f. F.read_faults f || F.write_faults f) file.old asked result file.new }
{
    replies.clear();
    run(file, one, replies);
    let Some(reply) = replies.first() else {
        return Ok(0);
    };
    match first_error(reply) {
        Some(e) => Err(e),
        None => Ok(taken(reply)),
    }
}

/// A command that opens the stream at this path, and writes at its end. `Memory`.
fn adding<A: Heap + Clone>(alloc: &A, path: &str, bytes: &[u8]) -> Result<Vec<Command<A>, A>, Error>
    ensures ok { IfOk result (λ one. map command_of one.items
        ≡ addition (chars path.entry.now) bytes.entry.now ∷ []) }
    ensures memory { IfErr result IsMemory }
{
    let path = String::from_str(alloc.clone()?, path)?;
    let bytes = Vec::from_slice(alloc.clone()?, bytes)?;
    let mut ops = Vec::with_capacity(alloc.clone()?, 2)?;
    ops.push(StreamOp::Seek(SeekFrom::End(0)))?;
    ops.push(StreamOp::Write(bytes))?;
    let mut one = Vec::with_capacity(alloc.clone()?, 1)?;
    one.push(Command::Stream(Opening::Open, path, ops))?;
    Ok(one)
}

/// Writes these bytes at the end of the stream at this path, opening it again for as much as one
/// write takes. The first refusal; `Memory` for each command, too.
fn go_on<F: Medium, A: Heap + Clone>(
    file: &mut CompoundFile<F, A>,
    path: &str,
    bytes: &[u8],
    replies: &mut Vec<Reply<A>, A>,
) -> Result<(), Error>
    requires room { 1 ≤ vec_capacity replies.old }
    ensures room { 1 ≤ vec_capacity replies.new }
    ensures added { IsTrue F.tells → IsAdded (λ f. F.read_faults f || F.write_faults f) file.old
        (chars path.now) bytes.now (refusal_of_result result) file.new }
{
    let mut rest = bytes;
    while !rest.is_empty() {
        let one = adding(replies.allocator(), path, rest)?;
        let count = do_once(file, one.as_slice(), replies)?;
        // no write of a file takes nothing
        if count == 0 {
            return Err(Error::Medium(MediumFault::Stuck));
        }
        rest = behind(rest, count);
    }
    Ok(())
}

/// Does one command, and goes on behind its write until all bytes are taken. The first refusal;
/// `Memory` for what is added, too.
pub(crate) fn do_command<F: Medium, A: Heap + Clone>(
    file: &mut CompoundFile<F, A>,
    one: &[Command<A>],
    replies: &mut Vec<Reply<A>, A>,
) -> Result<(), Error>
    requires one { length one.now ≡ 1 }
    requires room { 1 ≤ vec_capacity replies.old }
    ensures room { 1 ≤ vec_capacity replies.new }
    ensures played { IsTrue F.tells → (asked : Ordered) → map command_of one.now ≡ asked ∷ []
        → IsPlayed (λ f. F.read_faults f || F.write_faults f) file.old asked
        (refusal_of_result result) file.new }
{
    let count = do_once(file, one, replies)?;
    let Some(command) = one.first() else {
        return Ok(());
    };
    match written_by(command) {
        Some((path, bytes)) => go_on(file, path, behind(bytes, count), replies),
        None => Ok(()),
    }
}

/// The command at this place, as a list of one.
pub(crate) fn one_at<A: Heap>(commands: &[Command<A>], at: usize) -> &[Command<A>]
    requires { at < length commands.now }
    ensures { result.now ≡ take 1 (drop at commands.now) }
{
    &commands[at..at + 1]
}

/// Does these commands in their order, whether or not one is refused, and appends a line for each:
/// `ok`, or `E` and the number of its first refusal. There is room for the lines. Answers whether
/// none was refused. `Memory` for a reply, before anything is done.
pub fn play<F: Medium, A: Heap + Clone>(
    alloc: &A,
    file: &mut CompoundFile<F, A>,
    commands: &[Command<A>],
    lines: &mut Vec<u8, A>,
) -> Result<bool, Error>
    requires room { length lines.old.items + 3 * length commands.now ≤ vec_capacity lines.old }
    ensures played { IfOk result (λ all. ArePlayed F.tells (λ f. F.read_faults f
        || F.write_faults f) file.old (map command_of commands.now) lines.old.items lines.new.items
        all file.new) }
    ensures refused { IfErr result IsMemory }
    ensures nothing { OnErr result ((file.new ≡ file.old) × (lines.new ≡ lines.old)) }
{
    let mut replies = Vec::with_capacity(alloc.clone()?, 1)?;
    let mut is_done = true;
    for at in 0..commands.len() {
        match do_command(file, one_at(commands, at), &mut replies) {
            Ok(()) => push_line(lines, b'o', b'k'),
            Err(e) => {
                is_done = false;
                push_line(lines, b'E', b'0'.saturating_add(e.number()));
            }
        }
    }
    Ok(is_done)
}

/// Appends a line of two letters, for which there is room.
pub(crate) fn push_line<A: Heap>(lines: &mut Vec<u8, A>, first: u8, second: u8)
    requires room { length lines.old.items + 3 ≤ vec_capacity lines.old }
    ensures line { lines.new.items ≡ lines.old.items ++ first ∷ second ∷ 10 ∷ [] }
    ensures capacity { vec_capacity lines.new ≡ vec_capacity lines.old }
{
    lines.push_reserved(first);
    lines.push_reserved(second);
    lines.push_reserved(b'\n');
}
