//! Commands done one after the other, with each refusal kept.
ghost use Rattle.std.specs.Prelude.{◌≡◌, ◌≤◌, ◌+◌, ◌*◌, ◌||◌, [], IfErr, IfOk, OnErr, length, map, vec_capacity};
ghost use Rattle.cfb_commands.specs.Commands.{command_of};
ghost use Rattle.cfb_format.specs.Refused.{IsMemory};
ghost use Rattle.cfb_tool.specs.Playing.{ArePlayed, AreToldIn, placed};

use crate::playing::{do_command, one_at, push_line};
use cfb_commands::CompoundFile;
use cfb_commands::command::Command;
use cfb_format::error::Error;
use cfb_format::medium::Medium;
use std::alloc::Allocator as Heap;

/// Does what `play` does, and keeps what was refused: the place of the command, from 0 on, and its
/// first refusal. There is room for the lines, and for a refusal of each command.
///
/// # Errors
/// `Memory` for a reply, before anything is done.
pub fn play_explained<F: Medium, A: Heap + Clone>(
    alloc: &A,
    file: &mut CompoundFile<F, A>,
    commands: &[Command<A>],
    lines: &mut Vec<u8, A>,
    refusals: &mut Vec<(usize, Error), A>,
) -> Result<bool, Error>
    requires room { length lines.old.items + 3 * length commands.now ≤ vec_capacity lines.old }
    requires kept { length commands.now ≤ vec_capacity refusals.old }
    requires empty { refusals.old.items ≡ [] }
    ensures played { IfOk result (λ all. ArePlayed F.tells (λ f. F.read_faults f
        || F.write_faults f) file.old (map command_of commands.now) lines.old.items lines.new.items
        all file.new) }
    ensures told { IfOk result (λ all.
        AreToldIn lines.old.items lines.new.items (map placed refusals.new.items)) }
    ensures refused { IfErr result IsMemory }
    ensures nothing { OnErr result ((file.new ≡ file.old) × (lines.new ≡ lines.old)) }
{
    let mut replies = Vec::with_capacity(alloc.clone()?, 1)?;
    let mut is_done = true;
    for at in 0..commands.len() {
        match do_command(file, one_at(commands, at), &mut replies) {
            Ok(()) => push_line(lines, b'o', b'k'),
            Err(e) => {
                is_done = false;
                push_line(lines, b'E', b'0'.saturating_add(e.number()));
                refusals.push_reserved((at, e));
            }
        }
    }
    Ok(is_done)
}
