//! Commands are done one after the other.
ghost use Rattle.std.specs.Prelude.{◌≡◌, ◌≤◌, ◌+◌, ◌||◌, true, All, IsTrue, drop, length, map, take, vec_capacity};
ghost use Rattle.cfb_commands.specs.Replies.{RepliesToEach};
ghost use Rattle.cfb_commands.specs.cfb_agreement.Files.{is_failed};
ghost use Rattle.cfb_commands.specs.Commands.{command_of, command_reply_of};
ghost use Rattle.cfb_commands.specs.Failing.{IsAsked, OnceFailed};
ghost use Rattle.cfb_commands.specs.Faults.{IsGiven};
ghost use Rattle.cfb_commands.specs.Heeding.{HeedsCommand, HeedsCommands};
ghost use Rattle.cfb_commands.specs.Kinds.{AreOfKinds, IsOfKind, kind_of_command};
ghost use Rattle.cfb_commands.specs.Made.{StaysMade};
ghost use Rattle.cfb_commands.specs.Working.{AnswersCommand, RunsLegally};

use crate::command::{Command, Reply};
use crate::queries::{read_list, walk_list};
use crate::streams::run_on_stream;
use cfb_compound_file::compound_file::CompoundFile;
use cfb_format::medium::Medium;
use std::alloc::Allocator as Heap;

/// Does one command.
fn run_one<F: Medium, A: Heap + Clone>(
    alloc: &A,
    file: &mut CompoundFile<F, A>,
    command: &Command<A>,
) -> Reply<A>
    ensures of_kind { IsOfKind (kind_of_command command.now) result }
    ensures asked { IsAsked result }
    ensures any { HeedsCommand file.old result file.new }
    ensures given { IsTrue F.tells → IsGiven (λ f. F.read_faults f || F.write_faults f) result }
    ensures answers { IsTrue F.tells
        → AnswersCommand (λ f. F.read_faults f || F.write_faults f) file.old
        (command_of command.now) (command_reply_of result) file.new }
{
    match command {
        Command::CreateStorage(path, moment) => Reply::Done(file.create_storage(path, *moment)),
        Command::CreateStorageAll(path, moment) => {
            Reply::Done(file.create_storage_all(path, *moment))
        }
        Command::RemoveStorage(path) => Reply::Done(file.remove_storage(path)),
        Command::RemoveStorageAll(path) => Reply::Done(file.remove_storage_all(path)),
        Command::RemoveStream(path) => Reply::Done(file.remove_stream(path)),
        Command::SetStorageClsid(path, clsid) => {
            Reply::Done(file.set_storage_clsid(path, *clsid))
        }
        Command::SetStateBits(path, bits) => Reply::Done(file.set_state_bits(path, *bits)),
        Command::SetCreatedTime(path, moment) => {
            Reply::Done(file.set_created_time(path, *moment))
        }
        Command::SetModifiedTime(path, moment) => {
            Reply::Done(file.set_modified_time(path, *moment))
        }
        Command::Touch(path, moment) => Reply::Done(file.touch(path, *moment)),
        Command::Flush => Reply::Done(file.flush()),
        Command::Exists(path) => Reply::Flag(file.exists(path)),
        Command::IsStream(path) => Reply::Flag(file.is_stream(path)),
        Command::IsStorage(path) => Reply::Flag(file.is_storage(path)),
        Command::Entry(path) => Reply::Entry(file.entry(path)),
        Command::ReadStorage(path) => Reply::Entries(read_list(alloc, file, path)),
        Command::WalkStorage(path) => Reply::Entries(walk_list(alloc, file, path)),
        Command::Stream(how, path, ops) => {
            Reply::Stream(run_on_stream(alloc, file, *how, path, ops))
        }
    }
}

/// Runs the commands in their order, also after one that fails, and appends one [`Reply`] for each to `replies`, which must have the
/// capacity. Each reply is of its [`Command`]'s kind.
///
/// A [`Command::Stream`] opens its stream, does the operations in their order, also after one that fails, and closes it. If memory for its
/// replies is missing, it returns `Memory` and does not open the stream. [`StreamOp::Read`] allocates no more than what is left of the
/// stream.
///
/// # Errors
///
/// They stand in the replies. On a failed file every command that is not a query returns [`Error::Failed`], and nothing changes. This also
/// holds after the first reply that shows a failure: `Failed`, or an error of [`Command::Flush`] or of closing. Queries return only
/// `InvalidInput`, `NotFound` and `Memory`.
///
/// Over every medium: after each command that failed, memory is as it was, or the file has failed ([`CompoundFile::is_failed`]).
pub fn run<F: Medium, A: Heap + Clone>(
    file: &mut CompoundFile<F, A>,
    commands: &[Command<A>],
    replies: &mut Vec<Reply<A>, A>,
)
    requires room { length replies.old.items + length commands.now ≤ vec_capacity replies.old }
    ensures replies { RepliesToEach commands.now replies.old.items replies.new.items }
    ensures given { IsTrue F.tells → All (IsGiven (λ f. F.read_faults f || F.write_faults f))
        (drop (length replies.old.items) replies.new.items) }
    ensures runs { IsTrue F.tells → RunsLegally (λ f. F.read_faults f || F.write_faults f) file.old
        (map command_of commands.now) (map command_reply_of (drop (length replies.old.items)
        replies.new.items)) file.new }
    ensures order { IsTrue F.tells → StaysMade file.old file.new }
    ensures failed { IsTrue F.tells
        → OnceFailed (is_failed file.old) (map command_of commands.now) (map command_reply_of
        (drop (length replies.old.items) replies.new.items)) file.new }
    ensures any { HeedsCommands file.old (drop (length replies.old.items) replies.new.items)
        file.new }
{
    // What the file keeps in memory is what its bytes say.
    let _is_failed = file.is_failed();
    for command in commands {
        let reply = run_one(replies.allocator(), file, command);
        let _now_failed = file.is_failed();
        replies.push_reserved(reply);
    }
}
