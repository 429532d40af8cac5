//! What is done with one stream, from its opening to its closing.
ghost use Rattle.std.specs.Prelude.{◌≡◌, ◌≤◌, ◌||◌, ℕ, All, List, [], IfErr, IfOk, IsTrue, length, map, chars, vec_capacity, true};
ghost use Rattle.std.specs.Borrow.{sem};
ghost use Rattle.cfb_commands.specs.cfb_agreement.Files.{FileState, SameSetting, is_failed};
ghost use Rattle.cfb_commands.specs.Promised.{CallKeeps, IsOpenSince, IsWorkedOn};
ghost use Rattle.cfb_compound_file.specs.cfb_volume.Answers.{StaysInMemoryOrFails};
ghost use Rattle.cfb_compound_file.specs.Streams.{file_of, file_rests, open_of};
ghost use Rattle.cfb_format.specs.Tree.{Tree};
ghost use Rattle.cfb_commands.specs.cfb_rules.Calls.{refused};
ghost use Rattle.cfb_commands.specs.cfb_rules.Lists.{on_stream, opening_call};
ghost use Rattle.cfb_commands.specs.cfb_rules.StreamCalls.{got, read, read_to_end};
ghost use Rattle.cfb_commands.specs.Commands.{opening_of, refusal_of_error, stream_answer, stream_call_of, stream_reply_of, streamed_reply};
ghost use Rattle.cfb_commands.specs.Faults.{CanBeGiven, IsAnswerGiven, IsWorkGiven};
ghost use Rattle.cfb_commands.specs.Heeding.{WorksHeed};
ghost use Rattle.cfb_commands.specs.Kinds.{kind_of_answer, kind_of_op};
ghost use Rattle.cfb_commands.specs.Working.{AnswersCommand, IsOpenedBy, LendsNothing, Works};

use crate::command::{Opening, StreamOp, StreamReply};
use cfb_compound_file::compound_file::CompoundFile;
use cfb_compound_file::stream::Stream;
use cfb_format::error::Error;
use cfb_format::medium::Medium;
use std::alloc::Allocator as Heap;

/// Reads at most so many bytes from the position on. `Failed` on a failed file, before room is had for no more than is left to the end:
/// `Memory`; then what `read` refuses.
fn read_some<F: Medium, A: Heap + Clone>(
    alloc: &A,
    stream: &mut Stream<'_, F, A>,
    wanted: usize,
) -> Result<Vec<u8, A>, Error>
    ensures same_file { (file_of stream.new).ghost_name ≡ (file_of stream.old).ghost_name }
    ensures given { IsTrue F.tells
        → IfErr result (CanBeGiven (λ f. F.read_faults f || F.write_faults f)) }
    ensures works { IsTrue F.tells → LendsNothing (open_of stream.old)
        → IsWorkedOn (open_of stream.old) (read wanted) (stream_answer (λ bytes.
        got bytes.items) result) (open_of stream.new) }
{
    if stream.is_failed() {
        return Err(Error::Failed);
    }
    let left = stream.len() - stream.position();
    let room = left.min(wanted as u64) as usize;
    let mut bytes = vec![in alloc.clone()?; 0u8; room]?;
    let count = stream.read(&mut bytes)?;
    bytes.truncate(count);
    Ok(bytes)
}

/// Reads the bytes from the position to the end. `Failed` on a failed file, before memory is asked for; then what `read_to_end` refuses.
fn read_rest<F: Medium, A: Heap + Clone>(
    alloc: &A,
    stream: &mut Stream<'_, F, A>,
) -> Result<Vec<u8, A>, Error>
    ensures same_file { (file_of stream.new).ghost_name ≡ (file_of stream.old).ghost_name }
    ensures given { IsTrue F.tells
        → IfErr result (CanBeGiven (λ f. F.read_faults f || F.write_faults f)) }
    ensures works { IsTrue F.tells → LendsNothing (open_of stream.old)
        → IsWorkedOn (open_of stream.old) read_to_end (stream_answer (λ bytes.
        got bytes.items) result) (open_of stream.new) }
{
    if stream.is_failed() {
        return Err(Error::Failed);
    }
    let mut bytes = Vec::new(alloc.clone()?);
    stream.read_to_end(&mut bytes)?;
    Ok(bytes)
}

/// Does one operation.
fn work<F: Medium, A: Heap + Clone>(
    alloc: &A,
    stream: &mut Stream<'_, F, A>,
    op: &StreamOp<A>,
) -> StreamReply<A>
    ensures same_file { (file_of stream.new).ghost_name ≡ (file_of stream.old).ghost_name }
    ensures of_kind { kind_of_answer result ≡ kind_of_op op.now }
    ensures given { IsTrue F.tells
        → IsAnswerGiven (λ f. F.read_faults f || F.write_faults f) result }
    ensures works { IsTrue F.tells → LendsNothing (open_of stream.old)
        → IsWorkedOn (open_of stream.old) (stream_call_of op.now) (stream_reply_of result)
        (open_of stream.new) }
{
    match op {
        StreamOp::Read(wanted) => StreamReply::Bytes(read_some(alloc, stream, *wanted)),
        StreamOp::ReadToEnd => StreamReply::Bytes(read_rest(alloc, stream)),
        StreamOp::Write(bytes) => StreamReply::Count(stream.write(bytes)),
        StreamOp::Seek(to) => StreamReply::Place(stream.seek(*to)),
        StreamOp::SetLen(len) => StreamReply::Done(stream.set_len(*len)),
        StreamOp::Flush => StreamReply::Done(stream.flush()),
        StreamOp::Position => StreamReply::Place(Ok(stream.position())),
        StreamOp::Len => StreamReply::Place(Ok(stream.len())),
    }
}

/// Does the operations in their order, whether or not one is refused. There is room for their replies.
fn work_all<F: Medium, A: Heap + Clone>(
    alloc: &A,
    stream: &mut Stream<'_, F, A>,
    ops: &[StreamOp<A>],
    replies: &mut Vec<StreamReply<A>, A>,
)
    requires none { replies.old.items ≡ [] }
    requires room { length ops.now ≤ vec_capacity replies.old }
    ensures same_file { (file_of stream.new).ghost_name ≡ (file_of stream.old).ghost_name }
    ensures of_kinds { map kind_of_answer replies.new.items ≡ map kind_of_op ops.now }
    ensures given { IsTrue F.tells
        → All (IsAnswerGiven (λ f. F.read_faults f || F.write_faults f)) replies.new.items }
    ensures works { IsTrue F.tells → (first opened : FileState) (path : List ℕ) (tree : Tree)
        → SameSetting first opened → IsOpenSince opened path (open_of stream.old)
        → LendsNothing (open_of stream.old) → Works (λ f. F.read_faults f || F.write_faults f)
        first opened path tree (open_of stream.old) (map stream_call_of ops.now)
        (map stream_reply_of replies.new.items) (open_of stream.new) }
{
    for op in ops {
        let reply = work(alloc, stream, op);
        // What the file keeps in memory is what its bytes say.
        let _is_failed = stream.is_failed();
        replies.push_reserved(reply);
    }
}

/// Opens the stream at this path so. It is refused as that call is.
fn opened<'f, F: Medium, A: Heap + Clone>(
    file: &'f mut CompoundFile<F, A>,
    how: Opening,
    path: &str,
) -> Result<Stream<'f, F, A>, Error>
    ensures lent { IfOk result (λ s. (file_of s).ghost_name ≡ file.entry.ghost_name) }
    ensures opened { IsTrue F.tells → IfOk result (λ s. IsOpenedBy (λ f. F.read_faults f
        || F.write_faults f) (opening_call (opening_of how) (chars path.now)) file.old
        (chars path.now) (open_of s)) }
    ensures given { IsTrue F.tells
        → IfErr result (CanBeGiven (λ f. F.read_faults f || F.write_faults f)) }
    ensures* refused { sem 𝓛 (file_rests F.row A.row F.ReadMedium F.Medium.own A.Allocator
        (λ old last e. StaysInMemoryOrFails old last × (IsTrue F.tells
        → CallKeeps (λ f. F.read_faults f || F.write_faults f) old
        (opening_call (opening_of how) (chars path.now))
        (refused (refusal_of_error e)) last)) file.entry result) }
{
    // What the file keeps in memory is what its bytes say.
    let _is_failed = file.is_failed();
    match how {
        Opening::Open => file.open_stream(path),
        Opening::Create => file.create_stream(path),
        Opening::CreateNew => file.create_new_stream(path),
    }
}

/// Opens a stream at this path, does the operations, and closes it. `Failed` on a failed file, before room is had for the replies: `Memory`;
/// then what the opening refuses.
pub(crate) fn run_on_stream<F: Medium, A: Heap + Clone>(
    alloc: &A,
    file: &mut CompoundFile<F, A>,
    how: Opening,
    path: &str,
    ops: &[StreamOp<A>],
) -> Result<(Vec<StreamReply<A>, A>, Result<(), Error>), Error>
    ensures of_kinds { IfOk result (λ works.
        map kind_of_answer works.0.items ≡ map kind_of_op ops.now) }
    ensures given { IsTrue F.tells
        → IsWorkGiven (λ f. F.read_faults f || F.write_faults f) result }
    ensures untouched { is_failed file.old ≡ true → file.new ≡ file.old }
    ensures any { WorksHeed file.old result file.new }
    ensures answers { IsTrue F.tells
        → AnswersCommand (λ f. F.read_faults f || F.write_faults f) file.old
        (on_stream (opening_of how) (chars path.now) (map stream_call_of ops.now))
        (streamed_reply result) file.new }
{
    if file.is_failed() {
        return Err(Error::Failed);
    }
    let mut replies = Vec::with_capacity(alloc.clone()?, ops.len())?;
    let mut stream = opened(file, how, path)?;
    work_all(alloc, &mut stream, ops, &mut replies);
    let closed = stream.close();
    Ok((replies, closed))
}
