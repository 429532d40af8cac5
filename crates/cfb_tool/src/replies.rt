//! What is told by the reply to a command.
ghost use Rattle.std.specs.Prelude.{◌≡◌, [], chars, map, MatchOption};
ghost use Rattle.std.specs.Option.{option_map};
ghost use Rattle.cfb_commands.specs.Commands.{refusal_of_result, command_of, refusal_of_error, command_reply_of, stream_call_of, stream_reply_of};
ghost use Rattle.cfb_tool.specs.Playing.{bytes_of_work, bytes_written, last_count, path_written, taken_in};
ghost use Rattle.cfb_whole_streams.specs.Told.{first_refusal, refusal_in, refusal_of_work, taken_by_work};

use cfb_commands::command::{Command, Reply, StreamOp, StreamReply};
use cfb_format::error::Error;
use std::alloc::Allocator as Heap;

/// Why a call was refused, if it was.
fn error_of<T>(answer: &Result<T, Error>) -> Option<Error>
    ensures { option_map refusal_of_error result ≡ refusal_of_result answer.now }
{
    match answer {
        Ok(_) => None,
        Err(e) => Some(*e),
    }
}

/// Why an operation on a stream was refused, if it was.
fn error_of_work<A: Heap>(reply: &StreamReply<A>) -> Option<Error>
    ensures { option_map refusal_of_error result ≡ refusal_of_work (stream_reply_of reply.now) }
{
    match reply {
        StreamReply::Bytes(answer) => error_of(answer),
        StreamReply::Count(answer) => error_of(answer),
        StreamReply::Place(answer) => error_of(answer),
        StreamReply::Done(answer) => error_of(answer),
    }
}

/// What was refused first of the operations on a stream and of its closing.
fn first_error_of<A: Heap>(replies: &[StreamReply<A>], closed: &Result<(), Error>) -> Option<Error>
    ensures { option_map refusal_of_error result
        ≡ first_refusal (map stream_reply_of replies.now) (refusal_of_result closed.now) }
{
    for reply in replies {
        let error = error_of_work(reply);
        if error.is_some() {
            return error;
        }
    }
    error_of(closed)
}

/// What was refused first of a command: its call, or its opening, an operation or its closing.
pub(crate) fn first_error<A: Heap>(reply: &Reply<A>) -> Option<Error>
    ensures { option_map refusal_of_error result ≡ refusal_in (command_reply_of reply.now) }
{
    match reply {
        Reply::Done(answer) => error_of(answer),
        Reply::Flag(_) => None,
        Reply::Entry(answer) => error_of(answer),
        Reply::Entries(answer) => error_of(answer),
        Reply::Stream(Ok((replies, closed))) => first_error_of(replies, closed),
        Reply::Stream(Err(e)) => Some(*e),
    }
}

/// How many bytes an operation took, if it is a write.
fn taken_by<A: Heap>(reply: &StreamReply<A>) -> usize
    ensures { result ≡ taken_by_work (stream_reply_of reply.now) }
{
    match reply {
        StreamReply::Count(Ok(count)) => *count,
        StreamReply::Count(Err(_)) => 0,
        StreamReply::Bytes(_) => 0,
        StreamReply::Place(_) => 0,
        StreamReply::Done(_) => 0,
    }
}

/// How many bytes the last operation took, if it is a write.
fn last_taken<A: Heap>(replies: &[StreamReply<A>]) -> usize
    ensures { result ≡ last_count (map stream_reply_of replies.now) }
{
    match replies.split_last() {
        Some((last, _)) => taken_by(last),
        None => 0,
    }
}

/// How many bytes the last operation of a command took, if it is a write.
pub(crate) fn taken<A: Heap>(reply: &Reply<A>) -> usize
    ensures { result ≡ taken_in (command_reply_of reply.now) }
{
    match reply {
        Reply::Stream(Ok((replies, _))) => last_taken(replies),
        Reply::Stream(Err(_)) => 0,
        Reply::Done(_) => 0,
        Reply::Flag(_) => 0,
        Reply::Entry(_) => 0,
        Reply::Entries(_) => 0,
    }
}

/// The bytes that an operation writes, if it is a write.
fn bytes_of<A: Heap>(op: &StreamOp<A>) -> &[u8]
    ensures { result.now ≡ bytes_of_work (stream_call_of op.now) }
{
    match op {
        StreamOp::Write(bytes) => bytes,
        _ => &[],
    }
}

/// The path of a command on a stream, and the bytes that its last operation writes, if it is a
/// write.
pub(crate) fn written_by<A: Heap>(command: &Command<A>) -> Option<(&str, &[u8])>
    ensures { MatchOption result (bytes_written (command_of command.now) ≡ [])
        (λ w. (path_written (command_of command.now) ≡ chars w.0.now)
        × (bytes_written (command_of command.now) ≡ w.1.now)) }
{
    let Command::Stream(_, path, ops) = command else {
        return None;
    };
    let (last, _) = ops.split_last()?;
    Some((path, bytes_of(last)))
}
