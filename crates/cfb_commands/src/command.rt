//! Commands on a compound file, and their replies.
use cfb_codecs::timestamp::Timestamp;
use cfb_format::error::Error;
use cfb_listing::entry::Entry as Told;
use std::alloc::{AllocError, Allocator as Heap, Global};
use std::io::SeekFrom;
use uuid::Uuid;

/// How a [`Command::Stream`] opens its stream.
#[derive(Clone, Copy, Debug, PartialEq, Eq)]
pub enum Opening {
    /// One that is there, by [`CompoundFile::open_stream`].
    Open,
    /// A new one, or the one that is there, emptied, by [`CompoundFile::create_stream`].
    Create,
    /// A new one, by [`CompoundFile::create_new_stream`].
    CreateNew,
}

/// An operation on the open stream of a [`Command::Stream`]; its result is a [`StreamReply`]. Lengths and offsets are in bytes.
#[derive(Debug, PartialEq, Drop)]
pub enum StreamOp<A: Heap = Global> {
    /// [`Stream::read`]: reads at most this many bytes at the position.
    Read(usize),
    /// [`Stream::read_to_end`]: reads the bytes from the position to the end.
    ReadToEnd,
    /// [`Stream::write`]: writes the first of these bytes at the position.
    Write(Vec<u8, A>),
    /// [`Stream::seek`]: moves the position.
    Seek(SeekFrom),
    /// [`Stream::set_len`]: cuts the stream to this length, or appends zeros.
    SetLen(u64),
    /// [`Stream::flush`]: writes what is buffered, and flushes the medium.
    Flush,
    /// [`Stream::position`].
    Position,
    /// [`Stream::len`].
    Len,
}

impl<A: Heap + Clone> Clone for StreamOp<A> {
    ghost use Rattle.std.specs.Prelude.{◌≡◌};
    ghost use Rattle.cfb_commands.specs.Commands.{stream_call_of};

    ghost is_clone = { λ old new. stream_call_of new ≡ stream_call_of old };

    /// The same operation, with memory of its own. `AllocError` if there is none.
    #[tactic(auto, using(crate::proofs::Cloned::same_bytes))]
    fn clone(&self) -> Result<StreamOp<A>, AllocError> {
        match self {
            StreamOp::Read(wanted) => Ok(StreamOp::Read(*wanted)),
            StreamOp::ReadToEnd => Ok(StreamOp::ReadToEnd),
            StreamOp::Write(bytes) => Ok(StreamOp::Write(bytes.clone()?)),
            StreamOp::Seek(to) => Ok(StreamOp::Seek(*to)),
            StreamOp::SetLen(len) => Ok(StreamOp::SetLen(*len)),
            StreamOp::Flush => Ok(StreamOp::Flush),
            StreamOp::Position => Ok(StreamOp::Position),
            StreamOp::Len => Ok(StreamOp::Len),
        }
    }
}

/// A call of [`CompoundFile`] with its arguments; or what is done with one stream, from its opening to its closing. [`run`] runs a list of
/// them; the result of each is a [`Reply`].
#[derive(Debug, PartialEq, Drop)]
pub enum Command<A: Heap = Global> {
    /// [`CompoundFile::create_storage`]: the path, and the new storage's timestamps.
    CreateStorage(String<A>, Timestamp),
    /// [`CompoundFile::create_storage_all`]: the path, and the timestamps of each new storage.
    CreateStorageAll(String<A>, Timestamp),
    /// [`CompoundFile::remove_storage`]: the path.
    RemoveStorage(String<A>),
    /// [`CompoundFile::remove_storage_all`]: the path.
    RemoveStorageAll(String<A>),
    /// [`CompoundFile::remove_stream`]: the path.
    RemoveStream(String<A>),
    /// [`CompoundFile::set_storage_clsid`]: the path, and the class ID.
    SetStorageClsid(String<A>, Uuid),
    /// [`CompoundFile::set_state_bits`]: the path, and the state bits.
    SetStateBits(String<A>, u32),
    /// [`CompoundFile::set_created_time`]: the path, and the timestamp.
    SetCreatedTime(String<A>, Timestamp),
    /// [`CompoundFile::set_modified_time`]: the path, and the timestamp.
    SetModifiedTime(String<A>, Timestamp),
    /// [`CompoundFile::touch`]: the path, and the timestamp.
    Touch(String<A>, Timestamp),
    /// [`CompoundFile::flush`].
    Flush,
    /// [`CompoundFile::exists`]: the path.
    Exists(String<A>),
    /// [`CompoundFile::is_stream`]: the path.
    IsStream(String<A>),
    /// [`CompoundFile::is_storage`]: the path.
    IsStorage(String<A>),
    /// [`CompoundFile::entry`]: the path.
    Entry(String<A>),
    /// [`CompoundFile::read_storage`]: the path.
    ReadStorage(String<A>),
    /// [`CompoundFile::walk_storage`]: the path.
    WalkStorage(String<A>),
    /// How a stream is opened, its path, and what is done with it before it is closed.
    Stream(Opening, String<A>, Vec<StreamOp<A>, A>),
}

impl<A: Heap + Clone> Clone for Command<A> {
    ghost use Rattle.std.specs.Prelude.{◌≡◌};
    ghost use Rattle.cfb_commands.specs.Commands.{command_of};

    ghost is_clone = { λ old new. command_of new ≡ command_of old };

    /// The same command, with memory of its own. `AllocError` if there is none.
    #[tactic(auto, using(crate::proofs::Cloned::same_calls))]
    fn clone(&self) -> Result<Command<A>, AllocError> {
        match self {
            Command::CreateStorage(path, moment) => Ok(Command::CreateStorage(
                path.clone()?,
                *moment,
            )),
            Command::CreateStorageAll(path, moment) => Ok(Command::CreateStorageAll(
                path.clone()?,
                *moment,
            )),
            Command::RemoveStorage(path) => Ok(Command::RemoveStorage(path.clone()?)),
            Command::RemoveStorageAll(path) => Ok(Command::RemoveStorageAll(path.clone()?)),
            Command::RemoveStream(path) => Ok(Command::RemoveStream(path.clone()?)),
            Command::SetStorageClsid(path, clsid) => Ok(Command::SetStorageClsid(
                path.clone()?,
                *clsid,
            )),
            Command::SetStateBits(path, bits) => Ok(Command::SetStateBits(path.clone()?, *bits)),
            Command::SetCreatedTime(path, moment) => Ok(Command::SetCreatedTime(
                path.clone()?,
                *moment,
            )),
            Command::SetModifiedTime(path, moment) => Ok(Command::SetModifiedTime(
                path.clone()?,
                *moment,
            )),
            Command::Touch(path, moment) => Ok(Command::Touch(path.clone()?, *moment)),
            Command::Flush => Ok(Command::Flush),
            Command::Exists(path) => Ok(Command::Exists(path.clone()?)),
            Command::IsStream(path) => Ok(Command::IsStream(path.clone()?)),
            Command::IsStorage(path) => Ok(Command::IsStorage(path.clone()?)),
            Command::Entry(path) => Ok(Command::Entry(path.clone()?)),
            Command::ReadStorage(path) => Ok(Command::ReadStorage(path.clone()?)),
            Command::WalkStorage(path) => Ok(Command::WalkStorage(path.clone()?)),
            Command::Stream(how, path, ops) => Ok(Command::Stream(
                *how,
                path.clone()?,
                ops.clone()?,
            )),
        }
    }
}

/// The result of one [`StreamOp`] on an open stream. Its errors are those of the call.
#[derive(Debug, PartialEq, Drop)]
pub enum StreamReply<A: Heap = Global> {
    /// To [`StreamOp::Read`] and [`StreamOp::ReadToEnd`]: the bytes.
    Bytes(Result<Vec<u8, A>, Error>),
    /// To [`StreamOp::Write`]: how many of the bytes were written.
    Count(Result<usize, Error>),
    /// To [`StreamOp::Seek`] and [`StreamOp::Position`] the position, and to [`StreamOp::Len`] the length.
    Place(Result<u64, Error>),
    /// To [`StreamOp::SetLen`] and [`StreamOp::Flush`].
    Done(Result<(), Error>),
}

/// The result of one [`Command`]. Its errors are those of the call.
#[derive(Debug, PartialEq, Drop)]
pub enum Reply<A: Heap = Global> {
    /// To a call that changes the file, and to [`Command::Flush`].
    Done(Result<(), Error>),
    /// To [`Command::Exists`], [`Command::IsStream`] and [`Command::IsStorage`].
    Flag(bool),
    /// To [`Command::Entry`]: the entry.
    Entry(Result<Told<A>, Error>),
    /// To [`Command::ReadStorage`] and [`Command::WalkStorage`]: the entries, in order.
    Entries(Result<Vec<Told<A>, A>, Error>),
    /// To [`Command::Stream`]: the result of each operation, and of closing; or why the stream was not opened.
    Stream(Result<(Vec<StreamReply<A>, A>, Result<(), Error>), Error>),
}
