//! New streams in a compound file.
ghost use Rattle.std.specs.Prelude.{◌≡◌, ◌||◌, [], max, Err, IsTrue, IfOk, IfErr, chars};
ghost use Rattle.std.specs.Borrow.{sem};
ghost use Rattle.cfb_format.specs.Refused.{IsMemory};
ghost use Rattle.cfb_compound_file.specs.cfb_rules.Calls.{create_new_stream, create_stream};
ghost use Rattle.cfb_compound_file.specs.Adding.{IsCreatedBy, MakesStream};
ghost use Rattle.cfb_compound_file.specs.StreamAnswers.{open_stream_of};
ghost use Rattle.cfb_path_changes.specs.Adding.{creation};
ghost use Rattle.cfb_path_changes.specs.Answers.{IsRefusedBy};
ghost use Rattle.cfb_path_changes.specs.Calls.{HeedsFlags};

use crate::compound_file::CompoundFile;
use crate::stream::Stream;
use cfb_codecs::timestamp::Timestamp;
use cfb_format::error::Error;
use cfb_format::medium::{Medium, ReadMedium};
use cfb_path_changes::placing::{Creation, fill_place, place_at};
use cfb_stream_window::buffer::StreamBuffer;
use cfb_stream_window::window::Window;
use std::alloc::Allocator as Heap;

impl<F: ReadMedium, A: Heap + Clone> CompoundFile<F, A> {
    /// A buffer for a new stream, that holds nothing. `Memory`.
    fn new_buffer(&self) -> Result<StreamBuffer<A>, Error>
        ensures ok { IfOk result (λ b. b ≡ record {
          filled = [];
          cursor = 0;
          room = 1024;
          bound = max 1024 self.now.buffer_limit;
        }) }
        ensures refused { IfErr result IsMemory }
    {
        let alloc = self.volume.heap().clone()?;
        Ok(StreamBuffer::new(alloc, self.volume.buffer_limit())?)
    }
}

impl<F: Medium, A: Heap + Clone> CompoundFile<F, A> {
    /// Makes an empty stream at this path, or empties the one that is there where that may be, and answers the number of its entry with the
    /// window at its start, whose buffer is had before anything changes.
    fn add_stream(&mut self, path: &str, what: Creation) -> Result<(u32, Window<A>), Error>
        requires stream { MakesStream what }
        ensures created { IfOk result (λ s. IsCreatedBy F.tells self.old (creation what 0
            (chars path.now)) (chars path.now) (open_stream_of self.new s.0 s.1)) }
        ensures any { HeedsFlags self.old result self.new }
        ensures refused { IsTrue F.tells → IfErr result (IsRefusedBy (λ f. F.read_faults f
            || F.write_faults f) self.old (creation what 0 (chars path.now)) self.new) }
    {
        let place = place_at(&self.volume, path, what)?;
        let buffer = self.new_buffer()?;
        let entry = fill_place(&mut self.volume, place, what, Timestamp::zero())?;
        let window = Window::over(buffer, self, entry);
        Ok((entry, window))
    }
}

impl<F: Medium, A: Heap + Clone> CompoundFile<F, A> {
    ghost use Rattle.cfb_compound_file.specs.Streams.{file_of, file_rests, open_of};

    /// Creates an empty stream at this path and opens it for reading and writing, at its start. A stream that is there is emptied; it keeps
    /// its name and its state bits (MS-CFB 2.6.1). The [`Stream`] must be closed: [`Stream::close`].
    ///
    /// If a stream that is there must stay, use [`CompoundFile::create_new_stream`]; to change its bytes, [`CompoundFile::open_stream`].
    /// [`write_stream`] writes a whole stream by one call.
    ///
    /// # Errors
    ///
    /// These change nothing:
    ///
    /// - `InvalidInput`: the path leaves the root, its last name is invalid, or its parent is a stream.
    /// - `AlreadyExists`: a storage or the root is at the path.
    /// - `NotFound`: the parent storage is missing; [`CompoundFile::create_storage_all`] creates it.
    /// - [`Error::Unsound`]: the file is inconsistent; [`CompoundFile::flaws`] tells why.
    /// - [`Error::Full`]: no directory entry can be allocated.
    /// - `Memory`: out of memory.
    /// - [`Error::Failed`]: an earlier change failed midway ([`CompoundFile::is_failed`]).
    ///
    /// After `Medium` the file is unchanged, or it has failed ([`CompoundFile::is_failed`]).
    pub fn create_stream(&mut self, path: &str) -> Result<Stream<'_, F, A>, Error>
        ensures lent { IfOk result (λ s. (file_of s).ghost_name ≡ self.entry.ghost_name) }
        ensures created { IfOk result (λ s. IsCreatedBy F.tells self.old
            (create_stream (chars path.now)) (chars path.now) (open_of s)) }
        ensures* refused { sem 𝓛 (file_rests F.row A.row F.ReadMedium F.Medium.own A.Allocator
            (λ old last e. HeedsFlags {T = Unit {0}} old (Err e) last × (IsTrue F.tells
            → IsRefusedBy (λ f. F.read_faults f || F.write_faults f) old
            (create_stream (chars path.now)) last e)) self.entry result) }
    {
        let (entry, window) = self.add_stream(path, Creation::EmptyStream)?;
        Ok(Stream {
            file: self,
            entry,
            window,
        })
    }

    /// Creates an empty stream at this path, where nothing is, and opens it for reading and writing, at its start. The [`Stream`] must be
    /// closed: [`Stream::close`]. [`CompoundFile::create_stream`] also empties a stream that is there.
    ///
    /// # Errors
    ///
    /// As [`CompoundFile::create_stream`]; also `AlreadyExists` if a stream is at the path, which stays as it is.
    pub fn create_new_stream(&mut self, path: &str) -> Result<Stream<'_, F, A>, Error>
        ensures lent { IfOk result (λ s. (file_of s).ghost_name ≡ self.entry.ghost_name) }
        ensures created { IfOk result (λ s. IsCreatedBy F.tells self.old
            (create_new_stream (chars path.now)) (chars path.now) (open_of s)) }
        ensures* refused { sem 𝓛
            (file_rests F.row A.row F.ReadMedium F.Medium.own A.Allocator (λ old last e.
            HeedsFlags {T = Unit {0}} old (Err e) last × (IsTrue F.tells
            → IsRefusedBy (λ f. F.read_faults f || F.write_faults f) old
            (create_new_stream (chars path.now)) last e)) self.entry result) }
    {
        let (entry, window) = self.add_stream(path, Creation::NewStream)?;
        Ok(Stream {
            file: self,
            entry,
            window,
        })
    }
}
