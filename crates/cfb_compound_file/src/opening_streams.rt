//! Streams are opened at their paths.
ghost use Rattle.std.specs.Prelude.{◌≡◌, false, IsTrue, IfOk, IfErr, OnOk, chars};
ghost use Rattle.std.specs.Borrow.{sem};
ghost use Rattle.cfb_format.specs.Refused.{IsMemory};
ghost use Rattle.cfb_compound_file.specs.cfb_rules.Calls.{done, open_read_stream, open_stream};
ghost use Rattle.cfb_compound_file.specs.cfb_content.Contents.{IsStreamOf, len_of};
ghost use Rattle.cfb_agreement.specs.Files.{Agrees, is_failed};
ghost use Rattle.cfb_stream_window.specs.Windows.{Suits, window_opened};
ghost use Rattle.cfb_path_changes.specs.Answers.{Answers, AnswersNot};
ghost use Rattle.cfb_compound_file.specs.Asking.{IsOfOpeningStream};
ghost use Rattle.cfb_compound_file.specs.OpenedStreams.{BeginsAt, IsNotFound, IsNowhere, IsOpenedAt, IsStreamAt, OpensOrNot};
ghost use Rattle.cfb_compound_file.specs.Stored.{stored_of};

use crate::compound_file::CompoundFile;
use crate::read_stream::ReadStream;
use crate::stream::Stream;
use cfb_codecs::path::stays_below_root;
use cfb_format::error::{Detail, Error};
use cfb_format::medium::{Medium, ReadMedium};
use cfb_format::objtype::ObjType;
use cfb_path_changes::finding::kind_of;
use cfb_stream_window::read_window::ReadWindow;
use cfb_stream_window::window::Window;
use std::alloc::Allocator as Heap;

/// Why nothing stands at this path.
fn nothing_at(path: &str) -> Error
    ensures { IsNowhere (chars path.now) result }
{
    if stays_below_root(path) {
        return Error::NotFound(Detail::text("nothing is at this path"));
    }
    Error::InvalidInput(Detail::text("the path leaves the root"))
}

impl<F: ReadMedium, A: Heap + Clone> CompoundFile<F, A> {
    ghost use Rattle.cfb_compound_file.specs.ReadStreams.{file_of, file_rests, open_of};

    /// The number of the entry of the stream at this path. It takes no memory.
    fn stream_at(&self, path: &str) -> Result<u32, Error>
        ensures found { IfOk result (IsStreamAt self.now (chars path.now)) }
        ensures refused { IfErr result (IsNotFound self.now (chars path.now)) }
        ensures agrees { IsTrue F.tells → Agrees self.now }
    {
        if self.volume.is_failed() {
            return Err(Error::Failed);
        }
        let Some(number) = self.volume.number_at(path) else {
            return Err(nothing_at(path));
        };
        let kind = kind_of(self.volume.entries(), number);
        match kind {
            ObjType::Stream => Ok(number),
            _ => Err(Error::InvalidInput(Detail::text("no stream is at this path"))),
        }
    }

    /// The window at the start of the stream of that entry. `Memory`.
    fn read_window(&self, entry: u32) -> Result<ReadWindow<A>, Error>
        requires unfailed { is_failed self.now ≡ false }
        requires there { IsStreamOf self.now.base entry }
        ensures value { IfOk result (λ w. w
            ≡ window_opened (len_of self.now.base entry) self.now.buffer_limit) }
        ensures suits { IsTrue F.tells → IfOk result (λ w. Suits (stored_of self.now entry) w) }
        ensures refused { IfErr result IsMemory }
    {
        let alloc = self.volume.heap().clone()?;
        ReadWindow::open(alloc, self, entry, self.volume.buffer_limit())
    }

    /// Opens the stream at this path for reading, at its start. The file does not change. The [`ReadStream`] need not be closed.
    /// [`CompoundFile::open_stream`] opens it for writing too; [`read_stream`] reads all bytes by one call.
    ///
    /// ```rust
    /// /// Reads the first bytes of a stream into the buffer, and returns how many.
    /// pub fn first_bytes<F: ReadMedium>(
    ///     file: &mut CompoundFile<F>,
    ///     path: &str,
    ///     buffer: &mut [u8],
    /// ) -> Result<usize, Error> {
    ///     let mut stream = file.open_read_stream(path)?;
    ///     stream.read(buffer)
    /// }
    /// ```
    ///
    /// # Errors
    ///
    /// `InvalidInput` if the path leaves the root or a storage is there, `NotFound` if nothing is there; `Memory` for the buffer;
    /// [`Error::Failed`] on a failed file.
    pub fn open_read_stream(&mut self, path: &str) -> Result<ReadStream<'_, F, A>, Error>
        ensures lent { IfOk result (λ s. (file_of s).ghost_name ≡ self.entry.ghost_name) }
        ensures opened { IfOk result (λ s. IsOpenedAt self.old (chars path.now) (open_of s)) }
        ensures runs { IsTrue F.tells
            → OnOk result (Answers self.old (open_read_stream (chars path.now)) done) }
        ensures begins { IsTrue F.tells
            → IfOk result (λ s. BeginsAt self.old (chars path.now) (open_of s)) }
        ensures kinds { IfErr result IsOfOpeningStream }
        ensures any { OpensOrNot self.old (chars path.now) result }
        ensures* refused { sem 𝓛 (file_rests F.row A.row F.ReadMedium A.Allocator (λ old last e.
            (last ≡ old) × (IsTrue F.tells
            → AnswersNot old (open_read_stream (chars path.now)) e)) self.entry result) }
    {
        let entry = self.stream_at(path)?;
        let window = self.read_window(entry)?;
        Ok(ReadStream {
            file: self,
            entry,
            window,
        })
    }
}

impl<F: Medium, A: Heap + Clone> CompoundFile<F, A> {
    ghost use Rattle.cfb_compound_file.specs.Streams.{file_of, file_rests, open_of};

    /// The window at the start of the stream of that entry. `Memory`.
    fn window(&self, entry: u32) -> Result<Window<A>, Error>
        requires unfailed { is_failed self.now ≡ false }
        requires there { IsStreamOf self.now.base entry }
        ensures value { IfOk result (λ w. w
            ≡ window_opened (len_of self.now.base entry) self.now.buffer_limit) }
        ensures suits { IsTrue F.tells → IfOk result (λ w. Suits (stored_of self.now entry) w) }
        ensures refused { IfErr result IsMemory }
    {
        let alloc = self.volume.heap().clone()?;
        Window::open(alloc, self, entry, self.volume.buffer_limit())
    }

    /// Opens the stream at this path for reading and writing, at its start. The file does not change. The [`Stream`] must be closed:
    /// [`Stream::close`]. If you only read, use [`CompoundFile::open_read_stream`]; if the stream is new, [`CompoundFile::create_stream`].
    ///
    /// # Errors
    ///
    /// `InvalidInput` if the path leaves the root or a storage is there, `NotFound` if nothing is there; `Memory` for the buffer;
    /// [`Error::Failed`] on a failed file.
    pub fn open_stream(&mut self, path: &str) -> Result<Stream<'_, F, A>, Error>
        ensures lent { IfOk result (λ s. (file_of s).ghost_name ≡ self.entry.ghost_name) }
        ensures opened { IfOk result (λ s. IsOpenedAt self.old (chars path.now) (open_of s)) }
        ensures runs { IsTrue F.tells
            → OnOk result (Answers self.old (open_stream (chars path.now)) done) }
        ensures begins { IsTrue F.tells
            → IfOk result (λ s. BeginsAt self.old (chars path.now) (open_of s)) }
        ensures kinds { IfErr result IsOfOpeningStream }
        ensures any { OpensOrNot self.old (chars path.now) result }
        ensures* refused { sem 𝓛 (file_rests F.row A.row F.ReadMedium F.Medium.own A.Allocator
            (λ old last e. (last ≡ old) × (IsTrue F.tells
            → AnswersNot old (open_stream (chars path.now)) e)) self.entry result) }
    {
        let entry = self.stream_at(path)?;
        let window = self.window(entry)?;
        Ok(Stream {
            file: self,
            entry,
            window,
        })
    }
}
