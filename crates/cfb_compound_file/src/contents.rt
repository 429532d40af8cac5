//! The streams of a file, each under the number of its entry, as what buffered streams stand on (MS-CFB 2.6). Internal: programs use
//! [`Stream`] and [`ReadStream`].
ghost use Rattle.std.specs.Prelude.{◌≤◌, ◌+◌, ◌↔◌, IsTrue};
ghost use Rattle.cfb_compound_file.specs.cfb_content.Contents.{IsStreamOf, IsTooLongFor};
ghost use Rattle.cfb_agreement.specs.Files.{IsFullFile, failures_of};
ghost use Rattle.cfb_compound_file.specs.Stored.{IsTight, KeepsAllButStream, kept_of, file_setting_of, remembered_of, stored_of};

use crate::compound_file::CompoundFile;
use cfb_format::error::{Detail, Error};
use cfb_format::medium::{Medium, ReadMedium};
use cfb_stream_window::content::{Contents, ReadContents};
use std::alloc::Allocator as Heap;

impl<F: ReadMedium, A: Heap + Clone> ReadContents for CompoundFile<F, A> {
    ghost use Rattle.cfb_agreement.specs.Files.{FileState};
    ghost use Rattle.cfb_compound_file.specs.Stored.{FileSetting};

    ghost has = { λ file id. ∥ IsStreamOf file.base id ∥₁ };

    ghost tells = { λ _. IsTrue F.tells };

    ghost stored = { λ file id. stored_of file id };

    ghost Kept = { FileState };

    ghost kept = { λ file. kept_of file };

    ghost Setting = { FileSetting };

    ghost setting = { λ file. file_setting_of file };

    ghost Remembered = { FileState };

    ghost remembered = { λ file. remembered_of file };

    ghost failures = { λ file. failures_of file };

    ghost read_faults = { F.read_faults };

    fn len(&self, id: u32) -> u64 {
        self.volume.len(id)
    }

    fn limit(&self, _id: u32) -> u64 {
        self.volume.version().stream_len_mask()
    }

    fn is_sound(&self, _id: u32) -> bool {
        self.volume.is_sound()
    }

    fn is_failed(&self, _id: u32) -> bool {
        self.volume.is_failed()
    }

    fn readable(&self, id: u32) -> Result<u64, Error> {
        if self.volume.is_failed() {
            return Ok(0);
        }
        self.volume.readable(id)
    }

    fn read_at(&mut self, id: u32, at: u64, into: &mut [u8]) -> Result<usize, Error> {
        if self.volume.is_failed() {
            return Err(Error::InvalidData(Detail::text("a file that failed is not read")));
        }
        self.volume.read(id, at, into)
    }
}

impl<F: Medium, A: Heap + Clone> Contents for CompoundFile<F, A> {
    ghost use Rattle.cfb_compound_file.specs.Flags.{reads_are_tight, reads_keep, still_is_tight};

    ghost keeps = { λ id first now. KeepsAllButStream id first now };

    ghost tight = { λ old new. IsTight old new };

    ghost write_faults = { F.write_faults };

    ghost is_full = { λ file. IsFullFile file };

    ghost is_too_long = { λ file id len. IsTooLongFor file.base id len };

    fn fail(&mut self, _id: u32) {
        self.volume.fail();
    }

    fn write_at(&mut self, id: u32, at: u64, bytes: &[u8]) -> Result<usize, Error> {
        if self.volume.is_failed() {
            return Err(Error::Failed);
        }
        if !self.volume.is_sound() {
            return Err(Error::Unsound);
        }
        // The entries are in order, so that this one is known to be a stream's.
        let _entries = self.volume.entries();
        let limit = self.volume.version().stream_len_mask();
        if !is_inside(at, bytes.len() as u64, self.volume.len(id), limit) {
            return Err(Error::InvalidInput(Detail::text("a write past the end of a stream")));
        }
        self.volume.write(id, at, bytes)
    }

    fn append(&mut self, id: u32, bytes: &[u8]) -> Result<(), Error> {
        if self.volume.is_failed() {
            return Err(Error::Failed);
        }
        if !self.volume.is_sound() {
            return Err(Error::Unsound);
        }
        // The entries are in order, so that this one is known to be a stream's.
        let _entries = self.volume.entries();
        let len = self.volume.len(id);
        let limit = self.volume.version().stream_len_mask();
        if !is_inside(len, bytes.len() as u64, len, limit) {
            return Err(Error::InvalidInput(Detail::text("a stream cannot be so long")));
        }
        self.volume.append(id, bytes)
    }

    fn can_resize(&self, id: u32, len: u64) -> Result<bool, Error> {
        if self.volume.is_failed() {
            return Ok(false);
        }
        if !self.volume.is_sound() {
            return Ok(false);
        }
        // The entries are in order, so that this one is known to be a stream's.
        let _entries = self.volume.entries();
        if self.volume.version().stream_len_mask() < len {
            return Ok(false);
        }
        self.volume.can_resize(id, len)
    }

    fn resize(&mut self, id: u32, len: u64) -> Result<(), Error> {
        if self.volume.is_failed() {
            return Err(Error::Failed);
        }
        if !self.volume.is_sound() {
            return Err(Error::Unsound);
        }
        // The entries are in order, so that this one is known to be a stream's.
        let _entries = self.volume.entries();
        if self.volume.version().stream_len_mask() < len {
            return Err(Error::InvalidInput(Detail::text("a stream cannot be so long")));
        }
        self.volume.resize(id, len)
    }

    fn flush(&mut self, _id: u32) -> Result<(), Error> {
        if self.volume.is_failed() {
            return Err(Error::Failed);
        }
        self.volume.flush()
    }

    ghost reads_keep = { λ id first old new same keeps. reads_keep id first old new same keeps };

    ghost reads_are_tight = { λ first old new same tight.
        reads_are_tight first old new same tight };

    ghost still_is_tight = { λ file. still_is_tight file };
}

/// Whether so many bytes can be put at a place: it is up to the end, and they leave the stream within its greatest length.
fn is_inside(at: u64, count: u64, len: u64, limit: u64) -> bool
    ensures { IsTrue result ↔ ((at ≤ len) × (at + count ≤ limit)) }
{
    at <= len && at <= limit && count <= limit - at
}
