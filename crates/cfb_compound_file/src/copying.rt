//! A compound file copied into an empty medium.
ghost use Rattle.std.specs.Prelude.{◌≡◌, ◌||◌, [], false, true, IsTrue, IfErr, IfOk, IsErrAnd, OnOk};
ghost use Rattle.cfb_format.specs.declared.error.Error.TheVariants.{Failed};
ghost use Rattle.cfb_agreement.specs.Files.{failures_of, is_failed};
ghost use Rattle.cfb_copies.specs.Copies.{CanBeCopied, CopyRefused, IsMadeCopy, MeansTheSame, RefusesUnless, TakesAfter, IsCopyOf};
ghost use Rattle.cfb_copies.specs.Steps.{CountsEither, IsReadOnly, ReadsSource};
ghost use Rattle.cfb_compound_file.specs.Opening.{permissive_options};

use crate::compound_file::CompoundFile;
use crate::options::DEFAULT_BUFFER_SIZE;
use cfb_copies::copying::copy_volume;
use cfb_format::error::Error;
use cfb_format::medium::{Medium, ReadMedium};
use std::alloc::Allocator as Heap;

impl<F: ReadMedium, A: Heap + Clone> CompoundFile<F, A> {
    /// Copies the whole tree into an empty medium. The copy has the same version, case mapping and tree. No sector in it is free or leaked.
    /// Its limits, and the bytes of its header that nobody reads, are those of a file from [`CompoundFile::create`]. An inconsistent file
    /// is copied too if each of its streams can be read to its end, and the copy is consistent.
    ///
    /// Afterwards [`CompoundFile::into_inner`] of the copy returns its medium. [`copy_stream`] copies one stream.
    ///
    /// # Errors
    ///
    /// - [`Error::InvalidData`]: a stream cannot be read to its end; [`CompoundFile::salvage_to`] copies what can be read.
    /// - [`Error::Full`]: no file of this version has room for the tree. Nothing is written then.
    /// - [`Error::Failed`]: an earlier change failed midway ([`CompoundFile::is_failed`]).
    /// - `Medium`: one of the two media failed.
    /// - `Memory`: out of memory.
    ///
    /// The file itself does not change.
    pub fn copy_to<W: Medium>(&mut self, dest: W) -> Result<CompoundFile<W, A>, Error>
        requires empty_medium { IsTrue W.tells → W.bytes dest ≡ [] }
        ensures reads { ReadsSource F.tells F.read_faults W.tells (λ f. W.read_faults f ||
            W.write_faults f) self.old self.new result }
        ensures copy { IsCopyOf W.tells permissive_options.buffer_limit (W.failures dest) self.old
            result }
        ensures tree { IsTrue F.tells → IsTrue W.tells → IfOk result (MeansTheSame self.old) }
        ensures failed { is_failed self.old ≡ true → IsErrAnd result (λ e. e ≡ Failed) }
        ensures allowed { IsTrue F.tells → OnOk result (CanBeCopied self.old) }
        ensures unless { IsTrue F.tells → is_failed self.old ≡ false
            → RefusesUnless self.old result }
        ensures err { IsTrue F.tells → IsTrue W.tells → IfErr result (CopyRefused self.old) }
    {
        let volume = copy_volume(&mut self.volume, dest, DEFAULT_BUFFER_SIZE)?;
        Ok(CompoundFile { volume })
    }
}
