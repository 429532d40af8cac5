//! What can be read of a compound file, copied into an empty medium.
ghost use Rattle.std.specs.Prelude.{◌≡◌, ◌||◌, [], false, true, IsTrue, IfErr, IfOk, IsErrAnd};
ghost use Rattle.cfb_format.specs.declared.error.Error.TheVariants.{Failed};
ghost use Rattle.cfb_agreement.specs.Files.{failures_of, is_failed};
ghost use Rattle.cfb_copies.specs.Copies.{IsMadeCopy, TakesAfter};
ghost use Rattle.cfb_copies.specs.Salvaged.{IsSalvaged, RefusesCut, SalvageRefused};
ghost use Rattle.cfb_copies.specs.Steps.{CountsEither, IsReadOnly, ReadsSource};
ghost use Rattle.cfb_compound_file.specs.Opening.{permissive_options};

use crate::compound_file::CompoundFile;
use crate::options::DEFAULT_BUFFER_SIZE;
pub use cfb_copies::salvaging::Extent;
use cfb_copies::salvaging::salvage_volume;
use cfb_format::error::Error;
use cfb_format::medium::{Medium, ReadMedium};
use std::alloc::{Allocator as Heap, Global};

/// What could be read of a compound file, as a file of its own: what [`CompoundFile::salvage_to`] returns.
#[derive(Drop)]
pub struct Salvaged<W: ReadMedium, A: Heap = Global> {
    /// The new file.
    pub file: CompoundFile<W, A>,
    /// For each stream how many of its bytes the new file has ([`Extent::kept`]), and how many its directory entry says ([`Extent::len`]).
    /// The streams are in the order of [`CompoundFile::walk`].
    pub extents: Vec<Extent, A>,
}

impl<F: ReadMedium, A: Heap + Clone> CompoundFile<F, A> {
    /// Copies what can be read into an empty medium: every storage and stream with its name, class ID, state bits and timestamps, and of
    /// each stream the longest prefix that can be read. The copy is laid out as one of [`CompoundFile::copy_to`], which fails if a byte is
    /// lost. [`CompoundFile::flaws`] tells what is wrong with the file.
    ///
    /// ```rust
    /// /// Copies what can be read into a new file, and returns it with the number of bytes that are lost.
    /// pub fn salvage<F: ReadMedium>(
    ///     alloc: Global,
    ///     damaged: &mut CompoundFile<F>,
    /// ) -> Result<(Vec<u8>, u64), Error> {
    ///     let Salvaged { file, extents } = damaged.salvage_to(MemoryMedium::new(alloc))?;
    ///     let mut lost: u64 = 0;
    ///     for stream in extents {
    ///         lost = lost.saturating_add(stream.len.saturating_sub(stream.kept));
    ///     }
    ///     Ok((file.into_inner().into_bytes(), lost))
    /// }
    /// ```
    ///
    /// # Errors
    ///
    /// - [`Error::Full`]: no file of this version has room for what can be read. Nothing is written then.
    /// - [`Error::Failed`]: an earlier change failed midway ([`CompoundFile::is_failed`]).
    /// - `Medium`: one of the two media failed.
    /// - `Memory`: out of memory.
    ///
    /// The file itself does not change.
    pub fn salvage_to<W: Medium>(&mut self, dest: W) -> Result<Salvaged<W, A>, Error>
        requires empty_medium { IsTrue W.tells → W.bytes dest ≡ [] }
        ensures reads { ReadsSource F.tells F.read_faults W.tells (λ f. W.read_faults f ||
            W.write_faults f) self.old self.new result }
        ensures after { IfOk result (λ new.
            TakesAfter permissive_options.buffer_limit self.old new.file) }
        ensures made { IsTrue W.tells → IfOk result (λ new. IsMadeCopy (W.failures dest) new.file) }
        ensures salvaged { IsTrue F.tells
            → IfOk result (λ new. IsSalvaged W.tells self.old new.file new.extents.items) }
        ensures failed { is_failed self.old ≡ true → IsErrAnd result (λ e. e ≡ Failed) }
        ensures full { IsTrue F.tells → is_failed self.old ≡ false → RefusesCut self.old result }
        ensures err { IsTrue F.tells → IsTrue W.tells → IfErr result (SalvageRefused self.old) }
    {
        let salvaged = salvage_volume(&mut self.volume, dest, DEFAULT_BUFFER_SIZE)?;
        let cfb_copies::salvaging::Salvaged { volume, extents } = salvaged;
        Ok(Salvaged {
            file: CompoundFile { volume },
            extents,
        })
    }
}
