//! All that is read of a file when it is opened (MS-CFB 2.2 to 2.6).
ghost use Rattle.std.specs.Prelude.{◌≡◌, false, IsTrue, IfOk, IfErr};
ghost use Rattle.cfb_format.specs.Names.{Cases};
ghost use Rattle.cfb_codecs.specs.EntryModel.{entries_of};
ghost use Rattle.cfb_reading.specs.PartRefused.{PartRefused};
ghost use Rattle.cfb_opening.specs.Acceptable.{IsRefused};
ghost use Rattle.cfb_opening.specs.Known.{KnowsParts};

use crate::tables::{Tabled, open_tables};
use cfb_alloc::alloc::Allocator;
use cfb_codecs::direntry::DirEntry;
use cfb_format::error::Error;
use cfb_format::header::Header;
use cfb_format::medium::ReadMedium;
use cfb_format::validate::Validation;
use cfb_reading::minifat::read_minifat_words;
use cfb_reading::slots::read_entries;
use std::alloc::Allocator as Heap;

/// A file of which all is read that opening reads.
#[derive(Drop)]
pub(crate) struct FileParts<F: ReadMedium, A: Heap> {
    pub header: Header,
    pub allocator: Allocator<F, A>,
    /// No word of the FAT points past the file, those of listed FAT and DIFAT sectors aside.
    pub points_into_file: bool,
    /// The entries in all slots of the directory.
    pub entries: Vec<DirEntry<A>, A>,
    /// All words of the MiniFAT's sectors.
    pub minifat_words: Vec<u32, A>,
}

/// Reads the header, the tables, the directory's entries and the MiniFAT's words. `InvalidData` only where opening in this mode refuses the
/// bytes, `Medium` where the medium fails, and `Memory`.
pub(crate) fn read_parts<F: ReadMedium, A: Heap + Clone>(
    heap: &A,
    medium: F,
    validation: Validation,
) -> Result<FileParts<F, A>, Error>
    ensures ok { IsTrue F.tells → IfOk result (λ parts.
        KnowsParts validation (F.bytes medium) (F.failures medium) parts.header parts.allocator
        parts.points_into_file (entries_of parts.entries.items) parts.minifat_words.items) }
    ensures unfailed { IfOk result (λ parts. parts.allocator.file.begun ≡ false) }
    ensures err { IfErr result (PartRefused F.tells F.read_faults ((cases : Cases)
        → IsRefused validation cases (F.bytes medium))) }
{
    let Tabled {
        header,
        mut allocator,
        points_into_file,
    } = open_tables(heap, medium, validation)?;
    let entries = read_entries(heap, &mut allocator, header.first_dir_sector, validation)?;
    let minifat_words = read_minifat_words(heap, &mut allocator, header.first_minifat_sector)?;
    Ok(FileParts {
        header,
        allocator,
        points_into_file,
        entries,
        minifat_words,
    })
}
