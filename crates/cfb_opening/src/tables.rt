//! The FAT and the DIFAT of a file (MS-CFB 2.3 and 2.5).
ghost use Rattle.std.specs.Prelude.{◌≡◌, false, IsTrue, IfOk, IfErr};
ghost use Rattle.cfb_format.specs.Names.{Cases};
ghost use Rattle.cfb_reading.specs.PartRefused.{PartRefused};
ghost use Rattle.cfb_opening.specs.Acceptable.{IsRefused};
ghost use Rattle.cfb_opening.specs.Known.{KnowsTables};

use crate::head::{Headed, open_sectors};
use cfb_alloc::alloc::Allocator;
use cfb_format::error::Error;
use cfb_format::header::Header;
use cfb_format::medium::ReadMedium;
use cfb_format::validate::Validation;
use cfb_reading::difat::{TableSectors, read_difat};
use cfb_reading::fat_words::{FatWords, read_fat_words};
use std::alloc::Allocator as Heap;

/// A file whose tables were read.
#[derive(Drop)]
pub(crate) struct Tabled<F: ReadMedium, A: Heap> {
    pub header: Header,
    pub allocator: Allocator<F, A>,
    /// No word of the FAT points past the file, those of listed FAT and DIFAT sectors aside.
    pub points_into_file: bool,
}

/// Reads the header and the tables. `InvalidData` only where opening in this mode refuses the bytes, `Medium` where the medium fails, and
/// `Memory`.
pub(crate) fn open_tables<F: ReadMedium, A: Heap + Clone>(
    heap: &A,
    medium: F,
    validation: Validation,
) -> Result<Tabled<F, A>, Error>
    ensures ok { IsTrue F.tells → IfOk result (λ tabled. KnowsTables validation (F.bytes medium)
        (F.failures medium) tabled.header tabled.allocator tabled.points_into_file) }
    ensures unfailed { IfOk result (λ tabled. tabled.allocator.file.begun ≡ false) }
    ensures err { IfErr result (PartRefused F.tells F.read_faults ((cases : Cases)
        → IsRefused validation cases (F.bytes medium))) }
{
    let Headed {
        header,
        mut sectors,
    } = open_sectors(medium, validation)?;
    let TableSectors {
        fat_sectors,
        difat_sectors,
    } = read_difat(heap, &mut sectors, &header, validation)?;
    let FatWords {
        words,
        points_into_file,
    } = read_fat_words(heap, &mut sectors, &fat_sectors, &difat_sectors, validation)?;
    let allocator = Allocator::new(
        heap.clone()?,
        sectors,
        difat_sectors,
        fat_sectors,
        words,
        validation,
    )?;
    Ok(Tabled {
        header,
        allocator,
        points_into_file,
    })
}
