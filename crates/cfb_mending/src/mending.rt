//! Which words of a file that was cut short lead past its end.
ghost use Rattle.std.specs.Prelude.{◌≡◌, length, IsTrue, IfOk};
ghost use Rattle.cfb_format.specs.Bytes.{sector_count, word_at};
ghost use Rattle.cfb_format.specs.Header.{HasFixedFields};
ghost use Rattle.cfb_mending.specs.Tables.{MendsTables};
ghost use Rattle.cfb_mending.specs.WholeFile.{MendsAll};

use crate::bounds::Bounds;
use crate::loaded::read_whole;
use crate::patches::Mended;
use crate::scan::Scan;
use crate::tables::Tables;
use cfb_format::consts::HEADER_LEN;
use cfb_format::error::{Detail, Error};
use cfb_format::header::Header;
use cfb_format::medium::ReadMedium;
use cfb_format::validate::Validation;
use std::alloc::Allocator as Heap;

// Where the header has the first sectors of the directory and the MiniFAT (MS-CFB 2.2).
const FIRST_DIR_AT: u64 = 48;

const FIRST_MINIFAT_AT: u64 = 60;

/// The header, and how many sectors there are. `InvalidData` where there is none.
fn start<F: ReadMedium>(medium: &mut F) -> Result<(Header, Bounds), Error>
    ensures same { IsTrue F.tells → F.bytes medium.new ≡ F.bytes medium.old }
    ensures version { IsTrue F.tells → IfOk result (λ started.
        HasFixedFields (F.bytes medium.old) started.1.version) }
    ensures len { IsTrue F.tells → IfOk result (λ started.
        started.1.len ≡ length (F.bytes medium.old)) }
    ensures sectors { IsTrue F.tells → IfOk result (λ started. started.1.sectors
        ≡ sector_count started.1.version (F.bytes medium.old)) }
    ensures counted { IsTrue F.tells → IfOk result (λ started. started.0.num_fat_sectors
        ≡ word_at (F.bytes medium.old) 44) }
{
    let len = medium.length()?;
    if len < HEADER_LEN as u64 {
        return Err(Error::InvalidData(Detail::number(
            "too short for a compound file: {} bytes, a header has 512",
            len,
        )));
    }
    let mut first = [0; HEADER_LEN];
    read_whole(medium, 0, &mut first)?;
    let header = Header::read_from(&first, Validation::Permissive)?;
    Ok((header, Bounds::of(header.version, len)))
}

/// The file with those words set that lead past its end: what the FAT says of sectors that are not there is free, the lists of FAT and
/// DIFAT sectors, the directory, the MiniFAT and all chains end where the file does, and no link leads to a slot that is missing. A last
/// sector of a table is read to its end, where it is cut short: what is missing of it ends chains, is free, or is an entry that is none. No
/// other bytes are read otherwise than those of tables, and none behind the end of the file.
///
/// # Errors
///
/// `InvalidData` where it has no header, `Memory`, and `Medium` where the medium fails.
pub fn mended<F: ReadMedium, A: Heap + Clone>(heap: A, medium: F) -> Result<Mended<F, A>, Error>
    ensures same { IsTrue F.tells → IfOk result (λ new. F.bytes new.medium ≡ F.bytes medium) }
    ensures tables { IsTrue F.tells
        → IfOk result (λ new. MendsTables (F.bytes medium) new.patches.items new.least) }
    ensures exact { IsTrue F.tells → IfOk result (λ new.
        MendsAll (F.bytes medium) new.patches.items new.least new.lost) }
{
    let mut medium = medium;
    let (header, bounds) = start(&mut medium)?;
    let patches = Vec::new(heap.clone()?);
    let mut scan = Scan {
        medium,
        patches,
        heap,
    };
    let fat = scan.list_fat(bounds, &header)?;
    let tables = Tables { bounds, fat };
    scan.mend_fat(&tables)?;
    let directory = scan.mend_chain(&tables, FIRST_DIR_AT)?;
    let (lost, root_len) = scan.mend_directory(&tables, &directory)?;
    let minifat = scan.mend_chain(&tables, FIRST_MINIFAT_AT)?;
    let len = scan.minifat_len(&tables, &minifat, root_len / 64)?;
    scan.mend_minifat(&tables, &minifat, len)?;
    let least = scan.least(&tables, &directory, &minifat)?;
    let Scan {
        medium,
        patches,
        heap: _,
    } = scan;
    Ok(Mended {
        medium,
        patches,
        least,
        lost,
    })
}
