//! The header and the length of a file (MS-CFB 2.2).
ghost use Rattle.std.specs.Prelude.{◌≡◌, ◌↔◌, ◌*◌, ◌≤◌, false, length, IsTrue, OnOk, IfOk, IfErr};
ghost use Rattle.cfb_format.specs.Bytes.{sector_len};
ghost use Rattle.cfb_format.specs.Refused.{IsInvalidData};
ghost use Rattle.cfb_reading.specs.PartRefused.{PartRefused};
ghost use Rattle.cfb_opening.specs.Known.{AcceptsHead, AcceptsNoHead, unchanged_sectors};

use cfb_format::consts::{HEADER_LEN, MAX_REGULAR_SECTOR};
use cfb_format::error::{Detail, Error};
use cfb_format::header::Header;
use cfb_format::laws;
use cfb_format::medium::ReadMedium;
use cfb_format::transfer::read_exact_at;
use cfb_format::validate::Validation;
use cfb_format::version::Version;
use cfb_sectors::sector::Sectors;

/// The greatest number of sectors, the header's place counted.
const MAX_SECTORS: u64 = MAX_REGULAR_SECTOR as u64 + 1;

/// The header of a file, and its length.
#[derive(Clone, Copy)]
struct Head {
    header: Header,
    /// In bytes.
    len: u64,
}

/// A file whose header was read.
#[derive(Drop)]
pub(crate) struct Headed<F: ReadMedium> {
    pub header: Header,
    pub sectors: Sectors<F>,
}

fn invalid(text: &'static str, number: u64) -> Error
    ensures { IsInvalidData result }
{
    Error::InvalidData(Detail::number(text, number))
}

/// Whether a file of this length has room for a header, and no more sectors than there are numbers.
fn has_length(version: Version, len: u64) -> bool
    ensures { IsTrue result
        ↔ ((sector_len version ≤ len) × (len ≤ 0xFFFF_FFFB * sector_len version)) }
{
    let sector_len = version.sector_len() as u64;
    sector_len <= len && len <= MAX_SECTORS * sector_len
}

/// Reads the header. `InvalidData` exactly where opening in this mode takes no header or not the length of the file; `Medium` where the
/// medium fails.
fn read_head<F: ReadMedium>(medium: &mut F, validation: Validation) -> Result<Head, Error>
    ensures fits { IfOk result (λ head. (sector_len head.header.version ≤ head.len)
        × (head.len ≤ 0xFFFF_FFFB * sector_len head.header.version)) }
    ensures same { IsTrue F.tells → F.bytes medium.new ≡ F.bytes medium.old }
    ensures len { IsTrue F.tells → IfOk result (λ head. head.len ≡ length (F.bytes medium.old)) }
    ensures ok { IsTrue F.tells
        → IfOk result (λ head. AcceptsHead validation (F.bytes medium.old) head.header) }
    ensures calm { IsTrue F.tells → OnOk result (F.failures medium.new ≡ F.failures medium.old) }
    ensures err { IfErr result
        (PartRefused F.tells F.read_faults (AcceptsNoHead validation (F.bytes medium.old))) }
{
    laws::header_is_at_the_start();
    let len = medium.length()?;
    if len < HEADER_LEN as u64 {
        return Err(invalid(
            "too short for a compound file: {} bytes, a header has 512",
            len,
        ));
    }
    let mut first = [0; HEADER_LEN];
    read_exact_at(medium, 0, &mut first)?;
    let header = Header::read_from(&first, validation)?;
    if !has_length(header.version, len) {
        return Err(invalid("no compound file has a length of {} bytes", len));
    }
    Ok(Head { header, len })
}

/// The sectors of a file, once its header was read. `InvalidData` exactly where opening in this mode takes no header or not the length of
/// the file; `Medium` where the medium fails.
pub(crate) fn open_sectors<F: ReadMedium>(
    medium: F,
    validation: Validation,
) -> Result<Headed<F>, Error>
    ensures ok { IsTrue F.tells
        → IfOk result (λ headed. AcceptsHead validation (F.bytes medium) headed.header) }
    ensures sectors { IsTrue F.tells → IfOk result (λ headed. headed.sectors
        ≡ unchanged_sectors headed.header.version (F.bytes medium) (F.failures medium)) }
    ensures unfailed { IfOk result (λ headed. headed.sectors.begun ≡ false) }
    ensures err { IfErr result
        (PartRefused F.tells F.read_faults (AcceptsNoHead validation (F.bytes medium))) }
{
    let mut medium = medium;
    let Head { header, len } = read_head(&mut medium, validation)?;
    Ok(Headed {
        header,
        sectors: Sectors::new(header.version, len, medium),
    })
}
