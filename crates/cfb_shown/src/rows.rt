//! All fields of objects as rows of text.
ghost use Rattle.std.specs.Prelude.{chars, OnOk};
ghost use Rattle.std.specs.Io.KnownBytes.{Appends};
ghost use Rattle.cfb_codecs.specs.EntryModel.{entry_of};
ghost use Rattle.cfb_listing.specs.Told.{entry_info};
ghost use Rattle.cfb_shown.specs.Rows.{row_text};

use crate::entry_fields::{StateBits, class_id_of, kind_of, len_of, moment_in};
use crate::plain::write_shown;
use cfb_codecs::direntry::DirEntry;
use std::alloc::Allocator as Heap;
use std::io;
use std::io::Write;

/// Writes the row of an object that has this path: `d` or `f`, the length in bytes, the class ID, the state bits, the creation time and
/// the modification time as [`to_iso`] writes them, and the path as it is shown, with tabs between.
pub(crate) fn write_row<A: Heap, W: Write>(
    entry: &DirEntry<A>,
    path: &str,
    out: &mut W,
) -> io::Result<()>
    ensures { OnOk result (Appends (W.contents out.old) (W.contents out.new)
        (row_text (entry_info (chars path.now) (entry_of entry.now)))) }
{
    let kind = kind_of(entry);
    let len = len_of(entry);
    let class_id = class_id_of(entry);
    let bits = StateBits(entry.state_bits);
    let created = moment_in(entry, entry.creation_time);
    let modified = moment_in(entry, entry.modified_time);
    write!(
        out,
        "{kind}\t{len}\t{class_id}\t{bits}\t{created}\t{modified}\t"
    )?;
    write_shown(path, out)?;
    out.write_all(b"\n")
}
