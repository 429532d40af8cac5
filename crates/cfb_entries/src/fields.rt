//! The fields of an entry that a change may set (MS-CFB 2.6.1).
ghost use Rattle.std.specs.Prelude.{◌≡◌, ℕ, ◌<◌, length};
ghost use Rattle.cfb_codecs.specs.EntryModel.{entry_of, entries_of};
ghost use Rattle.cfb_format.specs.Siblings.{entry_at};
ghost use Rattle.cfb_entries.specs.Fields.{fields_in, entry_with_fields, entries_with_fields};

use cfb_codecs::direntry::DirEntry;
use cfb_codecs::timestamp::Timestamp;
use std::alloc::Allocator;
use uuid::Uuid;

/// What a change of an entry may set; name, kind, links and colour are none of them.
#[derive(Clone, Copy)]
pub struct Fields {
    /// The class id of a storage or the root.
    pub clsid: Uuid,
    /// Bits that a program may set as it likes.
    pub state_bits: u32,
    /// When a storage was made.
    pub creation_time: Timestamp,
    /// When a storage was changed last.
    pub modified_time: Timestamp,
    /// The number of a stream's first sector, or of its first mini sector; of the root, the first sector of the mini stream.
    pub start_sector: u32,
    /// The length of a stream, in bytes; of the root, the length of the mini stream.
    pub stream_len: u64,
}

/// The fields of an entry.
fn fields_of<A: Allocator>(entry: &DirEntry<A>) -> Fields
    ensures { result ≡ fields_in (entry_of entry.now) }
{
    Fields {
        clsid: entry.clsid,
        state_bits: entry.state_bits,
        creation_time: entry.creation_time,
        modified_time: entry.modified_time,
        start_sector: entry.start_sector,
        stream_len: entry.stream_len,
    }
}

/// Gives an entry these fields.
fn put_fields<A: Allocator>(entry: &mut DirEntry<A>, fields: Fields)
    ensures { entry_of entry.new ≡ entry_with_fields (entry_of entry.old) fields }
{
    entry.clsid = fields.clsid;
    entry.state_bits = fields.state_bits;
    entry.creation_time = fields.creation_time;
    entry.modified_time = fields.modified_time;
    entry.start_sector = fields.start_sector;
    entry.stream_len = fields.stream_len;
}

/// Gives the entry of that number the fields that the closure makes of its own.
pub(crate) fn change_fields<A: Allocator, W: FnOnce(Fields) -> Fields>(
    list: &mut [DirEntry<A>],
    number: u32,
    change: W,
)
    requires inside { number < length list.old }
    requires callable { W.IsAlwaysCallable change }
    ensures { (f : Fields) × W.post change (fields_in (entry_at (entries_of list.old) number)) f
        × (entries_of list.new ≡ entries_with_fields (entries_of list.old) number f) }
{
    let entry = &mut list[number as usize];
    let changed = change(fields_of(entry));
    put_fields(entry, changed);
}
