//! What an entry of a number says.
ghost use Rattle.std.specs.Prelude.{◌≡◌, ◌<◌, length};
ghost use Rattle.cfb_codecs.specs.EntryModel.{entries_of};
ghost use Rattle.cfb_format.specs.Siblings.{entry_at};
ghost use Rattle.cfb_outline.specs.Families.{is_stream_kind};

use cfb_codecs::direntry::DirEntry;
use cfb_format::objtype::ObjType;
use std::alloc::Allocator;

/// Whether the entry is a stream.
pub(crate) fn is_stream<A: Allocator>(entries: &[DirEntry<A>], number: u32) -> bool
    requires { number < length entries.now }
    ensures { result ≡ is_stream_kind (entry_at (entries_of entries.now) number).obj_type }
{
    entries[number as usize].obj_type == ObjType::Stream
}
