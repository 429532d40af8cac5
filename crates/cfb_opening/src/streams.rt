//! Which entries of a directory are streams of its tree (MS-CFB 2.6.3 and 2.6.4).
ghost use Rattle.std.specs.Prelude.{◌≡◌, IfOk, IfErr};
ghost use Rattle.cfb_format.specs.Names.{Cases};
ghost use Rattle.cfb_format.specs.Reading.{IsOutline, Outline};
ghost use Rattle.cfb_format.specs.Reading.{stream_numbers as streams_in};
ghost use Rattle.cfb_format.specs.Refused.{IsMemory};
ghost use Rattle.cfb_codecs.specs.EntryModel.{entries_of};
ghost use Rattle.cfb_outline.specs.Outlines.{IsReachedStorage};
ghost use Rattle.cfb_opening.specs.Streams.{is_stream_at};

use cfb_codecs::direntry::DirEntry;
use cfb_format::error::Error;
use cfb_format::objtype::ObjType;
use cfb_outline::listing::contents;
use std::alloc::Allocator as Heap;

/// Whether the entry of that number is a stream. Past the end none is.
fn is_stream<A: Heap>(entries: &[DirEntry<A>], number: u32) -> bool
    ensures { result ≡ is_stream_at (entries_of entries.now) number }
{
    if number as usize >= entries.len() {
        return false;
    }
    match entries[number as usize].obj_type {
        ObjType::Stream => true,
        ObjType::Storage | ObjType::Unallocated | ObjType::Root => false,
    }
}

/// The numbers of all streams that are reached from the root, in the order of their storages and names. `Memory`.
pub(crate) fn stream_numbers<A: Heap + Clone>(
    heap: &A,
    entries: &[DirEntry<A>],
) -> Result<Vec<u32, A>, Error>
    requires { (cases : Cases) × IsReachedStorage cases (entries_of entries.now) 0 }
    ensures ok { IfOk result (λ streams. (cases : Cases) (o : Outline)
        → IsOutline cases (entries_of entries.now) o → streams.items ≡ streams_in o) }
    ensures err { IfErr result IsMemory }
{
    let reached = contents(heap.clone()?, entries, 0)?;
    let mut streams = Vec::new(heap.clone()?);
    for number in &reached {
        if is_stream(entries, *number) {
            streams.push(*number)?;
        }
    }
    Ok(streams)
}
