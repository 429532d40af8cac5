//! The lengths of the names in a directory.
ghost use Rattle.std.specs.Prelude.{◌≡◌, ◌↔◌, ◌≤◌, ℕ, IsTrue, length};
ghost use Rattle.cfb_format.specs.Names.{utf16_units, max_name_len};
ghost use Rattle.cfb_codecs.specs.EntryModel.{entry_of, entries_of};
ghost use Rattle.cfb_entries.specs.EntryList.{HaveShortNames};

use cfb_codecs::direntry::DirEntry;
use std::alloc::Allocator;

/// The greatest number of UTF-16 units in a name.
const MAX_NAME_LEN: usize = 31;

/// Whether the name has its place in a slot.
fn has_short_name<A: Allocator>(entry: &DirEntry<A>) -> bool
    ensures { IsTrue result ↔ (length (utf16_units (entry_of entry.now).name) ≤ max_name_len) }
{
    entry.name.encode_utf16().count() <= MAX_NAME_LEN
}

/// Whether each name has its place in a slot.
pub(crate) fn have_short_names<A: Allocator>(list: &[DirEntry<A>]) -> bool
    ensures { IsTrue result ↔ HaveShortNames (entries_of list.now) }
{
    for entry in list {
        if !has_short_name(entry) {
            return false;
        }
    }
    true
}
