//! Where the chains of a file begin.
ghost use Rattle.std.specs.Prelude.{◌≡◌, ◌≢◌, ◌<◌, ◌↔◌, ℕ, List, [], false, length, IsTrue};
ghost use Rattle.cfb_format.specs.Bytes.{end_of_chain};
ghost use Rattle.cfb_format.specs.Chain.{IsChain, chain_from};
ghost use Rattle.cfb_format.specs.Content.{mini_stream_chain};
ghost use Rattle.cfb_format.specs.Reading.{Reading, root_entry};
ghost use Rattle.cfb_codecs.specs.EntryModel.{entry_of};
ghost use Rattle.cfb_soundness.specs.Parts.{parts_reading};
ghost use Rattle.cfb_flaws.specs.Claims.{LiesIn, chain_of, members_in, words_of};

use crate::owner::Table;
use cfb_codecs::direntry::DirEntry;
use cfb_format::consts::{END_OF_CHAIN, MAX_REGULAR_SECTOR, MINI_STREAM_CUTOFF};
use cfb_soundness::parts::Parts;
use std::alloc::Allocator;

/// Where the chain begins that has these sectors: the end where there are none.
pub(crate) fn start_of_list(list: &[u32]) -> u32
    ensures { (table : List ℕ) (s : ℕ) → IsChain table s list.now → chain_of table result ≡ list.now }
{
    if list.is_empty() {
        return END_OF_CHAIN;
    }
    list[0]
}

/// Where the mini stream begins: the end where it is empty and has no start.
pub(crate) fn start_of_mini_stream<A: Allocator>(parts: &Parts<'_, A>) -> u32
    ensures chain { 0 < length parts.now.entries.now
        → mini_stream_chain (parts_reading parts.now) ≡ chain_from parts.now.fat.now result }
    ensures start { result ≢ end_of_chain
        → result ≡ (root_entry (parts_reading parts.now)).start_sector }
{
    if parts.entries.is_empty() {
        return END_OF_CHAIN;
    }
    let root = &parts.entries[0];
    if root.stream_len == 0 && root.start_sector > MAX_REGULAR_SECTOR {
        return END_OF_CHAIN;
    }
    root.start_sector
}

/// Where the stream begins in that table: the end where it has nothing there.
pub(crate) fn start_in<A: Allocator>(table: Table, entry: &DirEntry<A>) -> u32
    ensures { (r : Reading)
        → members_in table r (entry_of entry.now) ≡ chain_of (words_of table r) result }
{
    if lies_in(table, entry) {
        return entry.start_sector;
    }
    END_OF_CHAIN
}

/// Whether the stream is not empty and lies in that table.
pub(crate) fn lies_in<A: Allocator>(table: Table, entry: &DirEntry<A>) -> bool
    ensures lies { IsTrue result ↔ LiesIn table (entry_of entry.now) }
    ensures else_none { result ≡ false → (r : Reading) → members_in table r (entry_of entry.now) ≡ [] }
{
    let is_large = entry.stream_len >= MINI_STREAM_CUTOFF as u64;
    match table {
        Table::Fat => is_large,
        Table::Minifat => !is_large && entry.stream_len != 0,
    }
}
