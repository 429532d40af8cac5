//! What soundness wants of each stream.
ghost use Rattle.std.specs.Prelude.{◌≡◌, ◌↔◌, ◌*◌, ◌≤◌, ℕ, List, ◌++◌, Some, flat_map, length, IsTrue, IfOk, IfErr};
ghost use Rattle.cfb_format.specs.declared.error.Error.TheVariants.{Memory};
ghost use Rattle.cfb_format.specs.Bytes.{sector_len};
ghost use Rattle.cfb_format.specs.Content.{mini_sector_len, mini_stream_chain};
ghost use Rattle.cfb_codecs.specs.EntryModel.{entry_of};
ghost use Rattle.cfb_format.specs.Siblings.{entry_at};
ghost use Rattle.cfb_soundness.specs.Marks.{Marked, HoldsMarks};
ghost use Rattle.cfb_soundness.specs.Parts.{parts_reading};
ghost use Rattle.cfb_soundness.specs.Streams.{own_sectors, own_mini_sectors, StreamFits, StreamsFit};

use crate::marks::walk_marking;
use crate::parts::Parts;
use crate::pieces::{Pieces, is_whole};
use cfb_codecs::direntry::DirEntry;
use cfb_format::consts::MINI_STREAM_CUTOFF;
use cfb_format::error::Error;
use std::alloc::Allocator;

/// Whether one stream has a chain, none of whose members is marked, and all of its bytes. If so, its sectors or its mini sectors
/// are marked then. `Memory`.
fn mark_stream<A: Allocator>(
    heap: A,
    parts: &Parts<'_, A>,
    root: &[u32],
    entry: &DirEntry<A>,
    marks: &mut [bool],
    mini_marks: &mut [bool],
) -> Result<bool, Error>
    requires marks { length marks.old ≡ length parts.now.fat.now }
    requires mini_marks { length mini_marks.old ≡ length parts.now.minifat.now }
    requires root { mini_stream_chain (parts_reading parts.now) ≡ Some root.now }
    requires room { length parts.now.minifat.now * mini_sector_len
        ≤ length root.now * sector_len parts.now.version }
    ensures fits { (bytes : List ℕ)
        → length bytes ≡ parts.now.len → IfOk result (λ fits. IsTrue fits ↔ StreamFits bytes
        (parts_reading parts.now) (entry_of entry.now) marks.old mini_marks.old) }
    ensures marked { IfOk result (λ fits. IsTrue fits
        → Marked marks.old (own_sectors (parts_reading parts.now) (entry_of entry.now)) marks.new) }
    ensures mini_marked { IfOk result (λ fits. IsTrue fits → Marked mini_marks.old
        (own_mini_sectors (parts_reading parts.now) (entry_of entry.now)) mini_marks.new) }
    ensures err { IfErr result (λ e. e ≡ Memory) }
{
    if entry.stream_len >= MINI_STREAM_CUTOFF as u64 {
        let Some(list) = walk_marking(heap, parts.fat, entry.start_sector, marks)? else {
            return Ok(false);
        };
        return Ok(is_whole(
            parts.version,
            parts.len,
            Pieces::Sectors,
            &list,
            entry.stream_len,
        ));
    }
    if entry.stream_len == 0 {
        return Ok(true);
    }
    let Some(list) = walk_marking(heap, parts.minifat, entry.start_sector, mini_marks)? else {
        return Ok(false);
    };
    let pieces = Pieces::MiniSectors(root);
    Ok(is_whole(parts.version, parts.len, pieces, &list, entry.stream_len))
}

/// Whether all streams have chains that share nothing with each other nor with what is marked, and all of their bytes. If so,
/// what they lie in is marked then. `Memory`.
pub fn mark_streams<A: Allocator + Clone>(
    heap: &A,
    parts: &Parts<'_, A>,
    root: &[u32],
    marks: &mut [bool],
    mini_marks: &mut [bool],
) -> Result<bool, Error>
    requires marks { length marks.old ≡ length parts.now.fat.now }
    requires mini_marks { length mini_marks.old ≡ length parts.now.minifat.now }
    requires root { mini_stream_chain (parts_reading parts.now) ≡ Some root.now }
    requires room { length parts.now.minifat.now * mini_sector_len
        ≤ length root.now * sector_len parts.now.version }
    ensures fit { (bytes used mini_used : List ℕ)
        → length bytes ≡ parts.now.len → HoldsMarks used marks.old
        → HoldsMarks mini_used mini_marks.old → IfOk result (λ fit. IsTrue fit
        ↔ StreamsFit bytes (parts_reading parts.now) parts.now.streams.now used mini_used) }
    ensures marked { (used : List ℕ) → HoldsMarks used marks.old → IfOk result (λ fit. IsTrue fit
        → HoldsMarks (used ++ flat_map (λ i. own_sectors (parts_reading parts.now)
        (entry_at (parts_reading parts.now).entries i)) parts.now.streams.now) marks.new) }
    ensures mini_marked { (mini_used : List ℕ)
        → HoldsMarks mini_used mini_marks.old → IfOk result (λ fit. IsTrue fit
        → HoldsMarks (mini_used ++ flat_map (λ i. own_mini_sectors (parts_reading parts.now)
        (entry_at (parts_reading parts.now).entries i)) parts.now.streams.now) mini_marks.new) }
    ensures err { IfErr result (λ e. e ≡ Memory) }
{
    for number in parts.streams {
        let at = *number as usize;
        // What has no entry counts as one that is not used, and is empty.
        if at < parts.entries.len() {
            let entry = &parts.entries[at];
            if !mark_stream(heap.clone()?, parts, root, entry, marks, mini_marks)? {
                return Ok(false);
            }
        }
    }
    Ok(true)
}
