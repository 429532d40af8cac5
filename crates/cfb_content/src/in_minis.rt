//! Contents that lie in mini sectors (MS-CFB 2.4), by the list of a mini chain's numbers.
ghost use Rattle.std.specs.Prelude.{◌≡◌, ℕ, ◌+◌, ◌-◌, ◌/◌, ◌^◌, ◌<◌, ◌≤◌, List, length, drop, replicate, true, nat_eq, slice_index, IsTrue, IfOk, IfErr, OnOk, OnErr};
ghost use Rattle.std.specs.List.{IsDistinct};
ghost use Rattle.cfb_format.specs.declared.validate.Validation.{Validation};
ghost use Rattle.cfb_format.specs.Content.{mini_sector_len};
ghost use Rattle.cfb_format.specs.Refused.{CountsFailure};
ghost use Rattle.cfb_sectors.specs.Sectors.{IsMediumError};
ghost use Rattle.cfb_tables.specs.Refused.{ChangeRefused};
ghost use Rattle.cfb_content.specs.cfb_alloc.Frame.{Spares};
ghost use Rattle.cfb_content.specs.cfb_mini.State.{HoldsMini, bytes_of, mini_stream_of, table_of};
ghost use Rattle.cfb_content.specs.cfb_mini.Steps.{SparesMini};
ghost use Rattle.cfb_mini.specs.MiniSectors.{ChangesFileOnly, HasMiniByte, HasMiniSector, IsStill};
ghost use Rattle.cfb_content.specs.Contents.{mini_place_along};
ghost use Rattle.cfb_content.specs.Parts.{ChangesOnlyPlaces, HasFirst, IsThereInMinis, IsWholeMiniChain, StandAlong};

use crate::in_sectors::cut_short;
use cfb_chains::writing::zeros;
use cfb_format::consts::MINI_SECTOR_LEN;
use cfb_format::error::Error;
use cfb_format::medium::{Medium, ReadMedium};
use cfb_mini::mini_allocator::MiniAllocator;
use cfb_mini::mini_runs::mini_run;
use std::alloc::Allocator as Heap;

/// How many bytes of a mini sector the file has.
fn there_in_mini<F: ReadMedium, A: Heap>(mini: &MiniAllocator<F, A>, number: u32) -> u64
    ensures few { result ≤ mini_sector_len }
    ensures there { (k : ℕ) → k < result → HasMiniByte mini.now number k }
    ensures cut { result < mini_sector_len → HasMiniByte mini.now number result → ⊥ }
{
    let sector_len = mini.sector_len() as u64;
    let at = number as u64 * MINI_SECTOR_LEN as u64;
    let Some(stream) = mini.mini_stream() else {
        return 0;
    };
    let Some(sector) = stream.get((at / sector_len) as usize) else {
        return 0;
    };
    if *sector as usize >= mini.allocator().fat().len() {
        return 0;
    }
    let start = (*sector as u64 + 1) * sector_len + at % sector_len;
    mini.allocator()
        .file_len()
        .saturating_sub(start)
        .min(MINI_SECTOR_LEN as u64)
}

/// How many of the first `len` bytes of these mini sectors, one after the other, the file has, up to the first that it has not.
pub(crate) fn there_in_minis<F: ReadMedium, A: Heap>(
    mini: &MiniAllocator<F, A>,
    ids: &[u32],
    len: u64,
) -> u64
    ensures { HasFirst (IsThereInMinis mini.now ids.now) len result }
{
    let mut there: u64 = 0;
    for number in ids {
        let has = there_in_mini(mini, *number);
        there = there.saturating_add(has);
        if has < MINI_SECTOR_LEN as u64 {
            return there.min(len);
        }
    }
    there.min(len)
}

/// The mini sectors of a stream of so many bytes that starts there; an empty one has none. `InvalidData` where there is no such mini
/// chain or the file has not all of these bytes, and `Memory`.
pub fn whole_mini_chain<F: ReadMedium, A: Heap + Clone>(
    mini: &MiniAllocator<F, A>,
    start: u32,
    len: u64,
) -> Result<Vec<u32, A>, Error>
    ensures whole { IfOk result (λ list. IsWholeMiniChain mini.now start len list.items) }
    ensures err { IfErr result (ChangeRefused
        ((list : List ℕ) → IsWholeMiniChain mini.now start len list → ⊥) Unit ⊥ ⊥) }
{
    if len == 0 {
        return Ok(Vec::new(mini.heap().clone()?));
    }
    let ids = mini.mini_chain(start)?;
    let there = there_in_minis(mini, &ids, len);
    if there < len {
        return Err(cut_short(len, there));
    }
    Ok(ids)
}

/// Reads a beginning of the bytes of these mini sectors from byte `at` of them on, by one call of the medium: as many as follow each other
/// in the file, as far as `into` has room and the file goes.
fn read_in_minis<F: ReadMedium, A: Heap>(
    mini: &mut MiniAllocator<F, A>,
    ids: &[u32],
    at: u64,
    into: &mut [u8],
) -> Result<usize, Error>
    requires some { 0 < length into.old }
    requires there { IsThereInMinis mini.old ids.now at }
    ensures kept { IsStill mini.old mini.new }
    ensures count { IfOk result (λ n. (0 < n) × (n ≤ length into.old)) }
    ensures within { IfOk result (λ n. (j : ℕ) → j < n → IsThereInMinis mini.old ids.now (at + j)) }
    ensures ok { IsTrue F.tells → IfOk result (λ n. (j : ℕ) → j < n → slice_index into.new j
        ≡ slice_index (bytes_of mini.old) (mini_place_along mini.old ids.now (at + j))) }
    ensures rest { IfOk result (λ n. drop n into.new ≡ drop n into.old) }
    ensures len { length into.new ≡ length into.old }
    ensures err { IfErr result IsMediumError }
    ensures same { IsTrue F.tells → OnOk result (mini.new ≡ mini.old) }
    ensures bytes { IsTrue F.tells → bytes_of mini.new ≡ bytes_of mini.old }
    ensures counts { IsTrue F.tells → CountsFailure F.read_faults result
        (table_of mini.old).file.failures (table_of mini.new).file.failures }
{
    let index = (at / MINI_SECTOR_LEN as u64) as usize;
    let offset = (at % MINI_SECTOR_LEN as u64) as usize;
    let run = mini_run(ids, index, offset, into.len());
    let count = mini.read_mini_run(ids[index], offset, &mut into[..run])?;
    Ok(count)
}

/// Reads the bytes of these mini sectors from byte `at` on, as many as `into` has room for, all of which the file has.
pub(crate) fn fill_from_minis<F: ReadMedium, A: Heap>(
    mini: &mut MiniAllocator<F, A>,
    ids: &[u32],
    at: u64,
    into: &mut [u8],
) -> Result<(), Error>
    requires bounded { at + length into.old < 2 ^ 64 }
    requires there { (k : ℕ) → k < length into.old → IsThereInMinis mini.old ids.now (at + k) }
    ensures kept { IsStill mini.old mini.new }
    ensures got { IsTrue F.tells
        → OnOk result ((k : ℕ) → k < length into.new → slice_index into.new k
        ≡ slice_index (bytes_of mini.old) (mini_place_along mini.old ids.now (at + k))) }
    ensures len { length into.new ≡ length into.old }
    ensures err { IfErr result IsMediumError }
    ensures same { IsTrue F.tells → OnOk result (mini.new ≡ mini.old) }
    ensures bytes { IsTrue F.tells → bytes_of mini.new ≡ bytes_of mini.old }
    ensures counts { IsTrue F.tells → CountsFailure F.read_faults result
        (table_of mini.old).file.failures (table_of mini.new).file.failures }
{
    let mut done = 0;
    while done < into.len() {
        let count = read_in_minis(mini, ids, at + done as u64, &mut into[done..])?;
        done += count;
    }
    Ok(())
}

/// Reads the first bytes of these mini sectors, as many as `into` has room for, all of which the file has.
pub fn get_from_minis<F: ReadMedium, A: Heap>(
    mini: &mut MiniAllocator<F, A>,
    ids: &[u32],
    into: &mut [u8],
) -> Result<(), Error>
    requires there { (k : ℕ) → k < length into.old → IsThereInMinis mini.old ids.now k }
    ensures kept { IsStill mini.old mini.new }
    ensures got { IsTrue F.tells
        → OnOk result ((k : ℕ) → k < length into.new → slice_index into.new k
        ≡ slice_index (bytes_of mini.old) (mini_place_along mini.old ids.now k)) }
    ensures len { length into.new ≡ length into.old }
    ensures err { IfErr result IsMediumError }
    ensures same { IsTrue F.tells → OnOk result (mini.new ≡ mini.old) }
    ensures bytes { IsTrue F.tells → bytes_of mini.new ≡ bytes_of mini.old }
    ensures counts { IsTrue F.tells → CountsFailure F.read_faults result
        (table_of mini.old).file.failures (table_of mini.new).file.failures }
{
    fill_from_minis(mini, ids, 0, into)
}

/// Writes all of these bytes into these mini sectors, from byte `at` of them on: those that follow each other in the file by one call of the
/// medium. `Medium` where the medium fails.
pub fn put_in_minis<F: Medium, A: Heap>(
    mini: &mut MiniAllocator<F, A>,
    ids: &[u32],
    at: u64,
    bytes: &[u8],
) -> Result<(), Error>
    requires placed { (k : ℕ) → k < length bytes.now → ((at + k) / mini_sector_len < length ids.now)
        × HasMiniSector mini.old (slice_index ids.now ((at + k) / mini_sector_len)) }
    ensures kept { ChangesFileOnly mini.old mini.new }
    ensures none { length bytes.now ≡ 0 → OnErr result ⊥ × (mini.new ≡ mini.old) }
    ensures put { IsTrue F.tells → (validation : Validation) → HoldsMini validation mini.old
        → IsDistinct nat_eq ids.now → OnOk result
        (StandAlong (mini_place_along mini.old ids.now) at bytes.now (bytes_of mini.new)) }
    ensures others { IsTrue F.tells
        → ChangesOnlyPlaces (mini_place_along mini.old ids.now) at (length bytes.now)
        (bytes_of mini.old) (bytes_of mini.new) }
    ensures spares { IsTrue F.tells
        → Spares (mini_stream_of mini.old) (table_of mini.old) (table_of mini.new) }
    ensures mini_spares { IsTrue F.tells → (validation : Validation) → HoldsMini validation mini.old
        → SparesMini ids.now mini.old mini.new }
    ensures holds { IsTrue F.tells → (validation : Validation) → HoldsMini validation mini.old
        → OnOk result (HoldsMini validation mini.new) }
    ensures begun { 0 < length bytes.now → (table_of mini.new).file.begun ≡ true }
    ensures err { IfErr result IsMediumError }
    ensures counts { IsTrue F.tells → CountsFailure F.write_faults result
        (table_of mini.old).file.failures (table_of mini.new).file.failures }
{
    let mut index = (at / MINI_SECTOR_LEN as u64) as usize;
    let mut offset = (at % MINI_SECTOR_LEN as u64) as usize;
    let mut done = 0;
    while done < bytes.len() {
        let run = mini_run(ids, index, offset, bytes.len() - done);
        let count = mini.write_mini_run(ids[index], offset, &bytes[done..done + run])?;
        done += count;
        index += (offset + count) / MINI_SECTOR_LEN;
        offset = (offset + count) % MINI_SECTOR_LEN;
    }
    Ok(())
}

/// Makes the bytes of these mini sectors zeros from one to before another. `Medium` where the medium fails.
pub fn zero_in_minis<F: Medium, A: Heap>(
    mini: &mut MiniAllocator<F, A>,
    ids: &[u32],
    from: u64,
    to: u64,
) -> Result<(), Error>
    requires placed { (k : ℕ) → from ≤ k → k < to → (k / mini_sector_len < length ids.now)
        × HasMiniSector mini.old (slice_index ids.now (k / mini_sector_len)) }
    ensures kept { ChangesFileOnly mini.old mini.new }
    ensures none { to ≤ from → OnErr result ⊥ × (mini.new ≡ mini.old) }
    ensures put { IsTrue F.tells → (validation : Validation) → HoldsMini validation mini.old
        → IsDistinct nat_eq ids.now
        → OnOk result (StandAlong (mini_place_along mini.old ids.now) from
        (replicate (to - from) 0) (bytes_of mini.new)) }
    ensures others { IsTrue F.tells
        → ChangesOnlyPlaces (mini_place_along mini.old ids.now) from (to - from)
        (bytes_of mini.old) (bytes_of mini.new) }
    ensures spares { IsTrue F.tells
        → Spares (mini_stream_of mini.old) (table_of mini.old) (table_of mini.new) }
    ensures mini_spares { IsTrue F.tells → (validation : Validation) → HoldsMini validation mini.old
        → SparesMini ids.now mini.old mini.new }
    ensures holds { IsTrue F.tells → (validation : Validation) → HoldsMini validation mini.old
        → OnOk result (HoldsMini validation mini.new) }
    ensures begun { from < to → (table_of mini.new).file.begun ≡ true }
    ensures err { IfErr result IsMediumError }
    ensures counts { IsTrue F.tells → CountsFailure F.write_faults result
        (table_of mini.old).file.failures (table_of mini.new).file.failures }
{
    let mut at = from;
    while at < to {
        let count = (to - at).min(4096) as usize;
        put_in_minis(mini, ids, at, zeros(count))?;
        at += count as u64;
    }
    Ok(())
}
