//! Why a file is not sound.
ghost use Rattle.std.specs.Prelude.{◌≡◌, ◌↔◌, ℕ, List, [], false, All, IsSome, IsTrue, IfOk, IfErr, OnOk, nat_eq};
ghost use Rattle.std.specs.List.{IsDistinct};
ghost use Rattle.cfb_format.specs.declared.error.Error.TheVariants.{Memory};
ghost use Rattle.cfb_format.specs.Content.{mini_stream_chain};
ghost use Rattle.cfb_format.specs.Names.{Cases};
ghost use Rattle.cfb_format.specs.Reading.{Reading, Reads};
ghost use Rattle.cfb_format.specs.Soundness.{IsSound, mini_stream_sectors, used_mini_sectors, used_sectors};
ghost use Rattle.cfb_flaws.specs.declared.owner.Table.TheVariants.{Fat, Minifat};
ghost use Rattle.cfb_flaws.specs.Each.{AnswersEach, AnswersMost, AreWhole, HaveChains};
ghost use Rattle.cfb_flaws.specs.Flaws.{Covers, HasRoom, Holds, KeepsLooseIn, on_chains, on_covers, on_loose, on_mini_loose, on_mini_room, on_mini_sectors, on_mini_stream, on_sectors, on_whole, raw_of};
ghost use Rattle.cfb_flaws.specs.Owners.{AreKept};
ghost use Rattle.cfb_flaws.specs.Telling.{KnowsFile, Tells};

use crate::flaw::Flaw;
use crate::known::Known;
use crate::owner::Table;
use crate::owners::{mini_sector_owners, sector_owners};
use crate::past::tell_past;
use crate::reach::tell_cut_streams;
use crate::searches::short_chain;
use crate::shared::tell_difat;
use crate::starts::start_of_mini_stream;
use crate::streams::{tell_broken_streams, tell_shared_streams};
use crate::tables::{
    tell_coverage, tell_listed_twice, tell_loose, tell_mini_stream, tell_room, tell_roots,
};
use cfb_format::error::Error;
use cfb_soundness::parts::Parts;
use std::alloc::Allocator;

/// Why a file with these parts is not sound, which it is as `is_sound` says: no reason where it is, and else a reason for each clause of
/// soundness that is broken, and one for each sector that goes on past the last one. Where the file is not sound, `raw` is the words of
/// the FAT for its sectors as they stand in it: what memory keeps of the FAT does not show which of them point past the file. It takes
/// time and memory for the sectors, the mini sectors and the streams, whatever the file.
///
/// # Errors
///
/// `Memory`.
pub fn flaws_of<A: Allocator + Clone>(
    heap: &A,
    parts: &Parts<'_, A>,
    raw: &[u32],
    is_sound: bool,
) -> Result<Vec<Flaw, A>, Error>
    ensures exact { (cases : Cases) (bytes : List ℕ) (r : Reading) → Reads cases bytes r
        → AreKept parts.now bytes r → (IsTrue is_sound ↔ IsSound bytes r)
        → (is_sound ≡ false → raw.now ≡ raw_of bytes r)
        → IfOk result (λ found. (found.items ≡ []) ↔ IsSound bytes r) }
    ensures told { (cases : Cases) (bytes : List ℕ) (r : Reading) → Reads cases bytes r
        → AreKept parts.now bytes r → (IsTrue is_sound ↔ IsSound bytes r)
        → (is_sound ≡ false → raw.now ≡ raw_of bytes r)
        → IfOk result (λ found. All (Holds bytes r) found.items) }
    ensures each { (cases : Cases) (bytes : List ℕ) (r : Reading) → Reads cases bytes r
        → AreKept parts.now bytes r → (IsTrue is_sound ↔ IsSound bytes r)
        → (is_sound ≡ false → raw.now ≡ raw_of bytes r)
        → IfOk result (λ found. AnswersEach bytes r found.items) }
    ensures err { IfErr result (λ e. e ≡ Memory) }
{
    let mut found = Vec::new(heap.clone()?);
    if is_sound {
        return Ok(found);
    }
    tell_flaws(heap, parts, raw, &mut found)?;
    Ok(found)
}

/// Tells what is found; nothing is told yet. `Memory`.
fn tell_flaws<A: Allocator + Clone>(
    heap: &A,
    parts: &Parts<'_, A>,
    raw: &[u32],
    found: &mut Vec<Flaw, A>,
) -> Result<(), Error>
    requires { found.old.items ≡ [] }
    ensures told { (cases : Cases) (bytes : List ℕ) (r : Reading) → Reads cases bytes r
        → AreKept parts.now bytes r → raw.now ≡ raw_of bytes r
        → OnOk result (All (Holds bytes r) found.new.items) }
    ensures each { (cases : Cases) (bytes : List ℕ) (r : Reading) → Reads cases bytes r
        → AreKept parts.now bytes r → raw.now ≡ raw_of bytes r
        → OnOk result (AnswersEach bytes r found.new.items) }
    ensures err { IfErr result (λ e. e ≡ Memory) }
{
    let sectors = sector_owners(heap, parts)?;
    let mini_sectors = mini_sector_owners(heap, parts)?;
    let root = root_of(heap, parts)?;
    let known = Known {
        heap: heap.clone()?,
        parts,
        sectors,
        mini_sectors,
        root,
    };
    tell_known(&known, found)?;
    tell_past(&known, raw, found)?;
    Ok(())
}

/// The sectors of the mini stream: none where it has no chain. `Memory`.
fn root_of<A: Allocator + Clone>(heap: &A, parts: &Parts<'_, A>) -> Result<Vec<u32, A>, Error>
    ensures root { (cases : Cases) (bytes : List ℕ) (r : Reading) → Reads cases bytes r
        → AreKept parts.now bytes r
        → IfOk result (λ root. root.items ≡ mini_stream_sectors r) }
    ensures err { IfErr result (λ e. e ≡ Memory) }
{
    let start = start_of_mini_stream(parts);
    let none = Vec::new(heap.clone()?);
    let Some(list) = short_chain(heap.clone()?, parts.fat, start, parts.fat.len())? else {
        return Ok(none);
    };
    Ok(list)
}

/// Tells what is wrong with what is known, clause by clause; nothing is told yet. `Memory`.
fn tell_known<A: Allocator + Clone>(
    known: &Known<'_, '_, A>,
    found: &mut Vec<Flaw, A>,
) -> Result<(), Error>
    requires { found.old.items ≡ [] }
    ensures told { (cases : Cases) (bytes : List ℕ) (r : Reading) → Reads cases bytes r
        → KnowsFile known.now bytes r → OnOk result (All (Holds bytes r) found.new.items) }
    ensures each { (cases : Cases) (bytes : List ℕ) (r : Reading) → Reads cases bytes r
        → KnowsFile known.now bytes r → OnOk result (AnswersMost bytes r found.new.items) }
    ensures err { IfErr result (λ e. e ≡ Memory) }
{
    tell_uses(known, found)?;
    tell_chains(known, found)?;
    tell_rest(known, found)?;
    Ok(())
}

/// Tells what is used twice, and whether the FAT has too few words. `Memory`.
fn tell_uses<A: Allocator + Clone>(
    known: &Known<'_, '_, A>,
    found: &mut Vec<Flaw, A>,
) -> Result<(), Error>
    ensures covers { OnOk result (Tells known.now on_covers Covers found.old.items found.new.items) }
    ensures sectors { OnOk result (Tells known.now on_sectors
        (λ bytes r. IsDistinct nat_eq (used_sectors r)) found.old.items found.new.items) }
    ensures mini_sectors { OnOk result (Tells known.now on_mini_sectors
        (λ bytes r. IsDistinct nat_eq (used_mini_sectors r)) found.old.items found.new.items) }
    ensures err { IfErr result (λ e. e ≡ Memory) }
{
    let mut listed = Vec::from_elem(known.heap.clone()?, false, known.parts.fat.len())?;
    tell_coverage(known, found)?;
    tell_listed_twice(known, &mut listed, found)?;
    tell_difat(known, found)?;
    tell_roots(known, found)?;
    tell_shared_streams(known, Table::Fat, found)?;
    tell_shared_streams(known, Table::Minifat, found)?;
    Ok(())
}

/// Tells which chains break, and which streams can't be read to their ends. `Memory`.
fn tell_chains<A: Allocator + Clone>(
    known: &Known<'_, '_, A>,
    found: &mut Vec<Flaw, A>,
) -> Result<(), Error>
    ensures mini_stream { OnOk result (Tells known.now on_mini_stream
        (λ bytes r. IsSome (mini_stream_chain r)) found.old.items found.new.items) }
    ensures chains { OnOk result (Tells known.now on_chains
        (λ bytes r. HaveChains r) found.old.items found.new.items) }
    ensures whole { OnOk result (Tells known.now on_whole AreWhole found.old.items found.new.items) }
    ensures err { IfErr result (λ e. e ≡ Memory) }
{
    tell_mini_stream(known, found)?;
    tell_broken_streams(known, Table::Fat, found)?;
    tell_broken_streams(known, Table::Minifat, found)?;
    tell_cut_streams(known, Table::Fat, found)?;
    tell_cut_streams(known, Table::Minifat, found)?;
    Ok(())
}

/// Tells whether the mini stream has too little room, and which loose ends can come alive. `Memory`.
fn tell_rest<A: Allocator>(known: &Known<'_, '_, A>, found: &mut Vec<Flaw, A>) -> Result<(), Error>
    ensures room { OnOk result (Tells known.now on_mini_room
        (λ bytes r. HasRoom r) found.old.items found.new.items) }
    ensures loose { OnOk result (Tells known.now on_loose
        (λ bytes r. KeepsLooseIn Fat r) found.old.items found.new.items) }
    ensures mini_loose { OnOk result (Tells known.now on_mini_loose
        (λ bytes r. KeepsLooseIn Minifat r) found.old.items found.new.items) }
    ensures err { IfErr result (λ e. e ≡ Memory) }
{
    tell_room(known, found)?;
    tell_loose(known, Table::Fat, found)?;
    tell_loose(known, Table::Minifat, found)?;
    Ok(())
}
