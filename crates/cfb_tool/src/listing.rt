//! The objects of a file as lines of text.
ghost use Rattle.std.specs.Prelude.{◌⊎◌, IsTrue, IfOk, IfErr, OnOk, chars, is_some, not, string_bytes};
ghost use Rattle.cfb_codecs.specs.EntryModel.{entry_of};
ghost use Rattle.cfb_format.specs.Path.{names_of_path};
ghost use Rattle.cfb_format.specs.Refused.{IsMemory, RefusesInput};
ghost use Rattle.cfb_tool.specs.cfb_path_changes.Answers.{Answers, AnswersNot};
ghost use Rattle.cfb_rules.specs.Calls.{entries, walk, walk_storage};
ghost use Rattle.cfb_shown.specs.Lines.{Writes};
ghost use Rattle.cfb_tool.specs.Listing.{HasLines, IsNotListed, IsPathInWalk};

use cfb_codecs::direntry::DirEntry;
use cfb_codecs::path::{name_chain_from_path, path_from_name_chain};
use cfb_commands::CompoundFile;
use cfb_format::consts::ROOT_STREAM_ID;
use cfb_format::error::Error;
use cfb_format::medium::ReadMedium;
use cfb_listing::entry::Entry;
use cfb_listing::listing::path_below;
use cfb_shown::lines::{Form, write_walk};
use cfb_shown::table::write_table;
use cfb_shown::write_error::WriteError;
use std::alloc::Allocator as Heap;
use std::io::Write;

/// Writes a line for each object, in the order of `walk`. It writes in small pieces, and does not flush `out`. Memory follows the number
/// of objects and how deep they lie, and not the length of the text.
///
/// # Errors
///
/// Those of `walk`, before anything is written; and where `out` refuses.
pub fn listing<F: ReadMedium, A: Heap + Clone, W: Write>(
    alloc: &A,
    file: &CompoundFile<F, A>,
    form: Form,
    out: &mut W,
) -> Result<(), WriteError>
    ensures lists { IsTrue F.tells → OnOk result (Writes (HasLines form file.now walk)
        (W.contents out.old) (W.contents out.new)) }
    ensures refused { IsTrue F.tells → IfErr result
        (IsNotListed file.now walk (W.contents out.old) (W.contents out.new)) }
{
    write_walk(alloc, file.entries(), ROOT_STREAM_ID, "/", form, out)
}

/// Writes a line for each object from the one at this path on, in the order of `walk_storage`; else as `listing`.
///
/// # Errors
///
/// Those of `walk_storage`, before anything is written; and where `out` refuses.
pub fn listing_at<F: ReadMedium, A: Heap + Clone, W: Write>(
    alloc: &A,
    file: &CompoundFile<F, A>,
    path: &str,
    form: Form,
    out: &mut W,
) -> Result<(), WriteError>
    ensures lists { IsTrue F.tells
        → OnOk result (Writes (HasLines form file.now (walk_storage (chars path.now)))
        (W.contents out.old) (W.contents out.new)) }
    ensures refused { IsTrue F.tells → IfErr result
        (IsNotListed file.now (walk_storage (chars path.now)) (W.contents out.old) (W.contents out.new)) }
{
    let number = file.number_at(path)?;
    let entries = file.entries();
    let own = path_in_walk(alloc, &entries[number as usize], path)?;
    write_walk(alloc, entries, number, own.as_str(), form, out)
}

/// Writes a row of all fields for each object, in the order of `walk`, padded with blanks. A column is left out in which no row says
/// anything: `-`, or no state bits. What is written is tested, and not proved.
///
/// # Errors
///
/// Those of `walk`, before anything is written; and where `out` refuses.
pub fn table<F: ReadMedium, A: Heap + Clone, W: Write>(
    alloc: &A,
    file: &CompoundFile<F, A>,
    out: &mut W,
) -> Result<(), WriteError>
    ensures refused { IsTrue F.tells → IfErr result
        (IsNotListed file.now walk (W.contents out.old) (W.contents out.new)) }
{
    write_table(alloc, file.entries(), ROOT_STREAM_ID, "/", out)
}

/// The same of each object from the one at this path on, in the order of `walk_storage`.
///
/// # Errors
///
/// Those of `walk_storage`, before anything is written; and where `out` refuses.
pub fn table_at<F: ReadMedium, A: Heap + Clone, W: Write>(
    alloc: &A,
    file: &CompoundFile<F, A>,
    path: &str,
    out: &mut W,
) -> Result<(), WriteError>
    ensures refused { IsTrue F.tells → IfErr result
        (IsNotListed file.now (walk_storage (chars path.now)) (W.contents out.old) (W.contents out.new)) }
{
    let number = file.number_at(path)?;
    let entries = file.entries();
    let own = path_in_walk(alloc, &entries[number as usize], path)?;
    write_table(alloc, entries, number, own.as_str(), out)
}

/// The path that `walk_storage` tells of the object at this path: its stored name, below the names of the parent as they were given.
/// `InvalidInput` where the path leaves the root, `Memory`.
fn path_in_walk<A: Heap + Clone>(
    alloc: &A,
    entry: &DirEntry<A>,
    path: &str,
) -> Result<String<A>, Error>
    ensures ok { IfOk result (λ text.
        IsPathInWalk (chars path.now) (entry_of entry.now).name (chars (string_bytes text))) }
    ensures refused { IfErr result (λ e.
        RefusesInput (not (is_some (names_of_path (chars path.now)))) e ⊎ IsMemory e) }
{
    let names = name_chain_from_path(alloc.clone()?, path)?;
    let Some((_, before)) = names.split_last() else {
        return path_from_name_chain(alloc.clone()?, &[]);
    };
    let parent = path_from_name_chain(alloc.clone()?, before)?;
    path_below(alloc.clone()?, parent.as_str(), entry.name.as_str())
}

/// What `walk` tells, in order. It is refused as that is; `Memory` for the list too.
pub(crate) fn walked<F: ReadMedium, A: Heap + Clone>(
    alloc: &A,
    file: &CompoundFile<F, A>,
) -> Result<Vec<Entry<A>, A>, Error>
    ensures told { IsTrue F.tells
        → IfOk result (λ list. Answers file.now walk (entries list.items)) }
    ensures refused { IsTrue F.tells → IfErr result (AnswersNot file.now walk) }
    ensures kind { IfErr result IsMemory }
{
    let list = file.walk()?;
    Ok(list.collect(alloc.clone()?)?)
}
