//! The objects of a file as a tree of text.
ghost use Rattle.std.specs.Prelude.{IsTrue, IfErr, OnOk, chars};
ghost use Rattle.cfb_rules.specs.Calls.{walk, walk_storage};
ghost use Rattle.cfb_shown.specs.Lines.{Writes};
ghost use Rattle.cfb_tool.specs.Listing.{IsNotListed};
ghost use Rattle.cfb_tool.specs.Trees.{HasTree, HasTreeAt};

use cfb_commands::CompoundFile;
use cfb_format::consts::ROOT_STREAM_ID;
use cfb_format::medium::ReadMedium;
use cfb_shown::tree::write_tree;
use cfb_shown::write_error::WriteError;
use std::alloc::Allocator as Heap;
use std::io::Write;

/// Writes a line for each object, in the order of `walk`, an empty one, and one that counts what is below
/// the first. A line has a cell for each storage that the object is in, and the name as it is shown,
/// with a `/` behind that of a storage, and its length behind that of a stream. It writes in small pieces,
/// and does not flush `out`. Memory follows the number of objects.
///
/// # Errors
///
/// Those of `walk`, before anything is written; and where `out` refuses.
pub fn tree<F: ReadMedium, A: Heap + Clone, W: Write>(
    alloc: &A,
    file: &CompoundFile<F, A>,
    out: &mut W,
) -> Result<(), WriteError>
    ensures shows { IsTrue F.tells → OnOk result
        (Writes (HasTree file.now) (W.contents out.old) (W.contents out.new)) }
    ensures refused { IsTrue F.tells → IfErr result
        (IsNotListed file.now walk (W.contents out.old) (W.contents out.new)) }
{
    write_tree(alloc, file.entries(), ROOT_STREAM_ID, out)
}

/// The same of the object at this path and all that is in it, in the order of `walk_storage`.
///
/// # Errors
///
/// Those of `walk_storage`, before anything is written; and where `out` refuses.
pub fn tree_at<F: ReadMedium, A: Heap + Clone, W: Write>(
    alloc: &A,
    file: &CompoundFile<F, A>,
    path: &str,
    out: &mut W,
) -> Result<(), WriteError>
    ensures shows { IsTrue F.tells → OnOk result
        (Writes (HasTreeAt file.now (chars path.now)) (W.contents out.old) (W.contents out.new)) }
    ensures refused { IsTrue F.tells → IfErr result
        (IsNotListed file.now (walk_storage (chars path.now)) (W.contents out.old) (W.contents out.new)) }
{
    let number = file.number_at(path)?;
    write_tree(alloc, file.entries(), number, out)
}
