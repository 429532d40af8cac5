//! What is listed of a storage, taken into a list of its own.
ghost use Rattle.std.specs.Prelude.{IfErr, IsTrue, chars};
ghost use Rattle.cfb_compound_file.specs.Asking.{IsOfAsking};
ghost use Rattle.cfb_commands.specs.cfb_path_changes.Answers.{Answers};
ghost use Rattle.cfb_commands.specs.cfb_rules.Calls.{entries, read_storage, walk_storage};
ghost use Rattle.cfb_commands.specs.Commands.{call_answer};

use cfb_compound_file::compound_file::CompoundFile;
use cfb_format::error::Error;
use cfb_format::medium::ReadMedium;
use cfb_listing::entry::Entry;
use std::alloc::Allocator as Heap;

/// What `read_storage` tells, in order. It is refused as that call is; `Memory` for the list too.
pub(crate) fn read_list<F: ReadMedium, A: Heap + Clone>(
    alloc: &A,
    file: &CompoundFile<F, A>,
    path: &str,
) -> Result<Vec<Entry<A>, A>, Error>
    ensures answers { IsTrue F.tells → Answers file.now (read_storage (chars path.now)) (call_answer
        (λ list. entries list.items) result) }
    ensures kinds { IfErr result IsOfAsking }
{
    let list = file.read_storage(path)?;
    Ok(list.collect(alloc.clone()?)?)
}

/// What `walk_storage` tells, in order. It is refused as that call is; `Memory` for the list too.
pub(crate) fn walk_list<F: ReadMedium, A: Heap + Clone>(
    alloc: &A,
    file: &CompoundFile<F, A>,
    path: &str,
) -> Result<Vec<Entry<A>, A>, Error>
    ensures answers { IsTrue F.tells → Answers file.now (walk_storage (chars path.now)) (call_answer
        (λ list. entries list.items) result) }
    ensures kinds { IfErr result IsOfAsking }
{
    let list = file.walk_storage(path)?;
    Ok(list.collect(alloc.clone()?)?)
}
