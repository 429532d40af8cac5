//! The way down to a name.
ghost use Rattle.std.specs.Prelude.{◌≡◌, ◌≢◌, ℕ, ◌<◌, ◌≤◌, length, chars, IfOk, true};
ghost use Rattle.cfb_format.specs.Tree.{is_same_name};
ghost use Rattle.cfb_siblings.specs.Order.{Dir, HasDir, Placed};
ghost use Rattle.cfb_siblings.specs.Painted.{Painted};
ghost use Rattle.cfb_codecs.specs.EntryModel.{entries_of};
ghost use Rattle.cfb_siblings.specs.Way.{name_at};

use crate::links::{PathStep, links};
use cfb_codecs::direntry::DirEntry;
use cfb_codecs::links::child_link;
use cfb_codecs::path::{CaseMapper, compare_names};
use cfb_format::consts::NO_STREAM;
use std::alloc::{AllocError, Allocator};
use std::cmp::Ordering;

/// The way down to a name in the storage: the link where it ends, to the entry of that name or to
/// none, and the steps above.
pub(crate) fn way_to<A: Allocator>(
    alloc: A,
    cases: &CaseMapper<A>,
    entries: &[DirEntry<A>],
    parent: u32,
    name: &str,
) -> Result<(u32, Vec<PathStep, A>), AllocError>
    requires few { length (entries_of entries.now) ≤ NO_STREAM }
    requires stands { HasDir cases.now (entries_of entries.now) parent }
    ensures placed { IfOk result (λ r. (t : Painted)
        → Dir cases.now (entries_of entries.now) parent t
        → Placed cases.now (entries_of entries.now) (chars name.now) r.1.items r.0 t) }
    ensures found { IfOk result (λ r. r.0 ≢ NO_STREAM
        → is_same_name cases.now (chars name.now) (name_at (entries_of entries.now) r.0) ≡ true) }
{
    let mut path = Vec::new(alloc);
    let mut link = child_link(entries, parent);
    while link != NO_STREAM {
        let (left, right) = links(entries, link);
        match compare_names(cases, name, &entries[link as usize].name) {
            Ordering::Equal => return Ok((link, path)),
            Ordering::Less => {
                path.push(PathStep {
                    number: link,
                    left: true,
                })?;
                link = left;
            }
            Ordering::Greater => {
                path.push(PathStep {
                    number: link,
                    left: false,
                })?;
                link = right;
            }
        }
    }
    Ok((link, path))
}
