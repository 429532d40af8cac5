//! The names of objects as places in a folder, and as paths.
ghost use Rattle.std.specs.Prelude.{◌≡◌, ◌++◌, IfOk, OnOk, chars, string_bytes};
ghost use Rattle.cfb_extract.specs.Items.{texts};
ghost use Rattle.cfb_extract.specs.Extracted.{place_of, slashed};

use cfb_text::host::host_name;
use std::alloc::{AllocError, Allocator as Heap};

/// The place of the object that these names lead to. Memory may be refused.
pub(crate) fn place_of<A: Heap + Clone>(
    alloc: &A,
    names: &[String<A>],
) -> Result<Vec<String<A>, A>, AllocError>
    ensures { IfOk result (λ place. texts place.items ≡ place_of (texts names.now)) }
{
    let mut place = Vec::new(alloc.clone()?);
    for name in names {
        let own = host_name(alloc.clone()?, name.as_str())?;
        place.push(own)?;
    }
    Ok(place)
}

/// Appends these names, each behind a `/`. Memory may be refused.
pub(crate) fn push_slashed<A: Heap, B: Heap>(
    names: &[String<A>],
    into: &mut String<B>,
) -> Result<(), AllocError>
    ensures { OnOk result (chars (string_bytes into.new)
        ≡ chars (string_bytes into.old) ++ slashed (texts names.now)) }
{
    for name in names {
        into.push('/')?;
        into.push_str(name.as_str())?;
    }
    Ok(())
}

/// These names, each behind a `/`. Memory may be refused.
pub(crate) fn slashed<A: Heap + Clone>(
    alloc: &A,
    names: &[String<A>],
) -> Result<String<A>, AllocError>
    ensures { IfOk result (λ path. chars (string_bytes path) ≡ slashed (texts names.now)) }
{
    let mut path = String::new(alloc.clone()?);
    push_slashed(names, &mut path)?;
    Ok(path)
}
