//! Letters as a text.
ghost use Rattle.std.specs.Prelude.{◌≡◌, chars, string_bytes, IfOk};

use std::alloc::{AllocError, Allocator};

/// The text of these letters. Memory may be refused.
pub(crate) fn text_of<A: Allocator>(alloc: A, letters: &[char]) -> Result<String<A>, AllocError>
    ensures { IfOk result (λ text. chars (string_bytes text) ≡ letters.now) }
{
    let mut text = String::new(alloc);
    for letter in letters {
        text.push(*letter)?;
    }
    Ok(text)
}
