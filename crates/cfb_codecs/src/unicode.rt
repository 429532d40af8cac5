//! Upper case of one character, as Unicode has it.
ghost use Rattle.std.specs.Prelude.{◌≡◌, ◌≤◌, ◌<◌, ℕ, IfOk};
ghost use Rattle.std.specs.Char.{IsScalar};
ghost use Rattle.cfb_format.specs.Names.{paired};
ghost use Rattle.cfb_codecs.specs.SimpleUpper.{simple_upper};

use std::alloc::{AllocError, Allocator};

/// What a character becomes in upper case, where that is one character; else itself.
fn simple_upper(letter: char) -> char
    ensures { result ≡ simple_upper letter }
{
    let mut changed = letter.to_uppercase();
    let Some(upper) = changed.next() else {
        return letter;
    };
    match changed.next() {
        Some(_) => letter,
        None => upper,
    }
}

/// Each letter past ASCII below U+10000 that has an upper case of one character, with that. It
/// answers `AllocError` where memory for the list is refused.
pub(crate) fn unicode_pairs<A: Allocator>(alloc: A) -> Result<Vec<(char, char), A>, AllocError>
    ensures letters { IfOk result (λ pairs. (c : ℕ) → IsScalar c → 0x80 ≤ c → c < 0x10000
        → paired pairs.items c ≡ simple_upper c) }
    ensures others { IfOk result (λ pairs. (c : ℕ) → 0x10000 ≤ c → paired pairs.items c ≡ c) }
{
    let mut pairs = Vec::new(alloc);
    for code in 0x80..0x1_0000_u32 {
        if let Some(letter) = char::from_u32(code) {
            let upper = simple_upper(letter);
            if upper != letter {
                pairs.push((letter, upper))?;
            }
        }
    }
    Ok(pairs)
}
