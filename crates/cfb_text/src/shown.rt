//! Text as it is shown: a hidden character is written as a backslash, a `u` and its four digits to
//! the base 16.
ghost use Rattle.std.specs.Prelude.{◌≡◌, ◌<◌, ◌++◌, chars, encode_utf8_all, string_bytes, IfOk, OnOk};
ghost use Rattle.cfb_text.specs.Shown.{hex_digit, is_hidden, shown, shown_char};

use std::alloc::{AllocError, Allocator};

/// Whether a terminal would obey the character, or show nothing of it: controls (U+0000 to U+001F,
/// U+007F to U+009F), and marks without width or that turn the direction of writing.
pub fn is_hidden(letter: char) -> bool
    ensures { result ≡ is_hidden letter }
{
    let code = letter as u32;
    code < 0x20
        || 0x7f <= code && code < 0xa0
        || 0x200b <= code && code < 0x2010
        || 0x2028 <= code && code < 0x202f
        || 0x2060 <= code && code < 0x206a
        || code == 0xfeff
}

/// The digit of a number below 16, in lower case.
pub(crate) fn digit_of(number: u8) -> char
    requires { number < 16 }
    ensures { result ≡ hex_digit number }
{
    if number < 10 {
        (b'0' + number) as char
    } else {
        (b'a' + (number - 10)) as char
    }
}

/// Appends the character as it is shown. Memory may be refused.
fn push_letter<A: Allocator>(into: &mut String<A>, letter: char) -> Result<(), AllocError>
    ensures { OnOk result (string_bytes into.new
        ≡ string_bytes into.old ++ encode_utf8_all (shown_char letter)) }
{
    if !is_hidden(letter) {
        return into.push(letter);
    }
    let code = letter as u32;
    into.push('\\')?;
    into.push('u')?;
    into.push(digit_of((code / 4096 % 16) as u8))?;
    into.push(digit_of((code / 256 % 16) as u8))?;
    into.push(digit_of((code / 16 % 16) as u8))?;
    into.push(digit_of((code % 16) as u8))
}

/// Appends the text as it is shown.
///
/// # Errors
///
/// If memory is refused; a part of the text may stand behind the old one then.
pub fn push_shown<A: Allocator>(into: &mut String<A>, text: &str) -> Result<(), AllocError>
    ensures { OnOk result (string_bytes into.new
        ≡ string_bytes into.old ++ encode_utf8_all (shown (chars text.now))) }
{
    for letter in text.chars() {
        push_letter(into, letter)?;
    }
    Ok(())
}

/// The text as it is shown.
///
/// # Errors
///
/// If memory is refused.
pub fn shown<A: Allocator>(alloc: A, text: &str) -> Result<String<A>, AllocError>
    ensures { IfOk result (λ seen. chars (string_bytes seen) ≡ shown (chars text.now)) }
{
    let mut seen = String::new(alloc);
    push_shown(&mut seen, text)?;
    Ok(seen)
}
