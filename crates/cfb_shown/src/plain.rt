//! Text on its way to a writer, as it is shown.
ghost use Rattle.std.specs.Prelude.{◌≡◌, ◌<◌, true, chars, encode_utf8_all, OnOk};
ghost use Rattle.std.specs.Io.KnownBytes.{Appends};
ghost use Rattle.cfb_text.specs.Shown.{hex_digit, shown, shown_char};

use cfb_text::shown::is_hidden;
use std::io;
use std::io::Write;

/// Writes the text as it is shown.
pub(crate) fn write_shown<W: Write>(text: &str, out: &mut W) -> io::Result<()>
    ensures { OnOk result (Appends (W.contents out.old) (W.contents out.new)
        (encode_utf8_all (shown (chars text.now)))) }
{
    if is_plain(text) {
        return out.write_all(text.as_bytes());
    }
    for letter in text.chars() {
        write_letter(letter, out)?;
    }
    Ok(())
}

/// Whether the text is shown as it is.
fn is_plain(text: &str) -> bool
    ensures { result ≡ true → shown (chars text.now) ≡ chars text.now }
{
    for letter in text.chars() {
        if is_hidden(letter) {
            return false;
        }
    }
    true
}

/// Writes the character as it is shown.
fn write_letter<W: Write>(letter: char, out: &mut W) -> io::Result<()>
    ensures { OnOk result (Appends (W.contents out.old) (W.contents out.new)
        (encode_utf8_all (shown_char letter))) }
{
    if !is_hidden(letter) {
        return write!(out, "{letter}");
    }
    let code = letter as u32;
    let first = digit_of(code / 4096 % 16);
    let second = digit_of(code / 256 % 16);
    let third = digit_of(code / 16 % 16);
    let last = digit_of(code % 16);
    write!(out, "\\u{first}{second}{third}{last}")
}

/// The digit of a number below 16, in lower case.
fn digit_of(number: u32) -> char
    requires { number < 16 }
    ensures { result ≡ hex_digit number }
{
    if number < 10 {
        (b'0' + number as u8) as char
    } else {
        (b'a' + (number - 10) as u8) as char
    }
}
