//! The name of an object as the name of a file of the system.
ghost use Rattle.std.specs.Prelude.{◌≡◌, ◌++◌, flat_map, chars, string_bytes, IfOk, OnOk};
ghost use Rattle.cfb_text.specs.Host.{coded, host_char, host_name, is_barred, needs_guard};

use crate::shown::{digit_of, is_hidden};
use crate::text::text_of;
use std::alloc::{AllocError, Allocator};

/// Whether the character is hidden, or some system gives it a meaning in the names of its files.
fn is_barred(letter: char) -> bool
    ensures { result ≡ is_barred letter }
{
    is_hidden(letter) || matches!(letter, '"' | '*' | '/' | ':' | '<' | '>' | '?' | '\\' | '|')
}

/// Appends the character as a percent sign and digits. Memory may be refused.
fn push_coded<A: Allocator>(letter: char, into: &mut Vec<char, A>) -> Result<(), AllocError>
    ensures { OnOk result (into.new.items ≡ into.old.items ++ coded letter) }
{
    let code = letter as u32;
    into.push('%')?;
    if code >= 256 {
        into.push('u')?;
        into.push(digit_of((code / 4096 % 16) as u8))?;
        into.push(digit_of((code / 256 % 16) as u8))?;
    }
    into.push(digit_of((code / 16 % 16) as u8))?;
    into.push(digit_of((code % 16) as u8))?;
    Ok(())
}

/// Appends the character as it stands in the name of a file. Memory may be refused.
fn push_host<A: Allocator>(letter: char, into: &mut Vec<char, A>) -> Result<(), AllocError>
    ensures { OnOk result (into.new.items ≡ into.old.items ++ host_char letter) }
{
    if is_barred(letter) || letter == '%' {
        push_coded(letter, into)
    } else {
        Ok(into.push(letter)?)
    }
}

/// The letters of a name, each as it stands in the name of a file. Memory may be refused.
fn host_letters<A: Allocator>(alloc: A, name: &str) -> Result<Vec<char, A>, AllocError>
    ensures { IfOk result (λ letters. letters.items ≡ flat_map host_char (chars name.now)) }
{
    let mut letters = Vec::new(alloc);
    for letter in name.chars() {
        push_host(letter, &mut letters)?;
    }
    Ok(letters)
}

/// Whether these letters are none, or begin with a dot or a minus.
fn needs_guard(letters: &[char]) -> bool
    ensures { result ≡ needs_guard letters.now }
{
    letters.is_empty() || letters[0] == '.' || letters[0] == '-'
}

/// The name of the file that an object of this name is given.
///
/// # Errors
///
/// If memory is refused.
pub fn host_name<A: Allocator + Clone>(alloc: A, name: &str) -> Result<String<A>, AllocError>
    ensures { IfOk result (λ file. chars (string_bytes file) ≡ host_name (chars name.now)) }
{
    let mut letters = host_letters(alloc.clone()?, name)?;
    if needs_guard(letters.as_slice()) {
        letters.insert(0, '%')?;
    }
    text_of(alloc, letters.as_slice())
}
