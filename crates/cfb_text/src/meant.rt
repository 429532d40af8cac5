//! What is meant by a path as a person writes it.
ghost use Rattle.std.specs.Prelude.{◌≡◌, ◌≤◌, ◌==◌, ◌&&◌, nat_lt, true, false, chars, length, slice_index_or, string_bytes, IfOk, MatchOption};
ghost use Rattle.cfb_text.specs.Meant.{begins_code, code_of, hex_value, meant};

use crate::text::text_of;
use std::alloc::{AllocError, Allocator};

/// The value of a digit to the base 16 in lower case, and 16 of any other letter.
fn hex_value(letter: char) -> u32
    ensures value { result ≡ hex_value letter }
    ensures small { result ≤ 16 }
{
    let code = letter as u32;
    if 48 <= code && code < 58 {
        code - 48
    } else if 97 <= code && code < 103 {
        code - 87
    } else {
        16
    }
}

/// The value of the digit at this place, and 16 where there is none.
fn digit_at(letters: &[char], at: usize) -> u32
    ensures value { result ≡ hex_value (slice_index_or letters.now at 0) }
    ensures small { result ≤ 16 }
{
    if at < letters.len() {
        hex_value(letters[at])
    } else {
        16
    }
}

/// Whether a small u and four digits stand in front.
fn has_code(letters: &[char]) -> bool
    ensures { result ≡ (slice_index_or letters.now 0 0 == 117
        && nat_lt (hex_value (slice_index_or letters.now 1 0)) 16
        && nat_lt (hex_value (slice_index_or letters.now 2 0)) 16
        && nat_lt (hex_value (slice_index_or letters.now 3 0)) 16
        && nat_lt (hex_value (slice_index_or letters.now 4 0)) 16) }
{
    begins_with_u(letters)
        && digit_at(letters, 1) < 16
        && digit_at(letters, 2) < 16
        && digit_at(letters, 3) < 16
        && digit_at(letters, 4) < 16
}

/// Whether a small u stands in front.
fn begins_with_u(letters: &[char]) -> bool
    ensures { result ≡ (slice_index_or letters.now 0 0 == 117) }
{
    !letters.is_empty() && letters[0] == 'u'
}

/// The number that they say, and 1114112 where they are not there.
fn code_of(letters: &[char]) -> u32
    ensures { result ≡ code_of letters.now }
{
    if has_code(letters) {
        digit_at(letters, 1) * 4096
            + digit_at(letters, 2) * 256
            + digit_at(letters, 3) * 16
            + digit_at(letters, 4)
    } else {
        1114112
    }
}

/// The character that they say. None where they say none.
fn letter_in(letters: &[char]) -> Option<char>
    ensures value { MatchOption result (begins_code letters.now ≡ false)
        (λ c. (begins_code letters.now ≡ true) × (c ≡ code_of letters.now)) }
{
    char::from_u32(code_of(letters))
}

/// The character that a letter means before others, and how many of these it takes with it: five
/// where it begins an escape, else none.
#[tactic(auto, using(crate::proofs::Codes::is_long))]
fn letter_and_count(first: char, behind: &[char]) -> (char, usize)
    ensures escape { (first == 92 && begins_code behind.now) ≡ true
        → (result.0 ≡ code_of behind.now) × (result.1 ≡ 5) }
    ensures itself { (first == 92 && begins_code behind.now) ≡ false
        → (result.0 ≡ first) × (result.1 ≡ 0) }
    ensures inside { result.1 ≤ length behind.now }
{
    if first != '\\' {
        return (first, 0);
    }
    match letter_in(behind) {
        Some(letter) => (letter, 5),
        None => (first, 0),
    }
}

/// The letters of a text. Memory may be refused.
fn letters_of<A: Allocator>(alloc: A, text: &str) -> Result<Vec<char, A>, AllocError>
    ensures { IfOk result (λ letters. letters.items ≡ chars text.now) }
{
    let mut letters = Vec::new(alloc);
    for letter in text.chars() {
        letters.push(letter)?;
    }
    Ok(letters)
}

/// What these letters mean. Memory may be refused.
fn read_escapes<A: Allocator>(alloc: A, letters: &[char]) -> Result<Vec<char, A>, AllocError>
    ensures { IfOk result (λ means. means.items ≡ meant letters.now) }
{
    let mut means = Vec::new(alloc);
    let mut rest = letters;
    while !rest.is_empty() {
        let first = rest[0];
        let (_, behind) = rest.split_at(1);
        let (letter, count) = letter_and_count(first, behind);
        means.push(letter)?;
        let (_, after) = behind.split_at(count);
        rest = after;
    }
    Ok(means)
}

/// The text that is meant: a backslash, a small `u` and four small digits to the base 16 stand for
/// one character. Everything else stands for itself.
///
/// # Errors
///
/// If memory is refused.
pub fn meant<A: Allocator + Clone>(alloc: A, text: &str) -> Result<String<A>, AllocError>
    ensures { IfOk result (λ means. chars (string_bytes means) ≡ meant (chars text.now)) }
{
    let letters = letters_of(alloc.clone()?, text)?;
    let means = read_escapes(alloc.clone()?, letters.as_slice())?;
    text_of(alloc, means.as_slice())
}
