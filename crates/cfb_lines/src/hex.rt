//! Bytes in digits to the base 16.
ghost use Rattle.std.specs.Prelude.{◌≡◌, ◌≢◌, ◌<◌, ◌≤◌, ◌++◌, ℕ, List, length, drop, MatchOption, IfOk};
ghost use Rattle.cfb_lines.specs.Fields.{IsHex, hex_digit, hex_pair};

use std::alloc::{AllocError, Allocator};

/// The value of a digit, in lower case.
fn digit_value(byte: u8) -> Option<u8>
    ensures { MatchOption result ((d : ℕ) → d < 16 → hex_digit d ≢ byte)
        (λ d. (d < 16) × (hex_digit d ≡ byte)) }
{
    match byte {
        b'0'..=b'9' => Some(byte - b'0'),
        b'a'..=b'f' => Some(byte - b'a' + 10),
        _ => None,
    }
}

/// The byte of the first two digits.
fn first_byte(digits: &[u8]) -> Option<u8>
    requires { 2 ≤ length digits.now }
    ensures { MatchOption result ((bytes : List ℕ) → IsHex digits.now bytes → ⊥)
        (λ b. (b < 256) × (digits.now ≡ hex_pair b ++ drop 2 digits.now)) }
{
    let Some(high) = digit_value(digits[0]) else {
        return None;
    };
    let Some(low) = digit_value(digits[1]) else {
        return None;
    };
    Some(high * 16 + low)
}

/// The bytes of a text of two digits each, in lower case. None where it is no such text. Memory may
/// be refused.
pub(crate) fn bytes_in<A: Allocator>(alloc: A, text: &str) -> Result<Option<Vec<u8, A>>, AllocError>
    ensures { IfOk result (λ read. MatchOption read ((bytes : List ℕ) → IsHex text.now bytes → ⊥)
        (λ v. IsHex text.now v.items)) }
{
    let mut rest = text.as_bytes();
    let mut bytes = Vec::with_capacity(alloc, rest.len() / 2)?;
    while rest.len() >= 2 {
        let Some(byte) = first_byte(rest) else {
            return Ok(None);
        };
        bytes.push(byte)?;
        let (_, after) = rest.split_at(2);
        rest = after;
    }
    if rest.len() > 0 {
        return Ok(None);
    }
    Ok(Some(bytes))
}
