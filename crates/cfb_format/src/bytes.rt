//! Little-endian numbers in bytes.
ghost use Rattle.std.specs.Prelude.{◌≡◌, ◌+◌, ◌*◌, ◌≤◌, ◌++◌, length, take, drop};
ghost use Rattle.cfb_format.specs.Bytes.{unit_at, word_at, word_bytes, unit_bytes};

/// The little-endian number of the 2 bytes at `at` (MS-CFB 2.1).
#[tactic(auto, unfolding(crate::specs::Bytes::unit_at))]
pub fn u16_at(bytes: &[u8], at: usize) -> u16
    requires { at + 2 ≤ length bytes.now }
    ensures { result ≡ unit_at bytes.now at }
{
    u16::from_le_bytes([bytes[at], bytes[at + 1]])
}

/// The little-endian number of the 4 bytes at `at` (MS-CFB 2.1).
#[tactic(auto, unfolding(crate::specs::Bytes::word_at))]
pub fn u32_at(bytes: &[u8], at: usize) -> u32
    requires { at + 4 ≤ length bytes.now }
    ensures { result ≡ word_at bytes.now at }
{
    u32::from_le_bytes([bytes[at], bytes[at + 1], bytes[at + 2], bytes[at + 3]])
}

/// Puts `from` at `at`, and answers the place behind it. All other bytes stay.
pub fn put(into: &mut [u8], at: usize, from: &[u8]) -> usize
    requires { at + length from.now ≤ length into.old }
    ensures end { result ≡ at + length from.now }
    ensures before { take result into.new ≡ take at into.old ++ from.now }
    ensures after { drop result into.new ≡ drop result into.old }
{
    let end = at + from.len();
    into[at..end].copy_from_slice(from);
    end
}

/// Puts little-endian numbers of 2 bytes at `at`, and answers the place behind them. All other
/// bytes stay.
pub fn put_units(into: &mut [u8], at: usize, units: &[u16]) -> usize
    requires { at + 2 * length units.now ≤ length into.old }
    ensures end { result ≡ at + 2 * length units.now }
    ensures before { take result into.new ≡ take at into.old ++ unit_bytes units.now }
    ensures after { drop result into.new ≡ drop result into.old }
{
    let mut end = at;
    for unit in units {
        end = put(into, end, &unit.to_le_bytes());
    }
    end
}

/// Puts little-endian numbers of 4 bytes at `at`, and answers the place behind them. All other
/// bytes stay.
pub fn put_words(into: &mut [u8], at: usize, words: &[u32]) -> usize
    requires { at + 4 * length words.now ≤ length into.old }
    ensures end { result ≡ at + 4 * length words.now }
    ensures before { take result into.new ≡ take at into.old ++ word_bytes words.now }
    ensures after { drop result into.new ≡ drop result into.old }
{
    let mut end = at;
    for word in words {
        end = put(into, end, &word.to_le_bytes());
    }
    end
}
