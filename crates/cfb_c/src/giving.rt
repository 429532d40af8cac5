//! What is told into room of the caller.
ghost use Rattle.cfb_c.specs.Given.{IsGiven, IsPartOf};

use crate::refusal::Refusal;

/// Puts these bytes at the beginning of the room, and says how many there are; where they have no
/// room there, nothing is put, and `TooSmall` is answered.
pub fn give(bytes: &[u8], into: &mut [u8], len: &mut usize) -> Result<(), Refusal>
    ensures { IsGiven bytes.now into.old result into.new len.new }
{
    *len = bytes.len();
    if into.len() < bytes.len() {
        return Err(Refusal::TooSmall);
    }
    into[..bytes.len()].copy_from_slice(bytes);
    Ok(())
}

/// Puts the bytes from the place `at` on at the beginning of the room, all that there is room for,
/// and answers how many.
pub fn give_part(bytes: &[u8], at: u64, into: &mut [u8]) -> usize
    ensures { IsPartOf bytes.now at into.old into.new result }
{
    let len = bytes.len() as u64;
    if at >= len {
        return 0;
    }
    let rest = &bytes[at as usize..];
    let count = into.len().min(rest.len());
    into[..count].copy_from_slice(&rest[..count]);
    count
}
