//! Bytes that are handed on in pieces, so that memory does not follow how many there are.
use crate::refusal::{Place, Refusal};
use std::io::Read;

/// How many bytes a piece has, but for the last one.
pub(super) const PIECE: usize = 65536;

/// Reads the next piece, in place of the one that was read before; at the end it has no bytes. A fault
/// is told of this place. `Medium`, `Memory`.
pub(super) fn read_piece<R: Read>(
    input: &mut R,
    place: Place,
    piece: &mut Vec<u8>,
) -> Result<(), Refusal> {
    piece.clear();
    let mut some = (&mut *input).take(PIECE as u64);
    match some.read_to_end(piece) {
        Ok(_) => Ok(()),
        Err(e) => Err(Refusal::at(place, e)),
    }
}
