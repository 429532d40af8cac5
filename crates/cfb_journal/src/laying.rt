//! Frames of the journal, laid over what was read of the compound file.
ghost use Rattle.std.specs.Prelude.{◌+◌, ◌^◌, ◌<◌, ◌∷◌, [], length, IsTrue};
ghost use Rattle.cfb_journal.specs.Journal.{are_whole, frames_of};
ghost use Rattle.cfb_journal.specs.Seen.{ShowsFrames};

use crate::frames::next_frame;

/// Puts over the bytes from `at` on those of a frame that belong there.
fn lay_frame(into: &mut [u8], at: u64, place: u64, framed: &[u8])
    requires end { at + length into.old < 2 ^ 64 }
    requires frame_end { place + length framed.now < 2 ^ 64 }
    ensures { ShowsFrames ((place, framed.now) ∷ []) at into.old into.new }
{
    let end = at + into.len() as u64;
    let frame_end = place + framed.len() as u64;
    if place >= end || frame_end <= at {
        return;
    }
    let (first, last) = (place.max(at), end.min(frame_end));
    into[(first - at) as usize..(last - at) as usize].copy_from_slice(
        &framed[(first - place) as usize..(last - place) as usize],
    );
}

/// Puts over the bytes from `at` on what so many frames have for them.
pub(crate) fn lay_frames(into: &mut [u8], at: u64, limit: u64, count: u64, bytes: &[u8])
    requires end { at + length into.old < 2 ^ 64 }
    requires whole { IsTrue (are_whole limit count bytes.now) }
    ensures { ShowsFrames (frames_of count bytes.now) at into.old into.new }
{
    let mut rest = bytes;
    let mut left = count;
    while left > 0 {
        let Some(frame) = next_frame(rest) else {
            return;
        };
        lay_frame(into, at, frame.place, frame.bytes);
        rest = frame.rest;
        left -= 1;
    }
}
