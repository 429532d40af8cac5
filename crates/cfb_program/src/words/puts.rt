//! `put`. The first of its bytes are read before FILE is opened, and the others while it is changed:
//! all of it or nothing, by the journal beside it.
ghost use Rattle.std.specs.Prelude.{IsTrue};
ghost use Rattle.cfb_journal.specs.Disk.{IsOpened};

use super::files::{Target, begun, committed, ended, opened_to_change, place_of, to_change};
use super::pieces::read_piece;
use crate::lent::Lent;
use crate::refusal::{Place, Refusal};
use crate::system::System;
use cfb::{Medium, Stream};
use cfb_journal::disk::Disk;
use cfb_journal_file::lent::LentDisk;
use cfb_text::meant::meant;
use std::fs;
use std::fs::File;
use std::io::Read;
use std::os::unix::fs::MetadataExt;

/// Where standard input is found among the files.
const STANDARD_INPUT: &str = "/dev/stdin";

/// `put` without FROM.
pub(super) fn put_input<H: System, R: Read>(
    rt: &H,
    target: Target<'_>,
    stream: &str,
    input: &mut R,
) -> Result<(), Refusal> {
    let is_own = is_same(rt, STANDARD_INPUT, target.path);
    put_read(rt, target, stream, input, Place::Input, is_own)
}

/// `put` with FROM.
pub(super) fn put_from<H: System>(
    rt: &H,
    target: Target<'_>,
    stream: &str,
    from: &str,
) -> Result<(), Refusal> {
    let mut input = match File::open(rt, from) {
        Ok(input) => input,
        Err(e) => return Err(Refusal::of_other_system(e)),
    };
    let is_own = is_same(rt, from, target.path);
    put_read(rt, target, stream, &mut input, Place::Other, is_own)
}

/// Whether both paths lead to one file.
fn is_same<H: System>(rt: &H, one: &str, other: &str) -> bool {
    match (fs::metadata(rt, one), fs::metadata(rt, other)) {
        (Ok(one), Ok(other)) => one.dev() == other.dev() && one.ino() == other.ino(),
        _ => false,
    }
}

/// Puts what is read. FILE itself, which grows while it is changed, is read whole beforehand.
fn put_read<H: System, R: Read>(
    rt: &H,
    target: Target<'_>,
    stream: &str,
    input: &mut R,
    place: Place,
    is_own: bool,
) -> Result<(), Refusal> {
    if !is_own {
        return put_pieces(rt, target, stream, input, place);
    }
    let mut bytes = Vec::new(rt.alloc());
    if let Err(e) = input.read_to_end(&mut bytes) {
        return Err(Refusal::at(place, e));
    }
    let mut rest = bytes.as_slice();
    put_pieces(rt, target, stream, &mut rest, place)
}

/// Puts what is read in pieces, of which the first is read before FILE is opened.
fn put_pieces<H: System, R: Read>(
    rt: &H,
    target: Target<'_>,
    stream: &str,
    input: &mut R,
    from: Place,
) -> Result<(), Refusal> {
    let mut piece = Vec::new(rt.alloc());
    read_piece(input, from, &mut piece)?;
    let object = meant(rt.alloc(), stream)?;
    let place = place_of(rt, target.path)?;
    let mut disk = to_change(rt, &place, target.syncs)?;
    let lent = LentDisk(&mut disk);
    let done = put_whole(rt, lent, object.as_str(), input, from, &mut piece);
    ended(rt, &place, disk, done)
}

/// Writes this piece and those that are read behind it.
fn put_whole<H: System, D: Disk, R: Read>(
    rt: &H,
    disk: D,
    stream: &str,
    input: &mut R,
    from: Place,
    piece: &mut Vec<u8>,
) -> Result<(), Refusal>
    requires opened { IsTrue D.tells → IsOpened D.opened (D.view disk) }
{
    let mut medium = begun(rt.alloc(), disk)?;
    put_into(rt, Lent(&mut medium), stream, input, from, piece)?;
    committed(medium)
}

fn put_into<H: System, F: Medium, R: Read>(
    rt: &H,
    medium: F,
    stream: &str,
    input: &mut R,
    from: Place,
    piece: &mut Vec<u8>,
) -> Result<(), Refusal> {
    let mut file = opened_to_change(rt, medium)?;
    let mut stream = file.create_stream(stream)?;
    let written = write_pieces(&mut stream, input, from, piece);
    let closed = stream.close();
    written?;
    closed?;
    file.flush().map_err(Refusal::Of)
}

/// Writes all pieces.
fn write_pieces<F: Medium, R: Read>(
    stream: &mut Stream<'_, F>,
    input: &mut R,
    from: Place,
    piece: &mut Vec<u8>,
) -> Result<(), Refusal> {
    for _ in 0..u64::MAX {
        if piece.is_empty() {
            break;
        }
        stream.write_all(piece)?;
        read_piece(input, from, piece)?;
    }
    Ok(())
}
