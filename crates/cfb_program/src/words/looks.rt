//! The words that only read FILE.
use super::details::{details, list};
use super::files::{opened, to_read};
use super::pieces::PIECE;
use super::print;
use super::tree::tree;
use crate::lent::Lent;
use crate::output::Output;
use crate::refusal::{About, Refusal};
use crate::system::System;
use cfb::{CompoundFile, Error, ReadMedium, ReadStream, seeded_options};
use cfb_text::meant::meant;
use cfb_tool::asking::Asked;
use cfb_tool::cuts::{Extent, extent_at};
use cfb_tool::reports::map;
use cfb_tool::soundness::soundness_line;
use std::alloc::Global;

/// Does what is asked of FILE.
pub(super) fn look<H: System, W: Output>(
    rt: &H,
    asked: Asked<'_>,
    out: &mut W,
) -> Result<(), Refusal> {
    let mut medium = to_read(rt, About::of(asked).file)?;
    let done = look_into(rt, asked, Lent(&mut medium), out);
    done.map_err(|refusal| refusal.because(medium.file().last_error()))
}

/// The compound file, as opening is asked to be.
fn opened_for<H: System, F: ReadMedium>(
    rt: &H,
    asked: Asked<'_>,
    medium: F,
) -> Result<CompoundFile<F>, Refusal> {
    match asked {
        Asked::CheckStrict(_) => {
            let options = seeded_options(rt).strict();
            options
                .open_with(rt.alloc(), medium)
                .map_err(Refusal::Opening)
        }
        _ => opened(rt, medium),
    }
}

/// Opens the file in the medium, and shows what is asked of it.
fn look_into<H: System, F: ReadMedium, W: Output>(
    rt: &H,
    asked: Asked<'_>,
    medium: F,
    out: &mut W,
) -> Result<(), Refusal> {
    let mut file = opened_for(rt, asked, medium)?;
    look_at(rt.alloc(), asked, &mut file, out)
}

/// Shows what is asked of a file, at the path that is meant.
fn look_at<F: ReadMedium, W: Output>(
    alloc: Global,
    asked: Asked<'_>,
    file: &mut CompoundFile<F>,
    out: &mut W,
) -> Result<(), Refusal> {
    match About::of(asked).path {
        Some(given) => {
            let path = meant(alloc, given)?;
            show(alloc, asked, file, Some(path.as_str()), out)
        }
        None => show(alloc, asked, file, None, out),
    }
}

fn show<F: ReadMedium, W: Output>(
    alloc: Global,
    asked: Asked<'_>,
    file: &mut CompoundFile<F>,
    at: Option<&str>,
    out: &mut W,
) -> Result<(), Refusal> {
    match asked {
        Asked::ListAll(_) | Asked::ListAt(..) => list(alloc, file, at, out),
        Asked::DetailsAll(_) | Asked::DetailsAt(..) => details(alloc, file, at, out),
        Asked::TreeAll(_) | Asked::TreeAt(..) => tree(alloc, file, at, out),
        Asked::Check(_) | Asked::CheckStrict(_) => print_soundness(alloc, file, out),
        Asked::Cat(..) => cat(alloc, file, at.unwrap_or(""), out),
        Asked::Map(_) => print_map(alloc, file, out),
        _ => Err(Refusal::WrongWords),
    }
}

/// `cat`. Nothing is printed of a stream that is not whole.
fn cat<F: ReadMedium, W: Output>(
    alloc: Global,
    file: &mut CompoundFile<F>,
    stream: &str,
    out: &mut W,
) -> Result<(), Refusal> {
    let extent = extent_at(file, stream)?;
    if out.is_terminal() {
        let bytes = cfb::read_stream(alloc, file, stream).map_err(|e| why_unread(extent, e))?;
        return print_text(bytes.as_slice(), out);
    }
    let mut reader = file.open_read_stream(stream)?;
    let printed = if extent.readable < extent.len {
        Err(Refusal::NotWhole(extent))
    } else {
        print_pieces(alloc, &mut reader, out)
    };
    let closed = reader.close();
    printed?;
    closed.map_err(Refusal::Of)
}

/// Why a stream was not read: where it has too few bytes, how many of them can be read.
fn why_unread(extent: Extent, e: Error) -> Refusal {
    match e {
        Error::InvalidData(_) if extent.readable < extent.len => Refusal::NotWhole(extent),
        _ => Refusal::Of(e),
    }
}

/// Prints all of a stream, as it is read.
fn print_pieces<F: ReadMedium, W: Output>(
    alloc: Global,
    reader: &mut ReadStream<'_, F>,
    out: &mut W,
) -> Result<(), Refusal> {
    let mut piece = vec![in alloc; 0u8; PIECE]?;
    for _ in 0..u64::MAX {
        let count = reader.read(&mut piece)?;
        if count == 0 {
            break;
        }
        out.write_all(&piece[..count]).map_err(Refusal::of_output)?;
    }
    out.flush().map_err(Refusal::of_output)
}

/// Prints bytes to a terminal, if they are text.
fn print_text<W: Output>(bytes: &[u8], out: &mut W) -> Result<(), Refusal> {
    if !is_plain_text(bytes) {
        return Err(Refusal::NotText);
    }
    print(bytes, out)
}

/// Whether a terminal shows these bytes as they are: characters, and of the controls tabs and ends of
/// lines alone.
fn is_plain_text(bytes: &[u8]) -> bool {
    match str::from_utf8(bytes) {
        Ok(text) => !text.chars().any(|letter| letter.is_control()
            && letter != '\t'
            && letter != '\n'),
        Err(_) => false,
    }
}

/// `map`.
fn print_map<F: ReadMedium, W: Output>(
    alloc: Global,
    file: &mut CompoundFile<F>,
    out: &mut W,
) -> Result<(), Refusal> {
    let lines = map(&alloc, file)?;
    print(lines.as_bytes(), out)
}

/// `check`.
fn print_soundness<F: ReadMedium, W: Output>(
    alloc: Global,
    file: &CompoundFile<F>,
    out: &mut W,
) -> Result<(), Refusal> {
    let line = soundness_line(alloc, file)?;
    print(line.as_bytes(), out)?;
    if file.is_sound() {
        Ok(())
    } else {
        Err(Refusal::Told)
    }
}
