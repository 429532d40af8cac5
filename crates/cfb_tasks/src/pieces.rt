//! Streams that are worked piece by piece.

use anyhow::Result;
use cfb::{CompoundFile, MemoryMedium, ReadStream, Stream};
use std::io::{Seek, SeekFrom};

/// A compound file in memory.
pub type File = CompoundFile<MemoryMedium>;

/// Fills a new stream with this piece, so many times.
pub fn fill(file: &mut File, path: &str, piece: &[u8], count: usize) -> Result<()> {
    let mut stream = file.create_new_stream(path)?;
    let written = write_pieces(&mut stream, piece, count);
    stream.close()?;
    written
}

fn write_pieces(stream: &mut Stream<'_, MemoryMedium>, piece: &[u8], count: usize) -> Result<()> {
    for _turn in 0..count {
        stream.write_all(piece)?;
    }
    Ok(())
}

/// Reads a stream from its start to its end, as much at once as there is room for.
pub fn read_through(file: &mut File, path: &str, into: &mut [u8]) -> Result<()> {
    let mut stream = file.open_read_stream(path)?;
    let read = read_pieces(&mut stream, into);
    stream.close()?;
    read
}

fn read_pieces(stream: &mut ReadStream<'_, MemoryMedium>, into: &mut [u8]) -> Result<()> {
    for _turn in 0..stream.len() {
        if stream.read(into)? == 0 {
            return Ok(());
        }
    }
    Ok(())
}

/// Writes this piece over a stream, so many times, at places that look random.
pub fn overwrite(file: &mut File, path: &str, piece: &[u8], count: usize) -> Result<()> {
    let mut stream = file.open_stream(path)?;
    let written = write_about(&mut stream, piece, count);
    stream.close()?;
    written
}

fn write_about(stream: &mut Stream<'_, MemoryMedium>, piece: &[u8], count: usize) -> Result<()> {
    let places = stream.len().saturating_sub(piece.len() as u64).max(1);
    let mut random = 1u64;
    for _turn in 0..count {
        // A linear congruence, whose upper bits are the better ones.
        random = random
            .wrapping_mul(6364136223846793005)
            .wrapping_add(1442695040888963407);
        stream.seek(SeekFrom::Start((random >> 33) % places))?;
        stream.write_all(piece)?;
    }
    Ok(())
}
