//! What worked changes make of a stream that is opened again.
use Change::{SetLen, Write};
use cfb::Version::{self, V3, V4};
use cfb::{CompoundFile, Error, MemoryMedium, Stream};
use std::alloc::Global;
use std::test::Fail;

/// One change of a stream, at its position.
#[derive(Clone, Copy)]
enum Change<'a> {
    /// All of these bytes are written.
    Write(&'a [u8]),
    /// The stream gets this length, in bytes.
    SetLen(u64),
}

/// A version, what is done with a stream of a file of it, and what is in the stream then.
type Row = (Version, [Change<'static>; 4], &'static [u8]);

#[rattlefmt::skip]
const ROWS: [Row; 2] = [
    (V3, [Write(b"abcdef"), SetLen(3), Write(b"x"), SetLen(6)], b"abcx\0\0"),
    (V4, [Write(b"abcdef"), SetLen(3), Write(b"x"), SetLen(6)], b"abcx\0\0"),
];

/// Whether the file is sound, and its one stream holds this.
fn holds(
    alloc: Global,
    file: &mut CompoundFile<MemoryMedium>,
    wanted: &[u8],
) -> Result<bool, Error> {
    let mut found = Vec::new(alloc);
    let mut stream = file.open_read_stream("/data")?;
    let read = stream.read_to_end(&mut found);
    stream.close()?;
    read?;
    Ok(found.as_slice() == wanted && file.is_sound())
}

/// Makes one change.
fn make_change(stream: &mut Stream<'_, MemoryMedium>, change: Change<'_>) -> Result<(), Error> {
    match change {
        Change::Write(bytes) => stream.write_all(bytes),
        Change::SetLen(len) => stream.set_len(len),
    }
}

/// Makes these changes in turn.
fn make_changes(
    stream: &mut Stream<'_, MemoryMedium>,
    changes: &[Change<'_>],
) -> Result<(), Error> {
    for change in changes.iter().copied() {
        make_change(stream, change)?;
    }
    Ok(())
}

/// Makes the one stream, and these changes of it.
fn add_data(file: &mut CompoundFile<MemoryMedium>, changes: &[Change<'_>]) -> Result<(), Error> {
    let mut stream = file.create_new_stream("/data")?;
    let made = make_changes(&mut stream, changes);
    let closed = stream.close();
    made?;
    closed
}

/// A file of this version with the one stream, opened again.
fn made_and_reopened(
    alloc: Global,
    version: Version,
    changes: &[Change<'_>],
) -> Result<CompoundFile<MemoryMedium>, Error> {
    let mut file = CompoundFile::create_with_version(alloc, version, MemoryMedium::new(alloc))?;
    add_data(&mut file, changes)?;
    CompoundFile::open(alloc, file.into_inner())
}

/// Whether the changes of a row are read again.
fn is_read_again(alloc: Global, row: &Row) -> Result<bool, Error> {
    let (version, changes, wanted) = row;
    let mut file = made_and_reopened(alloc, *version, changes)?;
    holds(alloc, &mut file, wanted)
}

#[test]
fn changes_are_read_again(rt: HostRuntime) -> Result<(), Fail> {
    for row in &ROWS {
        assert!(rt; is_read_again(rt.alloc(), row)?);
    }
    Ok(())
}
