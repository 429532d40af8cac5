//! Calls at a file of the system that are made again where a signal interrupts them: 18446744073709551615 times at most, and then they
//! answer so, as std's own calls do.
ghost use Rattle.std.specs.Io.{ReadsAtMost, WritesAtMost};

use std::fs::File;
use std::io;
use std::io::ErrorKind;
use std::os::unix::fs::FileExt;

/// The length of the file, in bytes.
pub(crate) fn length_of(file: &File) -> io::Result<u64> {
    for _ in 0..u64::MAX {
        match file.metadata() {
            Ok(metadata) => return Ok(metadata.len()),
            Err(error) if error.kind() == ErrorKind::Interrupted => {}
            Err(error) => return Err(error),
        }
    }
    Err(io::Error::from(ErrorKind::Interrupted))
}

/// Reads bytes from `at` on into a beginning of `into`, and answers how many.
pub(crate) fn read_at(file: &File, at: u64, into: &mut [u8]) -> io::Result<usize>
    ensures { ReadsAtMost result into.new }
{
    for _ in 0..u64::MAX {
        match file.read_at(into, at) {
            Ok(count) => return Ok(count),
            Err(error) if error.kind() == ErrorKind::Interrupted => {}
            Err(error) => return Err(error),
        }
    }
    Err(io::Error::from(ErrorKind::Interrupted))
}

/// Writes a beginning of `from` at `at`, and answers how long it is.
pub(crate) fn write_at(file: &File, at: u64, from: &[u8]) -> io::Result<usize>
    ensures { WritesAtMost result from.now }
{
    for _ in 0..u64::MAX {
        match file.write_at(from, at) {
            Ok(count) => return Ok(count),
            Err(error) if error.kind() == ErrorKind::Interrupted => {}
            Err(error) => return Err(error),
        }
    }
    Err(io::Error::from(ErrorKind::Interrupted))
}
