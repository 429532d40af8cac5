//! All bytes of a stream, copied from one file to another.
ghost use Rattle.std.specs.Prelude.{◌||◌, IsTrue, IfErr, IfOk, chars};
ghost use Rattle.cfb_whole_streams.specs.Content.{IsCopied, IsNotCopied, IsOnlyRead};

use crate::content::{read_stream, write_stream};
use cfb_commands::CompoundFile;
use cfb_format::error::Error;
use cfb_format::medium::{Medium, ReadMedium};
use std::alloc::Allocator as Heap;

/// Copies all bytes of the stream at `from_path` to the stream at `to_path` of another file, which is made or gets them in place of its
/// own, and returns how many there are. All bytes are in memory of `alloc` at once: the second file is touched only once the first has been
/// read to the stream's end. The first file does not change. [`CompoundFile::copy_to`] copies a whole file.
///
/// ```rust
/// /// Copies the stream `/data` into another file, and returns its length.
/// pub fn copy_data<F: ReadMedium, G: Medium>(
///     alloc: Global,
///     from: &mut CompoundFile<F>,
///     to: &mut CompoundFile<G>,
/// ) -> Result<u64, Error> {
///     cfb::copy_stream(alloc, from, "/data", to, "/data")
/// }
/// ```
///
/// # Errors
///
/// Those of [`read_stream`], before the second file is touched; then those of [`write_stream`].
pub fn copy_stream<F: ReadMedium, A: Heap + Clone, G: Medium, B: Heap + Clone>(
    alloc: A,
    from: &mut CompoundFile<F, A>,
    from_path: &str,
    to: &mut CompoundFile<G, B>,
    to_path: &str,
) -> Result<u64, Error>
    ensures copied { IsTrue F.tells → IsTrue G.tells → IfOk result (IsCopied (λ f. G.read_faults f
        || G.write_faults f) from.old (chars from_path.now) to.old (chars to_path.now) to.new) }
    ensures refused { IsTrue F.tells → IsTrue G.tells → IfErr result (IsNotCopied (λ f. G.read_faults f
        || G.write_faults f) from.old (chars from_path.now) from.new to.old (chars to_path.now) to.new) }
    ensures kept { IsTrue F.tells → IsOnlyRead from.old from.new }
{
    let bytes = read_stream(alloc, from, from_path)?;
    write_stream(to, to_path, &bytes)?;
    Ok(bytes.len() as u64)
}
