//! Streams that cannot be read to their ends.
ghost use Rattle.std.specs.Prelude.{◌≡◌, ◌<◌, false, Contains, IfOk, IsTrue, MatchOption, OnOk, chars, length};
ghost use Rattle.cfb_codecs.specs.EntryModel.{entries_of as entries_in};
ghost use Rattle.cfb_flaws.specs.declared.flaw.Flaw.TheVariants.{Cut as CutFlaw};
ghost use Rattle.cfb_flaws.specs.Flaws.{NoneOn, on_whole};
ghost use Rattle.cfb_format.specs.Siblings.{entry_at};
ghost use Rattle.cfb_tool.specs.cfb_agreement.Files.{is_failed};
ghost use Rattle.cfb_tool.specs.cfb_compound_file.cfb_copies.Steps.{IsReadOnly};
ghost use Rattle.cfb_tool.specs.Cuts.{HasCut, IsExtentAt};

use cfb_codecs::direntry::DirEntry;
use cfb_commands::CompoundFile;
use cfb_flaws::flaw::Flaw;
use cfb_format::error::Error;
use cfb_format::medium::ReadMedium;
use cfb_listing::entry::Entry;
use std::alloc::Allocator as Heap;

/// How much of a stream can be read, in bytes.
#[derive(Clone, Copy, Debug, PartialEq, Eq, Drop)]
pub struct Extent {
    /// How many bytes can be read, from the first one on.
    pub readable: u64,
    /// The length that the directory tells.
    pub len: u64,
}

/// A stream that cannot be read to its end.
#[derive(Clone, Copy, Debug, PartialEq, Eq, Drop)]
pub struct Cut {
    /// The number of its directory entry.
    pub stream: u32,
    pub extent: Extent,
}

/// How much of the stream at this path can be read.
///
/// # Errors
///
/// As `walk_storage`: `NotFound` and `InvalidInput` for the path; `Memory`.
pub fn extent_at<F: ReadMedium, A: Heap + Clone>(
    file: &CompoundFile<F, A>,
    path: &str,
) -> Result<Extent, Error>
    ensures ok { IsTrue F.tells → is_failed file.now ≡ false
        → IfOk result (IsExtentAt file.now (chars path.now)) }
{
    let number = file.number_at(path)?;
    let len = len_of(file.entries(), number);
    let readable = file.readable_of(number)?;
    Ok(Extent { readable, len })
}

/// The length in the entry of this number.
fn len_of<A: Heap>(entries: &[DirEntry<A>], number: u32) -> u64
    requires { number < length entries.now }
    ensures { result ≡ (entry_at (entries_in entries.now) number).stream_len }
{
    entries[number as usize].stream_len
}

/// A stream of the file that cannot be read to its end, or none if there is none. It takes time and
/// memory for all sectors and streams.
///
/// # Errors
///
/// `Failed` if an earlier change broke off; `Medium` if the medium failed; `Memory`.
pub fn cut_of<F: ReadMedium, A: Heap + Clone>(
    alloc: &A,
    file: &mut CompoundFile<F, A>,
) -> Result<Option<Cut>, Error>
    ensures ok { IsTrue F.tells → IfOk result (HasCut file.old) }
    ensures reads { IsReadOnly F.tells file.old file.new }
    ensures same { IsTrue F.tells → OnOk result (file.new ≡ file.old) }
{
    let flaws = file.flaws(alloc)?;
    Ok(first_cut(&flaws))
}

/// The first of these reasons that says of a stream that it cannot be read to its end.
fn first_cut(flaws: &[Flaw]) -> Option<Cut>
    ensures { MatchOption result (NoneOn on_whole flaws.now) (λ cut.
        Contains flaws.now (CutFlaw cut.stream cut.extent.readable cut.extent.len)) }
{
    for flaw in flaws {
        if let Flaw::Cut {
            stream,
            readable,
            len,
        } = *flaw
        {
            let extent = Extent { readable, len };
            return Some(Cut { stream, extent });
        }
    }
    None
}

/// What is told of the stream with that directory entry, or none if no stream has it.
///
/// # Errors
///
/// Those of `walk`, and `Memory`.
pub fn stream_by_entry<F: ReadMedium, A: Heap + Clone>(
    alloc: &A,
    file: &CompoundFile<F, A>,
    number: u32,
) -> Result<Option<Entry<A>>, Error> {
    let numbers = file.stream_numbers(alloc)?;
    let streams = file.walk()?.filter(|entry| entry.is_stream());
    for (entry, other) in streams.zip(&numbers) {
        if *other == number {
            return Ok(Some(entry));
        }
    }
    Ok(None)
}
