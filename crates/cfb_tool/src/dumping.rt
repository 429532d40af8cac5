//! A file as lines of `run` that make its tree.
ghost use Rattle.std.specs.Prelude.{◌≡◌, ◌<◌, true, [], All, IfErr, IfOk, IsTrue, OnOk, chars, length, string_bytes};
ghost use Rattle.cfb_tool.specs.cfb_compound_file.ReadStreams.{file_of, open_of};
ghost use Rattle.cfb_tool.specs.cfb_compound_file.Stored.{kept_of};
ghost use Rattle.cfb_tool.specs.cfb_compound_file.StreamAnswers.{stream_in};
ghost use Rattle.cfb_whole_streams.specs.Content.{IsOnlyRead};
ghost use Rattle.cfb_tool.specs.Dumping.{CanBeDumped, IsDumped, IsNotDumped, IsPlacedAt, NamesUnreached, SendsNoObject, SendsNoStream, SendsObject, can_be_dumped, comment_line, is_named_as};
ghost use Rattle.cfb_tool.specs.Sending.{IsAtStart, IsOfOutput, IsSent, SendsDigits, SendsNotAll};
ghost use Rattle.cfb_tool.specs.cfb_outline.Families.{is_stream_kind};
ghost use Rattle.cfb_lines.specs.Writing.{Lacks};

use crate::dump_error::DumpError;
use crate::listing::walked;
use cfb_commands::CompoundFile;
use cfb_compound_file::read_stream::ReadStream;
use cfb_format::error::{Detail, Error};
use cfb_format::medium::{MediumFault, ReadMedium};
use cfb_lines::naming::{can_be_named, has_backslash};
use cfb_lines::objects::{push_object, push_stream_end, push_stream_head};
use cfb_lines::writing::push_hex;
use cfb_listing::entry::Entry;
use std::alloc::{AllocError, Allocator as Heap};
use std::io::Write;

/// How many bytes are read at once, and how long a text is at least that is written before the end.
const PIECE_LEN: usize = 65536;

/// Whether a path can say the name of the object; the root needs none.
fn is_named<A: Heap>(entry: &Entry<A>) -> bool
    ensures { result ≡ is_named_as entry.now.obj_type entry.now }
{
    entry.is_root() || can_be_named(entry.name())
}

/// Whether a path leads to the object.
fn is_reached<A: Heap>(entry: &Entry<A>) -> bool
    ensures { result ≡ can_be_dumped entry.now }
{
    is_named(entry) && !has_backslash(entry.path())
}

/// That a path leads to each of the objects.
fn check_reached<A: Heap + Clone>(alloc: &A, told: &[Entry<A>]) -> Result<(), DumpError<A>>
    ensures all { OnOk result (All CanBeDumped told.now) }
    ensures refused { IfErr result (NamesUnreached told.now) }
{
    for entry in told {
        if !is_reached(entry) {
            let e = Error::InvalidData(Detail::text("no path leads to this object"));
            return Err(at_object(alloc, DumpError::File(e), entry));
        }
    }
    Ok(())
}

/// The error, where it is the file's, with the path of the object that it came at.
fn at_object<A: Heap + Clone>(alloc: &A, error: DumpError<A>, entry: &Entry<A>) -> DumpError<A>
    ensures { IsPlacedAt entry.now.path error result }
{
    match error {
        DumpError::File(e) => match path_of(alloc, entry) {
            Ok(path) => DumpError::Object(e, path),
            Err(e) => DumpError::from(e),
        },
        other => other,
    }
}

fn path_of<A: Heap + Clone>(alloc: &A, entry: &Entry<A>) -> Result<String<A>, AllocError>
    ensures { IfOk result (λ path. chars (string_bytes path) ≡ entry.now.path) }
{
    String::from_str(alloc.clone()?, entry.path())
}

/// Writes the text.
fn send<A: Heap, W: Write>(text: &mut String<A>, out: &mut W) -> Result<(), DumpError<A>>
    ensures sent { OnOk result (IsSent (W.contents out.old) (W.contents out.new)
        (string_bytes text.old) (string_bytes text.new)) }
    ensures all { OnOk result (string_bytes text.new ≡ []) }
    ensures refused { IfErr result IsOfOutput }
{
    out.write_all(text.as_bytes())?;
    text.clear();
    Ok(())
}

/// Writes the text if it is long.
fn send_long<A: Heap, W: Write>(text: &mut String<A>, out: &mut W) -> Result<(), DumpError<A>>
    ensures sent { OnOk result (IsSent (W.contents out.old) (W.contents out.new)
        (string_bytes text.old) (string_bytes text.new)) }
    ensures refused { IfErr result IsOfOutput }
{
    if text.len() < PIECE_LEN {
        return Ok(());
    }
    send(text, out)
}

/// The medium gives what no medium can.
fn stuck<A: Heap>() -> DumpError<A> {
    DumpError::File(Error::Medium(MediumFault::Stuck))
}

/// Writes two digits for each byte of the stream from its start to its end, behind the text. It reads
/// in pieces.
fn write_digits<F: ReadMedium, A: Heap + Clone, W: Write>(
    stream: &mut ReadStream<'_, F, A>,
    piece: &mut [u8],
    text: &mut String<A>,
    out: &mut W,
) -> Result<(), DumpError<A>>
    requires { 0 < length piece.now }
    ensures same_file { (file_of stream.new).ghost_name ≡ (file_of stream.old).ghost_name }
    ensures kept { IsTrue F.tells
        → kept_of (file_of stream.new).now ≡ kept_of (file_of stream.old).now }
    ensures sent { IsTrue F.tells → IsAtStart (open_of stream.old) → OnOk result
        (SendsDigits (stream_in (open_of stream.old)) (W.contents out.old) (W.contents out.new)
        (string_bytes text.old) (string_bytes text.new)) }
    ensures refused { IsTrue F.tells → IsAtStart (open_of stream.old)
        → IfErr result (SendsNotAll F.read_faults (stream_in (open_of stream.old))
        (W.contents out.old) (W.contents out.new) (string_bytes text.old)) }
{
    let mut left = stream.len();
    while left > 0 {
        let count = stream.read(piece)?;
        // a read before the end gives at least one byte, and none behind it
        if count == 0 {
            return Err(stuck());
        }
        if count as u64 > left {
            return Err(stuck());
        }
        push_hex(text, &piece[..count])?;
        send_long(text, out)?;
        left -= count as u64;
    }
    Ok(())
}

/// Writes the lines that make a stream behind the text.
fn dump_stream<F: ReadMedium, A: Heap + Clone, W: Write>(
    alloc: &A,
    file: &mut CompoundFile<F, A>,
    entry: &Entry<A>,
    piece: &mut [u8],
    text: &mut String<A>,
    out: &mut W,
) -> Result<(), DumpError<A>>
    requires path { Lacks 92 entry.now.path }
    requires kind { is_stream_kind entry.now.obj_type ≡ true }
    requires piece { 0 < length piece.now }
    ensures sent { IsTrue F.tells → OnOk result (SendsObject file.old entry.now
        (W.contents out.old) (W.contents out.new) (string_bytes text.old) (string_bytes text.new)) }
    ensures refused { IsTrue F.tells
        → IfErr result (SendsNoStream F.read_faults file.old entry.now.path
        (W.contents out.old) (W.contents out.new) (string_bytes text.old)) }
    ensures kept { IsTrue F.tells → IsOnlyRead file.old file.new }
{
    push_stream_head(alloc, text, entry)?;
    let mut stream = file.open_read_stream(entry.path())?;
    let written = write_digits(&mut stream, piece, text, out);
    let closed = stream.close();
    written?;
    closed?;
    push_stream_end(alloc, text, entry)?;
    send_long(text, out)?;
    Ok(())
}

/// Writes the lines that make an object behind the text.
fn dump_object<F: ReadMedium, A: Heap + Clone, W: Write>(
    alloc: &A,
    file: &mut CompoundFile<F, A>,
    entry: &Entry<A>,
    piece: &mut [u8],
    text: &mut String<A>,
    out: &mut W,
) -> Result<(), DumpError<A>>
    requires path { Lacks 92 entry.now.path }
    requires piece { 0 < length piece.now }
    ensures sent { IsTrue F.tells → OnOk result (SendsObject file.old entry.now
        (W.contents out.old) (W.contents out.new) (string_bytes text.old) (string_bytes text.new)) }
    ensures refused { IsTrue F.tells → IfErr result (SendsNoObject F.read_faults file.old entry.now
        (W.contents out.old) (W.contents out.new) (string_bytes text.old)) }
    ensures kept { IsTrue F.tells → IsOnlyRead file.old file.new }
{
    if entry.is_stream() {
        return match dump_stream(alloc, file, entry, piece, text, out) {
            Ok(()) => Ok(()),
            Err(e) => Err(at_object(alloc, e, entry)),
        };
    }
    push_object(alloc, text, entry)?;
    send_long(text, out)?;
    Ok(())
}

/// The comment that a dump begins with.
fn first_line<A: Heap>(alloc: A, version: u16) -> Result<String<A>, AllocError>
    ensures { IfOk result (λ text. string_bytes text ≡ comment_line version) }
{
    format!(in alloc; "# cfbtool dump, version {version}\n")
}

/// Writes lines of `run` behind a comment. In an empty file they make this file's tree: its objects
/// with their class ids, bits, moments, contents and names, and the fields of the root. What a tree has
/// not, as a moment of a stream, they do not tell.
///
/// It reads and writes in pieces of some 64 KB, so memory does not follow the length of a stream. It
/// does not flush `out`.
///
/// # Errors
///
/// `Failed` on a file that has failed. Before anything is written: where no path leads to an object, as
/// where a name is `..`, and as `walk`. Later: where a stream can't be read to its end, and `Medium`
/// and `Memory`: a beginning of the lines was written then. Where `out` refuses.
pub fn dump<F: ReadMedium, A: Heap + Clone, W: Write>(
    alloc: &A,
    file: &mut CompoundFile<F, A>,
    out: &mut W,
) -> Result<(), DumpError<A>>
    ensures dumped { IsTrue F.tells
        → OnOk result (IsDumped file.old (W.contents out.old) (W.contents out.new)) }
    ensures refused { IsTrue F.tells → IfErr result
        (IsNotDumped F.read_faults file.old (W.contents out.old) (W.contents out.new)) }
    ensures kept { IsTrue F.tells → IsOnlyRead file.old file.new }
{
    if file.is_failed() {
        return Err(DumpError::File(Error::Failed));
    }
    let told = walked(alloc, file)?;
    check_reached(alloc, &told)?;
    let mut text = first_line(alloc.clone()?, file.version().number())?;
    let mut bytes = Vec::from_elem(alloc.clone()?, 0u8, PIECE_LEN)?;
    let piece = bytes.as_mut_slice();
    for entry in &told {
        dump_object(alloc, file, entry, piece, &mut text, out)?;
    }
    send(&mut text, out)?;
    Ok(())
}
