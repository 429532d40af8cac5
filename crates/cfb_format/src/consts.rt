//! The constants of the format, and how words of its tables are printed.
ghost use Rattle.std.specs.Prelude.{◌≡◌, ◌+◌, ◌++◌, ◌∷◌, [], All, IfOk, IfErr, IfSome, IfNone, OnOk, false, flat_map};
ghost use Rattle.cfb_format.specs.declared.error.Error.TheVariants.{Memory};
ghost use Rattle.cfb_format.specs.Runs.{run_words, first_word, counts_on, goes_on, AreLongest, StaysBelowMarks};

use crate::error::Error;
use std::alloc::{AllocError, Allocator};
use std::fmt;

/// The length of the header, in bytes (MS-CFB 2.2).
pub const HEADER_LEN: usize = 512;
/// The length of a directory entry, in bytes (MS-CFB 2.6.1).
pub const DIR_ENTRY_LEN: usize = 128;
/// How many entries of the DIFAT stand in the header (MS-CFB 2.5).
pub const NUM_DIFAT_ENTRIES_IN_HEADER: usize = 109;

// The header's fixed fields (MS-CFB 2.2).
/// The header signature: the first 8 bytes of a file.
pub const MAGIC_NUMBER: [u8; 8] = [0xd0, 0xcf, 0x11, 0xe0, 0xa1, 0xb1, 0x1a, 0xe1];
/// The minor version that is written. It is not looked at when a header is read.
pub const MINOR_VERSION: u16 = 0x3e;
/// Says that numbers are little-endian.
pub const BYTE_ORDER_MARK: u16 = 0xfffe;
/// The power of 2 that the length of a mini sector is.
pub const MINI_SECTOR_SHIFT: u16 = 6;
/// The length of a mini sector, in bytes (MS-CFB 2.4).
pub const MINI_SECTOR_LEN: usize = 64;
/// The length, in bytes, from which on a stream lies in sectors and no more in mini sectors.
pub const MINI_STREAM_CUTOFF: u32 = 4096;

// What stands in a table in place of a sector's number (MS-CFB 2.1).
/// The greatest number that a sector may have.
pub const MAX_REGULAR_SECTOR: u32 = 0xffff_fffa;
/// Reserved: it is neither a sector's number nor a mark.
pub const INVALID_SECTOR: u32 = 0xffff_fffb;
/// Marks a sector that holds entries of the DIFAT (MS-CFB 2.5).
pub const DIFAT_SECTOR: u32 = 0xffff_fffc;
/// Marks a sector that holds words of the FAT (MS-CFB 2.3).
pub const FAT_SECTOR: u32 = 0xffff_fffd;
/// Marks the last sector of a chain.
pub const END_OF_CHAIN: u32 = 0xffff_fffe;
/// Marks a sector that is not used.
pub const FREE_SECTOR: u32 = 0xffff_ffff;

// The fields of a directory entry (MS-CFB 2.6.1).
/// The name of the root's entry (MS-CFB 2.6.2).
pub const ROOT_DIR_NAME: &str = "Root Entry";
/// The type of an entry that is not used.
pub const OBJ_TYPE_UNALLOCATED: u8 = 0;
/// The type of a storage.
pub const OBJ_TYPE_STORAGE: u8 = 1;
/// The type of a stream.
pub const OBJ_TYPE_STREAM: u8 = 2;
/// The type of the root storage.
pub const OBJ_TYPE_ROOT: u8 = 5;
/// The colour of a red node.
pub const COLOR_RED: u8 = 0;
/// The colour of a black node.
pub const COLOR_BLACK: u8 = 1;
/// The number of the root's entry.
pub const ROOT_STREAM_ID: u32 = 0;
/// The greatest number that a directory entry may have.
pub const MAX_REGULAR_STREAM_ID: u32 = 0xffff_fffa;
/// Stands in place of an entry's number where there is none.
pub const NO_STREAM: u32 = 0xffff_ffff;

/// Words of a table that stand together and are printed as one.
#[derive(Clone, Copy, PartialEq, Eq)]
pub enum Run {
    /// So many free sectors.
    Free(u32),
    /// The end of a chain.
    End,
    /// So many sectors of the FAT.
    Fat(u32),
    /// So many sectors of the DIFAT.
    Difat(u32),
    /// A number, and so many more that follow it in order. The last one stays below the marks.
    Numbers(u32, u32),
}

impl fmt::Debug for Run {
    fn fmt<W: fmt::Write>(&self, f: &mut fmt::Formatter<W>) -> fmt::Result {
        match *self {
            Run::Free(count) => fmt_counted(f, count, "FREE"),
            Run::End => f.write_str("EOC"),
            Run::Fat(count) => fmt_counted(f, count, "FAT"),
            Run::Difat(count) => fmt_counted(f, count, "DIFAT"),
            Run::Numbers(first, 0) => write!(f, "{first}"),
            Run::Numbers(first, more) => {
                let last = u64::from(first) + u64::from(more);
                write!(f, "{first}..={last}")
            }
        }
    }
}

/// Writes the mark, and before it how many there are unless it is one.
fn fmt_counted<W: fmt::Write>(f: &mut fmt::Formatter<W>, count: u32, mark: &str) -> fmt::Result {
    if count == 1 {
        return f.write_str(mark);
    }
    write!(f, "{count} {mark}")
}

/// Words of a table that print as their runs, with no memory for a list of them.
#[derive(Clone, Copy)]
pub struct Runs<'a>(pub &'a [u32]);

impl fmt::Debug for Runs<'_> {
    fn fmt<W: fmt::Write>(&self, f: &mut fmt::Formatter<W>) -> fmt::Result {
        let mut list = f.debug_list();
        let mut last = None;
        for word in self.0 {
            let longer = last.and_then(|run| longer_run(run, *word));
            if longer.is_none()
                && let Some(run) = last
            {
                list.entry(&run);
            }
            last = Some(longer.unwrap_or(run_of(*word)));
        }
        if let Some(run) = last {
            list.entry(&run);
        }
        list.finish()
    }
}

/// Words of a table, gathered into runs for printing, each as long as it can be. `Memory` where
/// the list gets none.
pub fn prettify<A: Allocator>(alloc: A, words: &[u32]) -> Result<Vec<Run, A>, Error>
    ensures ok { IfOk result (λ runs. flat_map run_words runs.items ≡ words.now) }
    ensures longest { IfOk result (λ runs. AreLongest runs.items) }
    ensures numbers { IfOk result (λ runs. All StaysBelowMarks runs.items) }
    ensures err { IfErr result (λ e. e ≡ Memory) }
{
    let mut runs = Vec::new(alloc);
    for word in words {
        push_word(&mut runs, *word)?;
    }
    Ok(runs)
}

/// Puts a word behind the last run, or into it.
fn push_word<A: Allocator>(runs: &mut Vec<Run, A>, word: u32) -> Result<(), AllocError>
    ensures words { OnOk result (flat_map run_words runs.new.items
        ≡ flat_map run_words runs.old.items ++ word ∷ []) }
    ensures longest { AreLongest runs.old.items → OnOk result (AreLongest runs.new.items) }
    ensures numbers { All StaysBelowMarks runs.old.items
        → OnOk result (All StaysBelowMarks runs.new.items) }
{
    match runs.pop() {
        Some(last) => push_behind(runs, last, word),
        None => Ok(runs.push(run_of(word))?),
    }
}

/// Puts back the last run: a word longer, or as it was with a run of the word behind it.
fn push_behind<A: Allocator>(runs: &mut Vec<Run, A>, last: Run, word: u32) -> Result<(), AllocError>
    ensures words { OnOk result (flat_map run_words runs.new.items
        ≡ flat_map run_words (runs.old.items ++ last ∷ []) ++ word ∷ []) }
    ensures longest { AreLongest (runs.old.items ++ last ∷ [])
        → OnOk result (AreLongest runs.new.items) }
    ensures numbers { All StaysBelowMarks (runs.old.items ++ last ∷ [])
        → OnOk result (All StaysBelowMarks runs.new.items) }
{
    let Some(longer) = longer_run(last, word) else {
        runs.push(last)?;
        return Ok(runs.push(run_of(word))?);
    };
    Ok(runs.push(longer)?)
}

/// The run of one word.
pub fn run_of(word: u32) -> Run
    ensures words { run_words result ≡ word ∷ [] }
    ensures first { first_word result ≡ word }
    ensures numbers { StaysBelowMarks result }
{
    match word {
        END_OF_CHAIN => Run::End,
        FREE_SECTOR => Run::Free(1),
        FAT_SECTOR => Run::Fat(1),
        DIFAT_SECTOR => Run::Difat(1),
        _ => Run::Numbers(word, 0),
    }
}

/// The run with a word more, if the word goes on with it.
fn longer_run(run: Run, word: u32) -> Option<Run>
    ensures words { IfSome result (λ longer. run_words longer ≡ run_words run ++ word ∷ []) }
    ensures first { IfSome result (λ longer. first_word longer ≡ first_word run) }
    ensures numbers { IfSome result StaysBelowMarks }
    ensures longest { IfNone result (goes_on run word ≡ false) }
{
    match run {
        Run::End => None,
        Run::Free(count) => Some(Run::Free(longer_count(FREE_SECTOR, count, word)?)),
        Run::Fat(count) => Some(Run::Fat(longer_count(FAT_SECTOR, count, word)?)),
        Run::Difat(count) => Some(Run::Difat(longer_count(DIFAT_SECTOR, count, word)?)),
        Run::Numbers(first, more) => longer_numbers(first, more, word),
    }
}

/// One more of a mark, if the word is the mark.
fn longer_count(mark: u32, count: u32, word: u32) -> Option<u32>
    ensures some { IfSome result (λ more. (word ≡ mark) × (more ≡ count + 1)) }
    ensures none { IfNone result (counts_on mark count word ≡ false) }
{
    if word != mark {
        return None;
    }
    count.checked_add(1)
}

fn longer_numbers(first: u32, more: u32, word: u32) -> Option<Run>
    ensures words { IfSome result (λ longer. run_words longer
        ≡ run_words (Run.Numbers first more) ++ word ∷ []) }
    ensures first { IfSome result (λ longer. first_word longer ≡ first) }
    ensures numbers { IfSome result StaysBelowMarks }
    ensures longest { IfNone result (goes_on (Run.Numbers first more) word ≡ false) }
{
    let more = more.checked_add(1)?;
    if word <= INVALID_SECTOR && u64::from(first) + u64::from(more) == u64::from(word) {
        Some(Run::Numbers(first, more))
    } else {
        None
    }
}
