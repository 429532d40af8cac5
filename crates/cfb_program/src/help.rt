//! What the program tells of itself.
use cfb_tool::word::{Change, Word};

mod texts;

/// The words, on one screen.
pub const HELP: &str =
    "cfbtool: looks into and changes compound files (.doc .xls .msg .msi Thumbs.db)

  ls [-l] FILE [PATH]     objects: d or f, length, path; -l: ids, bits, times
  tree FILE [PATH]        the same as a tree
  info FILE               header, sectors, and why the file is not sound
  map FILE                which sectors belong to what
  check FILE [strict]     sound (status 0) or not (1)
  cat FILE PATH           the bytes of a stream
  extract FILE [PATH] DIR all streams into a new folder
  dump FILE               as lines that 'run' takes
  create 3|4 FILE         an empty file; EMPTIES one that is there
  put FILE PATH [FROM]    a stream, from FROM or standard input
  mkdir mkdirs rmdir rmtree rm touch bits len clsid add FILE PATH ...
  run [-e] FILE           such lines from standard input; -e: explains refusals
  compact FILE NEW        a copy without free sectors
  salvage FILE NEW        what can be read of a damaged file

WORD --no-sync .. (or CFBTOOL_SYNC=off) does not wait for the disk: FILE is safe
if the command is killed or the disk is full, but not if the power fails.
PATH is /storage/stream, in any case of letters; \\u0005 is the character U+0005.
Status: 0 done, 1 refused, 2 wrong words. More: cfbtool help WORD.
";

/// The version.
pub const VERSION: &str = "cfbtool 0.16.0 (kit 13f)\n";

/// What a word that makes one change does.
fn help_on_change(change: Change) -> &'static str {
    match change {
        Change::Mkdir => texts::MKDIR,
        Change::Mkdirs => texts::MKDIRS,
        Change::Rmdir => texts::RMDIR,
        Change::Rmtree => texts::RMTREE,
        Change::Rm => texts::RM,
        Change::Touch => texts::TOUCH,
        Change::Bits => texts::BITS,
        Change::Len => texts::LEN,
        Change::Clsid => texts::CLSID,
        Change::Add => texts::ADD,
    }
}

/// What a word does.
pub fn help_on(word: Word) -> &'static str {
    match word {
        Word::Ls => texts::LS,
        Word::Tree => texts::TREE,
        Word::Info => texts::INFO,
        Word::Map => texts::MAP,
        Word::Check => texts::CHECK,
        Word::Cat => texts::CAT,
        Word::Extract => texts::EXTRACT,
        Word::Dump => texts::DUMP,
        Word::Create => texts::CREATE,
        Word::Put => texts::PUT,
        Word::Changing(change) => help_on_change(change),
        Word::Run => texts::RUN,
        Word::Compact => texts::COMPACT,
        Word::Salvage => texts::SALVAGE,
    }
}
