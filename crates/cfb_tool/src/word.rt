//! The words of the program: the first word of a run, and what `help` tells of.
ghost use Rattle.std.specs.Prelude.{◌≡◌, MatchOption};
ghost use Rattle.cfb_tool.specs.declared.word.Change.{Change as TheChange};
ghost use Rattle.cfb_tool.specs.declared.word.Word.{Word as TheWord};
ghost use Rattle.cfb_tool.specs.Word.{change_text, word_text};

/// A word that makes one change of a file, as a line of `run` does.
#[derive(Clone, Copy, Debug, PartialEq, Eq)]
pub enum Change {
    /// `mkdir`: a new storage.
    Mkdir,
    /// `mkdirs`: a storage, and those above it that are missing.
    Mkdirs,
    /// `rmdir`: an empty storage goes.
    Rmdir,
    /// `rmtree`: a storage goes with all that is in it.
    Rmtree,
    /// `rm`: a stream goes.
    Rm,
    /// `touch`: the moment of the last change of a storage.
    Touch,
    /// `bits`: the state bits of a storage or a stream.
    Bits,
    /// `len`: the length of a stream.
    Len,
    /// `clsid`: the class id of a storage.
    Clsid,
    /// `add`: bytes behind the end of a stream.
    Add,
}

/// A word of the program that has a help of its own.
#[derive(Clone, Copy, Debug, PartialEq, Eq)]
pub enum Word {
    Ls,
    Tree,
    Info,
    Map,
    Check,
    Cat,
    Extract,
    Dump,
    Create,
    Put,
    Changing(Change),
    Run,
    Compact,
    Salvage,
}

impl Change {
    /// The word as it is written.
    pub fn text(self) -> &'static str
        ensures { result.now ≡ change_text self }
    {
        match self {
            Change::Mkdir => "mkdir",
            Change::Mkdirs => "mkdirs",
            Change::Rmdir => "rmdir",
            Change::Rmtree => "rmtree",
            Change::Rm => "rm",
            Change::Touch => "touch",
            Change::Bits => "bits",
            Change::Len => "len",
            Change::Clsid => "clsid",
            Change::Add => "add",
        }
    }
}

impl Word {
    /// The word as it is written.
    pub fn text(self) -> &'static str
        ensures { result.now ≡ word_text self }
    {
        match self {
            Word::Ls => "ls",
            Word::Tree => "tree",
            Word::Info => "info",
            Word::Map => "map",
            Word::Check => "check",
            Word::Cat => "cat",
            Word::Extract => "extract",
            Word::Dump => "dump",
            Word::Create => "create",
            Word::Put => "put",
            Word::Changing(change) => change.text(),
            Word::Run => "run",
            Word::Compact => "compact",
            Word::Salvage => "salvage",
        }
    }
}

/// The change that is written so. None where there is none.
pub fn change_by(text: &str) -> Option<Change>
    ensures { MatchOption result
        ((c : TheChange) → change_text c ≡ text.now → ⊥)
        (λ c. change_text c ≡ text.now) }
{
    match text {
        "mkdir" => Some(Change::Mkdir),
        "mkdirs" => Some(Change::Mkdirs),
        "rmdir" => Some(Change::Rmdir),
        "rmtree" => Some(Change::Rmtree),
        "rm" => Some(Change::Rm),
        "touch" => Some(Change::Touch),
        "bits" => Some(Change::Bits),
        "len" => Some(Change::Len),
        "clsid" => Some(Change::Clsid),
        "add" => Some(Change::Add),
        _ => None,
    }
}

/// The word that is written so. None where there is none.
pub fn word_by(text: &str) -> Option<Word>
    ensures { MatchOption result
        ((w : TheWord) → word_text w ≡ text.now → ⊥)
        (λ w. word_text w ≡ text.now) }
{
    match text {
        "ls" => Some(Word::Ls),
        "tree" => Some(Word::Tree),
        "info" => Some(Word::Info),
        "map" => Some(Word::Map),
        "check" => Some(Word::Check),
        "cat" => Some(Word::Cat),
        "extract" => Some(Word::Extract),
        "dump" => Some(Word::Dump),
        "create" => Some(Word::Create),
        "put" => Some(Word::Put),
        "run" => Some(Word::Run),
        "compact" => Some(Word::Compact),
        "salvage" => Some(Word::Salvage),
        _ => match change_by(text) {
            Some(change) => Some(Word::Changing(change)),
            None => None,
        },
    }
}
