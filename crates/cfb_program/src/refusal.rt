//! Why a run was not done, and the line that says so. No line takes memory.
use crate::output::Output;
use crate::shown::Shown;
use cfb::{Error, MediumFault};
use cfb_shown::write_error::WriteError;
use cfb_tool::asking::Asked;
use cfb_tool::cuts::Extent;
use cfb_tool::word::Word;
use std::alloc::{AllocError, AllocFailed};
use std::io;
use std::io::ErrorKind;
use std::process::ExitCode;

/// Why a run was not done.
#[derive(Clone, Copy)]
pub enum Refusal {
    /// The words are wrong, or a line of the input.
    WrongWords,
    /// The same, and standard error has been told.
    ToldWrong,
    /// Something is where a new file or folder was to be.
    TargetExists,
    /// Standard output or standard error has told it.
    Told,
    /// FILE was refused so when it was opened.
    Opening(Error),
    /// A call was refused so, at PATH where one is given.
    Of(Error),
    /// The system refused a call there.
    System(Place, io::Error),
    /// The system refused a call at FILE, and all that was changed is as it was.
    TakenBack(io::Error),
    /// The journal of FILE is none that an interrupted change leaves.
    Damaged,
    /// The journal beside FILE is of another file.
    Foreign,
    /// The system refused to read the journal of FILE, to write it or to make it.
    Journal(io::Error),
    /// Another program is changing FILE.
    Busy,
    /// What was to be shown on a terminal is no text.
    NotText,
    /// Of the stream at PATH only so much can be read.
    NotWhole(Extent),
}

/// Where the system refuses a call.
#[derive(Clone, Copy)]
pub enum Place {
    /// FILE.
    File,
    /// The other file that was named.
    Other,
    Input,
    Output,
}

/// What a run is of, as it was given.
#[derive(Clone, Copy)]
pub struct About<'a> {
    /// FILE.
    pub file: &'a str,
    /// PATH.
    pub path: Option<&'a str>,
    /// FROM, NEW or DIR.
    pub other: Option<&'a str>,
}

impl Refusal {
    /// The system refused a call at FILE.
    pub fn of_system(e: io::Error) -> Refusal {
        Refusal::at(Place::File, e)
    }

    /// The system refused a call at the other file that was named.
    pub fn of_other_system(e: io::Error) -> Refusal {
        Refusal::at(Place::Other, e)
    }

    /// The system refused a call at the journal of FILE.
    pub(crate) fn of_journal(e: io::Error) -> Refusal {
        match e.kind() {
            ErrorKind::OutOfMemory => Refusal::Of(Error::Memory),
            _ => Refusal::Journal(e),
        }
    }

    /// Standard input failed.
    pub fn of_input(e: io::Error) -> Refusal {
        Refusal::at(Place::Input, e)
    }

    /// Standard output failed.
    pub fn of_output(e: io::Error) -> Refusal {
        Refusal::at(Place::Output, e)
    }

    /// Want of memory is told as such, wherever it was.
    pub(crate) fn at(place: Place, e: io::Error) -> Refusal {
        match e.kind() {
            ErrorKind::OutOfMemory => Refusal::Of(Error::Memory),
            _ => Refusal::System(place, e),
        }
    }

    /// A fault of the medium, with the reason that it gives.
    pub fn because(self, reason: Option<io::Error>) -> Refusal {
        match (self, reason) {
            (Refusal::Of(Error::Medium(_)) | Refusal::Opening(Error::Medium(_)), Some(e)) => {
                Refusal::of_system(e)
            }
            _ => self,
        }
    }
}

impl From<Error> for Refusal {
    fn from(e: Error) -> Refusal {
        Refusal::Of(e)
    }
}

impl From<WriteError> for Refusal {
    fn from(e: WriteError) -> Refusal {
        match e {
            WriteError::File(e) => Refusal::Of(e),
            WriteError::Output(e) => Refusal::of_output(e),
        }
    }
}

impl From<AllocError> for Refusal {
    fn from(_e: AllocError) -> Refusal {
        Refusal::Of(Error::Memory)
    }
}

impl<T: Drop> From<AllocFailed<T>> for Refusal {
    fn from(_e: AllocFailed<T>) -> Refusal {
        Refusal::Of(Error::Memory)
    }
}

impl Place {
    /// The file's name in messages. Standard input and output have none.
    fn name<'a>(self, about: About<'a>) -> &'a str {
        match self {
            Place::File => about.file,
            Place::Other => about.other.unwrap_or(""),
            Place::Input | Place::Output => "",
        }
    }
}

impl<'a> About<'a> {
    fn new(file: &'a str) -> About<'a> {
        About {
            file,
            path: None,
            other: None,
        }
    }

    fn at(self, path: &'a str) -> About<'a> {
        About {
            path: Some(path),
            ..self
        }
    }

    fn and(self, other: &'a str) -> About<'a> {
        About {
            other: Some(other),
            ..self
        }
    }

    /// What a run is of that is asked for this.
    pub fn of(asked: Asked<'a>) -> About<'a> {
        match asked {
            Asked::Create(_, file)
            | Asked::ListAll(file)
            | Asked::DetailsAll(file)
            | Asked::TreeAll(file)
            | Asked::Info(file)
            | Asked::Map(file)
            | Asked::Check(file)
            | Asked::Dump(file)
            | Asked::CheckStrict(file)
            | Asked::Run(file)
            | Asked::RunExplained(file) => About::new(file),
            Asked::ListAt(file, path)
            | Asked::DetailsAt(file, path)
            | Asked::TreeAt(file, path)
            | Asked::Cat(file, path)
            | Asked::Put(file, path)
            | Asked::OneChange(_, file, path)
            | Asked::OneChangeBy(_, file, path, _) => About::new(file).at(path),
            Asked::PutFrom(file, path, other) | Asked::ExtractAt(file, path, other) => {
                About::new(file).at(path).and(other)
            }
            Asked::ExtractAll(file, other)
            | Asked::Compact(file, other)
            | Asked::Salvage(file, other) => { About::new(file).and(other) }
            _ => About::new(""),
        }
    }
}

/// Writes the line on wrong words, and what helps on a terminal, and answers the status.
pub(crate) fn tell_wrong<E: Output>(word: Option<Word>, faults: &mut E) -> ExitCode {
    let _ = writeln!(faults, "cfbtool: wrong words");
    if faults.is_terminal() {
        match word {
            Some(word) => {
                let word = word.text();
                let _ = writeln!(faults, "cfbtool: try 'cfbtool help {word}'");
            }
            None => {
                let _ = writeln!(faults, "cfbtool: try 'cfbtool help'");
            }
        }
    }
    ExitCode::from(2)
}

/// Writes the line on a refusal, if there is one to be written. Where the line can't be written the
/// status alone tells it.
pub fn tell<E: Output>(refusal: Refusal, about: About<'_>, faults: &mut E) {
    let file = Shown(about.file);
    let _ = match refusal {
        Refusal::WrongWords | Refusal::ToldWrong | Refusal::Told => Ok(()),
        Refusal::TargetExists => writeln!(faults, "cfbtool: target exists"),
        Refusal::Opening(e) => tell_error(e, About::new(about.file), faults),
        Refusal::Of(e) => tell_error(e, about, faults),
        Refusal::System(Place::Input | Place::Output, _) => {
            writeln!(faults, "cfbtool: medium failed")
        }
        Refusal::System(place, e) => tell_system(place.name(about), &e, faults),
        Refusal::TakenBack(e) => tell_taken_back(file, &e, faults),
        Refusal::Damaged => tell_damaged(file, faults),
        Refusal::Foreign => tell_foreign(file, faults),
        Refusal::Journal(e) => writeln!(faults, "cfbtool: medium failed: {file}-journal: {e}"),
        Refusal::Busy => writeln!(faults, "cfbtool: {file}: another program is changing it"),
        Refusal::NotWhole(extent) => {
            tell_cut(about.file, about.path.unwrap_or(""), extent, faults)
        }
        Refusal::NotText => {
            let path = Shown(about.path.unwrap_or(""));
            writeln!(
                faults,
                "cfbtool: {file}: {path}: not text; send it to a file or through '| cat'"
            )
        }
    };
}

/// Writes the line on a change of this file that was taken back.
fn tell_taken_back<E: Output>(
    file: Shown<'_>,
    reason: &io::Error,
    faults: &mut E,
) -> io::Result<()> {
    writeln!(
        faults,
        "cfbtool: medium failed: {file}: {reason}; {file} is as it was"
    )
}

/// Writes the line on the journal of this file, which is none of it.
fn tell_damaged<E: Output>(file: Shown<'_>, faults: &mut E) -> io::Result<()> {
    writeln!(
        faults,
        "cfbtool: {file}: {file}-journal is damaged; move it away to go on"
    )
}

/// Writes the line on the journal beside this file, which is of another one.
fn tell_foreign<E: Output>(file: Shown<'_>, faults: &mut E) -> io::Result<()> {
    writeln!(
        faults,
        "cfbtool: {file}: {file}-journal is of another file; move it away, or restore the file"
    )
}

/// Writes the line on a call that the system refused.
pub(crate) fn tell_system<E: Output>(
    name: &str,
    reason: &io::Error,
    faults: &mut E,
) -> io::Result<()> {
    let name = Shown(name);
    writeln!(faults, "cfbtool: medium failed: {name}: {reason}")
}

/// Writes the line on a stream that can't be read to its end.
pub(crate) fn tell_cut<E: Output>(
    file: &str,
    path: &str,
    extent: Extent,
    faults: &mut E,
) -> io::Result<()> {
    let (file, path) = (Shown(file), Shown(path));
    let Extent { readable, len } = extent;
    writeln!(
        faults,
        "cfbtool: {file}: {path}: {readable} of {len} bytes can be read"
    )
}

/// Writes the line on an object of FILE at which the file refused so.
pub(crate) fn tell_object<E: Output>(file: &str, path: &str, e: Error, faults: &mut E) {
    let _ = tell_error(e, About::new(file).at(path), faults);
}

/// Writes the line on a call that was refused so.
fn tell_error<E: Output>(e: Error, about: About<'_>, faults: &mut E) -> io::Result<()> {
    let file = Shown(about.file);
    match (e, about.path) {
        (Error::Memory, _) => writeln!(faults, "cfbtool: {e}"),
        (Error::Unsound, _) => {
            writeln!(faults, "cfbtool: {e}: {file} (see 'cfbtool info {file}')")
        }
        (Error::Medium(_) | Error::Full | Error::Failed, _) => {
            writeln!(faults, "cfbtool: {e}: {file}")
        }
        (_, Some(path)) => {
            let path = Shown(path);
            writeln!(faults, "cfbtool: {file}: {path}: {e}")
        }
        (_, None) => writeln!(faults, "cfbtool: {file}: {e}"),
    }
}
