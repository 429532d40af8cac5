//! `extract`.
use super::files::{opened, to_read};
use crate::lent::Lent;
use crate::output::Output;
use crate::refusal::{About, Refusal, tell, tell_system};
use crate::shown::Shown;
use crate::system::System;
use cfb::{CompoundFile, Error, MediumFault, ReadMedium};
use cfb_extract::cut::Cut;
use cfb_extract::error::ExtractError;
use cfb_extract::extracting;
use cfb_extract::folder::{Folder, FolderFault};
use cfb_extract::system::SystemFolder;
use cfb_text::meant::meant;
use std::alloc::Global;
use std::io::ErrorKind;

/// `extract`. Something at the folder's path was looked for before.
pub(super) fn extract_to<H: System, E: Output>(
    rt: &H,
    about: About<'_>,
    faults: &mut E,
) -> Result<(), Refusal> {
    let mut medium = to_read(rt, about.file)?;
    let done = extract_from(rt, Lent(&mut medium), about, faults);
    done.map_err(|refusal| refusal.because(medium.file().last_error()))
}

/// Opens the file in the medium, and puts its streams into the folder.
fn extract_from<H: System, F: ReadMedium, E: Output>(
    rt: &H,
    medium: F,
    about: About<'_>,
    faults: &mut E,
) -> Result<(), Refusal> {
    let mut file = opened(rt, medium)?;
    match about.path {
        Some(given) => {
            let path = meant(rt.alloc(), given)?;
            extract(rt, &mut file, Some(path.as_str()), about, faults)
        }
        None => extract(rt, &mut file, None, about, faults),
    }
}

/// Puts all streams, or those from the object at this path on, into a new folder. A stream that is not
/// whole is told on `faults`.
fn extract<H: System, F: ReadMedium, E: Output>(
    rt: &H,
    file: &mut CompoundFile<F>,
    at: Option<&str>,
    about: About<'_>,
    faults: &mut E,
) -> Result<(), Refusal> {
    let path = at.unwrap_or("/");
    // what is refused for the path is refused before the folder is made
    let is_stream = file.entry(path)?.is_stream();
    let mut folder = match SystemFolder::create(rt, rt.alloc(), about.other.unwrap_or("")) {
        Ok(folder) => folder,
        Err(e) if e.kind() == ErrorKind::AlreadyExists => return Err(Refusal::TargetExists),
        Err(e) => return Err(Refusal::of_other_system(e)),
    };
    match extract_into(
        rt.alloc(),
        file,
        (path, is_stream),
        about,
        &mut folder,
        faults,
    ) {
        Ended::Done => Ok(()),
        Ended::Told => Err(Refusal::Told),
        Ended::Medium => Err(Refusal::Of(Error::Medium(MediumFault::Read))),
        Ended::Folder => Err(tell_fault(&folder, faults)),
    }
}

/// How it ended.
enum Ended {
    /// All streams are whole.
    Done,
    /// Standard error has been told.
    Told,
    /// The medium failed: its owner knows why.
    Medium,
    /// The system refused a call in the folder.
    Folder,
}

fn extract_into<F: ReadMedium, D: Folder, E: Output>(
    alloc: Global,
    file: &mut CompoundFile<F>,
    (path, is_stream): (&str, bool),
    about: About<'_>,
    folder: &mut D,
    faults: &mut E,
) -> Ended {
    let mut cuts = Vec::new(alloc);
    let done = extracting::extract(&alloc, file, path, folder, &mut cuts);
    for cut in &cuts {
        tell_cut(about.file, (path, is_stream), cut, faults);
    }
    match done {
        Ok(()) if cuts.is_empty() => Ended::Done,
        Ok(()) => Ended::Told,
        Err(ExtractError::Folder(FolderFault::System)) => Ended::Folder,
        Err(ExtractError::Folder(FolderFault::Memory)) => told(Error::Memory, about, faults),
        Err(ExtractError::File(Error::Medium(_))) => Ended::Medium,
        Err(ExtractError::File(e)) => told(e, about, faults),
    }
}

/// Tells why the file refused.
fn told<E: Output>(e: Error, about: About<'_>, faults: &mut E) -> Ended {
    tell(Refusal::Of(e), about, faults);
    Ended::Told
}

/// The line on a stream that is not whole: the path that was asked for, and where that is no stream's
/// the names that lead on from there.
fn tell_cut<E: Output>(name: &str, (asked, is_stream): (&str, bool), cut: &Cut, faults: &mut E) {
    let below = if is_stream { "" } else { cut.path.as_str() };
    let (file, asked, below) = (
        Shown(name),
        Shown(asked.trim_end_matches('/')),
        Shown(below),
    );
    let (got, len) = (cut.got, cut.len);
    let _ = writeln!(
        faults,
        "cfbtool: {file}: {asked}{below}: {got} of {len} bytes can be read"
    );
}

/// The line on what the system refused.
fn tell_fault<H: System, E: Output>(folder: &SystemFolder<'_, H>, faults: &mut E) -> Refusal {
    if let Some((path, reason)) = folder.last_error() {
        let _ = tell_system(path, &reason, faults);
    }
    Refusal::Told
}
