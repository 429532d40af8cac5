//! `dump`.
use super::files::{opened, to_read};
use crate::lent::Lent;
use crate::output::Output;
use crate::refusal::{Refusal, tell_cut, tell_object};
use crate::system::System;
use cfb::{CompoundFile, Error, ReadMedium};
use cfb_tool::cuts::{Extent, extent_at};
use cfb_tool::dump_error::DumpError;
use cfb_tool::dumping;

/// `dump`. Lines go out as the file is read, so some are printed where a stream is refused later.
pub(super) fn dump<H: System, W: Output, E: Output>(
    rt: &H,
    path: &str,
    out: &mut W,
    faults: &mut E,
) -> Result<(), Refusal> {
    let mut medium = to_read(rt, path)?;
    let done = dump_from(rt, Lent(&mut medium), path, out, faults);
    done.map_err(|refusal| refusal.because(medium.file().last_error()))
}

/// Opens the file in the medium, and prints the lines that make its tree.
fn dump_from<H: System, F: ReadMedium, W: Output, E: Output>(
    rt: &H,
    medium: F,
    name: &str,
    out: &mut W,
    faults: &mut E,
) -> Result<(), Refusal> {
    let mut file = opened(rt, medium)?;
    match dumping::dump(&rt.alloc(), &mut file, out) {
        Ok(()) => out.flush().map_err(Refusal::of_output),
        Err(DumpError::File(e)) => Err(Refusal::Of(e)),
        Err(DumpError::Object(e, path)) => {
            let extent = extent_of(&file, path.as_str());
            Err(tell_refused(name, path.as_str(), e, extent, faults))
        }
        Err(DumpError::Output(e)) => Err(Refusal::of_output(e)),
    }
}

/// How much of the stream at this path can be read. None where the path leads to no stream, as that of
/// an object whose name no path says.
fn extent_of<F: ReadMedium>(file: &CompoundFile<F>, path: &str) -> Option<Extent> {
    if !file.is_stream(path) {
        return None;
    }
    match extent_at(file, path) {
        Ok(extent) => Some(extent),
        Err(_) => None,
    }
}

/// The line on an object that was refused so, of which so much can be read. A fault of the medium is
/// left to be told with its reason.
fn tell_refused<E: Output>(
    name: &str,
    path: &str,
    e: Error,
    extent: Option<Extent>,
    faults: &mut E,
) -> Refusal {
    match (e, extent) {
        (Error::Medium(_) | Error::Memory, _) => Refusal::Of(e),
        (Error::InvalidData(_), Some(extent)) if extent.readable < extent.len => {
            let _ = tell_cut(name, path, extent, faults);
            Refusal::Told
        }
        _ => {
            tell_object(name, path, e, faults);
            Refusal::Told
        }
    }
}
