//! `info`.
use super::files::{opened, to_read};
use super::print;
use crate::lent::Lent;
use crate::output::Output;
use crate::refusal::Refusal;
use crate::system::System;
use cfb::{Error, ReadMedium, seeded_options};
use cfb_tool::reports::{About, report};

/// Where the minor version stands in the header (MS-CFB 2.2).
const MINOR_AT: u64 = 24;

/// Prints the report on FILE; refused with nothing more to tell where the file is not sound.
pub(super) fn info<H: System, W: Output>(rt: &H, path: &str, out: &mut W) -> Result<(), Refusal> {
    let mut medium = to_read(rt, path)?;
    let minor = match minor_of(&mut medium) {
        Ok(minor) => minor,
        Err(e) => return Err(Refusal::Of(e).because(medium.file().last_error())),
    };
    let strict = match strict_error(rt, Lent(&mut medium)) {
        Ok(strict) => strict,
        Err(e) => return Err(Refusal::Of(e).because(medium.file().last_error())),
    };
    let about = About {
        name: path,
        minor,
        strict,
    };
    let done = print_report(rt, Lent(&mut medium), &about, out);
    done.map_err(|refusal| refusal.because(medium.file().last_error()))
}

fn print_report<H: System, F: ReadMedium, W: Output>(
    rt: &H,
    medium: F,
    about: &About<'_>,
    out: &mut W,
) -> Result<(), Refusal> {
    let mut file = opened(rt, medium)?;
    let text = report(&rt.alloc(), &mut file, about)?;
    print(text.as_bytes(), out)?;
    if file.is_sound() {
        Ok(())
    } else {
        Err(Refusal::Told)
    }
}

/// The minor version in the header; 0 where the file is too short to have one, which opening refuses
/// then.
fn minor_of<F: ReadMedium>(medium: &mut F) -> Result<u16, Error> {
    let mut bytes = [0u8; 2];
    let count = medium.read_at(MINOR_AT, &mut bytes)?;
    if count < bytes.len() {
        return Ok(0);
    }
    Ok(u16::from_le_bytes(bytes))
}

/// Why strict opening refuses the bytes of a medium, if it does. `Medium`, `Memory`.
fn strict_error<H: System, F: ReadMedium>(rt: &H, medium: F) -> Result<Option<Error>, Error> {
    match seeded_options(rt).strict().open_with(rt.alloc(), medium) {
        Ok(_) => Ok(None),
        Err(e) if matches!(e, Error::InvalidData(_)) => Ok(Some(e)),
        Err(e) => Err(e),
    }
}
