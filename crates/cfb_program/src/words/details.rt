//! `ls` and `ls -l`. Lines go out in pieces as the walk goes on; what can be refused is refused before
//! the first one.
use super::pieces::PIECE;
use crate::output::Output;
use crate::refusal::Refusal;
use cfb::{CompoundFile, ReadMedium};
use cfb_shown::lines::Form;
use cfb_tool::listing::{listing, listing_at, table, table_at};
use std::alloc::Global;
use std::io::{BufWriter, Write};

/// Prints a line of each object, or of each from the one at this path on.
pub(super) fn list<F: ReadMedium, W: Output>(
    alloc: Global,
    file: &CompoundFile<F>,
    at: Option<&str>,
    out: &mut W,
) -> Result<(), Refusal> {
    if out.is_terminal() {
        list_as(alloc, file, at, Form::Shown, out)
    } else {
        list_as(alloc, file, at, Form::Plain, out)
    }
}

/// Prints the fields of each object, or of each from the one at this path on: a tab between, or on a
/// terminal as a table.
pub(super) fn details<F: ReadMedium, W: Output>(
    alloc: Global,
    file: &CompoundFile<F>,
    at: Option<&str>,
    out: &mut W,
) -> Result<(), Refusal> {
    if out.is_terminal() {
        print_table(alloc, file, at, out)
    } else {
        list_as(alloc, file, at, Form::Row, out)
    }
}

/// Prints lines of this form.
fn list_as<F: ReadMedium, W: Output>(
    alloc: Global,
    file: &CompoundFile<F>,
    at: Option<&str>,
    form: Form,
    out: &mut W,
) -> Result<(), Refusal> {
    let mut pieces = BufWriter::with_capacity(alloc, PIECE, out).map_err(Refusal::of_output)?;
    match at {
        Some(path) => listing_at(&alloc, file, path, form, &mut pieces)?,
        None => listing(&alloc, file, form, &mut pieces)?,
    }
    pieces.flush().map_err(Refusal::of_output)
}

/// Prints the fields as a table.
fn print_table<F: ReadMedium, W: Output>(
    alloc: Global,
    file: &CompoundFile<F>,
    at: Option<&str>,
    out: &mut W,
) -> Result<(), Refusal> {
    let mut pieces = BufWriter::with_capacity(alloc, PIECE, out).map_err(Refusal::of_output)?;
    match at {
        Some(path) => table_at(&alloc, file, path, &mut pieces)?,
        None => table(&alloc, file, &mut pieces)?,
    }
    pieces.flush().map_err(Refusal::of_output)
}
