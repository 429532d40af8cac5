//! `tree`.
use super::pieces::PIECE;
use crate::output::Output;
use crate::refusal::Refusal;
use cfb::{CompoundFile, ReadMedium};
use cfb_tool::tree::{tree as write_tree, tree_at};
use std::alloc::Global;
use std::io::{BufWriter, Write};

/// Prints the objects as a tree, or those from the one at this path on.
pub(super) fn tree<F: ReadMedium, W: Output>(
    alloc: Global,
    file: &CompoundFile<F>,
    at: Option<&str>,
    out: &mut W,
) -> Result<(), Refusal> {
    let mut pieces = BufWriter::with_capacity(alloc, PIECE, out).map_err(Refusal::of_output)?;
    match at {
        Some(path) => tree_at(&alloc, file, path, &mut pieces)?,
        None => write_tree(&alloc, file, &mut pieces)?,
    }
    pieces.flush().map_err(Refusal::of_output)
}
