//! What lines that were written one after the other are. Neither function does anything: each has a
//! law as its contract.
ghost use Rattle.cfb_lines.specs.Commands.{OneScript};
ghost use Rattle.cfb_lines.specs.Writing.{LinesAreAScript};

/// Lines behind a comment are a script of their commands.
pub fn written_lines_are_a_script()
    ensures { LinesAreAScript }
{}

/// A text is a script of no other commands.
pub fn a_text_is_one_script()
    ensures { OneScript }
{}
