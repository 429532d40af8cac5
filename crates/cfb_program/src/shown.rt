//! Names and paths as the program shows them.
use cfb_text::shown::is_hidden;
use std::fmt;

/// Prints a text as it is shown, and takes no memory.
#[derive(Clone, Copy)]
pub(crate) struct Shown<'a>(pub(crate) &'a str);

impl fmt::Display for Shown<'_> {
    fn fmt<W: fmt::Write>(&self, f: &mut fmt::Formatter<W>) -> fmt::Result {
        if !self.0.chars().any(is_hidden) {
            return f.write_str(self.0);
        }
        for letter in self.0.chars() {
            if is_hidden(letter) {
                let code = u32::from(letter);
                write!(f, "\\u{code:04x}")?;
            } else {
                f.write_char(letter)?;
            }
        }
        Ok(())
    }
}
