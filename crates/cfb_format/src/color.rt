//! The colour of a directory entry in its sibling tree (MS-CFB 2.6.1).
ghost use Rattle.std.specs.Prelude.{◌≡◌};
ghost use Rattle.cfb_format.specs.DirectoryEntry.{color_byte, color_of};

use crate::consts;

/// The colour of a node in a sibling tree.
#[derive(Clone, Copy, Debug, PartialEq, Eq)]
pub enum Color {
    /// A red node, which has no red child.
    Red,
    /// A black node.
    Black,
}

impl Color {
    /// The byte that stands for the colour.
    pub fn as_byte(&self) -> u8
        ensures { result ≡ color_byte self.now }
    {
        match self {
            Color::Red => consts::COLOR_RED,
            Color::Black => consts::COLOR_BLACK,
        }
    }

    /// The colour that a byte stands for, if it stands for one.
    pub fn from_byte(byte: u8) -> Option<Color>
        ensures { result ≡ color_of byte }
    {
        match byte {
            consts::COLOR_RED => Some(Color::Red),
            consts::COLOR_BLACK => Some(Color::Black),
            _ => None,
        }
    }
}
