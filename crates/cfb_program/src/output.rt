//! Where the program writes to.
use std::alloc::Global;
use std::io::{IsTerminal, Stderr, Stdout, Write};

/// A writer that knows whether a person reads at its other end.
pub trait Output: Write {
    /// Whether it is a terminal.
    fn is_terminal(&self) -> bool;
}

impl Output for Vec<u8, Global> {
    fn is_terminal(&self) -> bool {
        false
    }
}

impl Output for Stdout {
    fn is_terminal(&self) -> bool {
        IsTerminal::is_terminal(self)
    }
}

impl Output for Stderr {
    fn is_terminal(&self) -> bool {
        IsTerminal::is_terminal(self)
    }
}
