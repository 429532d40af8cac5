//! Why lines were not written.
ghost use Rattle.std.specs.Prelude.{◌≡◌};
ghost use Rattle.cfb_shown.specs.declared.write_error.WriteError.TheVariants.{File, Output};

use cfb_format::error::Error;
use std::alloc::{AllocError, AllocFailed};
use std::io;

/// Why lines were not written, or not all of them.
#[derive(Debug, Drop)]
pub enum WriteError {
    /// The file refused, or memory was refused: nothing was written.
    File(Error),
    /// The writer refused.
    Output(io::Error),
}

impl From<Error> for WriteError {
    ghost from_gives = { λ e given. given ≡ File e };

    fn from(e: Error) -> WriteError {
        WriteError::File(e)
    }
}

impl From<io::Error> for WriteError {
    ghost from_gives = { λ e given. given ≡ Output e };

    fn from(e: io::Error) -> WriteError {
        WriteError::Output(e)
    }
}

impl From<AllocError> for WriteError {
    ghost use Rattle.cfb_format.specs.declared.error.Error.TheVariants.{Memory};

    ghost from_gives = { λ _ given. given ≡ File Memory };

    fn from(_e: AllocError) -> WriteError {
        WriteError::File(Error::Memory)
    }
}

impl<T: Drop> From<AllocFailed<T>> for WriteError {
    ghost use Rattle.cfb_format.specs.declared.error.Error.TheVariants.{Memory};

    ghost from_gives = { λ _ given. given ≡ File Memory };

    fn from(_e: AllocFailed<T>) -> WriteError {
        WriteError::File(Error::Memory)
    }
}
