//! Why streams were not extracted.
ghost use Rattle.std.specs.Prelude.{◌≡◌};
ghost use Rattle.cfb_extract.specs.declared.error.ExtractError.TheVariants.{File, Folder};

use crate::folder::FolderFault;
use cfb_format::error::Error;
use std::alloc::{AllocError, AllocFailed};

/// Why streams were not extracted.
#[derive(Clone, Copy, Debug, PartialEq, Eq)]
pub enum ExtractError {
    /// The compound file refused, or memory was refused.
    File(Error),
    /// The folder refused.
    Folder(FolderFault),
}

impl From<Error> for ExtractError {
    ghost from_gives = { λ e given. given ≡ File e };

    fn from(e: Error) -> ExtractError {
        ExtractError::File(e)
    }
}

impl From<FolderFault> for ExtractError {
    ghost from_gives = { λ e given. given ≡ Folder e };

    fn from(e: FolderFault) -> ExtractError {
        ExtractError::Folder(e)
    }
}

impl From<AllocError> for ExtractError {
    ghost use Rattle.cfb_format.specs.declared.error.Error.TheVariants.{Memory};

    ghost from_gives = { λ _ given. given ≡ File Memory };

    fn from(_e: AllocError) -> ExtractError {
        ExtractError::File(Error::Memory)
    }
}

impl<T: Drop> From<AllocFailed<T>> for ExtractError {
    ghost use Rattle.cfb_format.specs.declared.error.Error.TheVariants.{Memory};

    ghost from_gives = { λ _ given. given ≡ File Memory };

    fn from(_e: AllocFailed<T>) -> ExtractError {
        ExtractError::File(Error::Memory)
    }
}
