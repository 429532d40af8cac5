//! Why a file was not dumped.
ghost use Rattle.std.specs.Prelude.{◌≡◌};
ghost use Rattle.cfb_tool.specs.declared.dump_error.DumpError.TheVariants.{File, Output};

use cfb_format::error::Error;
use std::alloc::{AllocError, AllocFailed, Allocator as Heap, Global};
use std::io;

/// Why a file was not dumped, or not to its end.
#[derive(Debug, Drop)]
pub enum DumpError<A: Heap = Global> {
    /// The file refused, or memory was refused.
    File(Error),
    /// The file refused so at the object at this path.
    Object(Error, String<A>),
    /// The writer refused.
    Output(io::Error),
}

impl<A: Heap> From<Error> for DumpError<A> {
    ghost from_gives = { λ e given. given ≡ File e };

    fn from(e: Error) -> DumpError<A> {
        DumpError::File(e)
    }
}

impl<A: Heap> From<io::Error> for DumpError<A> {
    ghost from_gives = { λ e given. given ≡ Output e };

    fn from(e: io::Error) -> DumpError<A> {
        DumpError::Output(e)
    }
}

impl<A: Heap> From<AllocError> for DumpError<A> {
    ghost use Rattle.cfb_format.specs.declared.error.Error.TheVariants.{Memory};

    ghost from_gives = { λ _ given. given ≡ File Memory };

    fn from(_e: AllocError) -> DumpError<A> {
        DumpError::File(Error::Memory)
    }
}

impl<T: Drop, A: Heap> From<AllocFailed<T>> for DumpError<A> {
    ghost use Rattle.cfb_format.specs.declared.error.Error.TheVariants.{Memory};

    ghost from_gives = { λ _ given. given ≡ File Memory };

    fn from(_e: AllocFailed<T>) -> DumpError<A> {
        DumpError::File(Error::Memory)
    }
}
