//! Where extracted streams go: a folder in which folders and files are made.
ghost use Rattle.std.specs.Prelude.{◌≡◌, ◌++◌, ◌∷◌, [], Bool, List, IsTrue, OnOk, OnErr};

use std::alloc::{AllocError, AllocFailed, Allocator as Heap};

/// Why a folder did not do what was asked.
#[derive(Clone, Copy, Debug, PartialEq, Eq)]
pub enum FolderFault {
    /// The system refused: something stands there, or the disk is full.
    System,
    /// A growth of memory was refused.
    Memory,
}

impl From<AllocError> for FolderFault {
    fn from(_e: AllocError) -> FolderFault {
        FolderFault::Memory
    }
}

impl<T: Drop> From<AllocFailed<T>> for FolderFault {
    fn from(_e: AllocFailed<T>) -> FolderFault {
        FolderFault::Memory
    }
}

/// A folder in which folders and files are made. A place is a list of names, the own name of what is
/// made last; each is the name of one file in a folder, so that no place leads out of it. Contracts
/// speak of what stands in it only where it tells.
pub trait Folder {
    ghost use Rattle.cfb_extract.specs.Items.{Item, IsLonger, IsPartlyLonger, IsPlace, a_file, a_folder, texts};

    /// Whether it tells what stands in it.
    ghost tells: { Bool };

    /// What was made in it, the oldest first.
    ghost items: { Self → List Item };

    /// Makes a folder at this place. Nothing has changed where it is refused.
    fn make_folder<A: Heap>(&mut self, place: &[String<A>]) -> Result<(), FolderFault>
        requires { IsPlace (texts place.now) }
        ensures made { IsTrue tells → OnOk result
            (items self.new ≡ items self.old ++ a_folder (texts place.now) ∷ []) }
        ensures kept { IsTrue tells → OnErr result (items self.new ≡ items self.old) };

    /// Makes an empty file at this place. Nothing has changed where it is refused.
    fn make_file<A: Heap>(&mut self, place: &[String<A>]) -> Result<(), FolderFault>
        requires { IsPlace (texts place.now) }
        ensures made { IsTrue tells → OnOk result
            (items self.new ≡ items self.old ++ a_file (texts place.now) [] ∷ []) }
        ensures kept { IsTrue tells → OnErr result (items self.new ≡ items self.old) };

    /// Writes these bytes behind those of the file that was made last. Where it is refused, a
    /// beginning of them.
    fn write(&mut self, bytes: &[u8]) -> Result<(), FolderFault>
        ensures longer { IsTrue tells
            → OnOk result (IsLonger bytes.now (items self.old) (items self.new)) }
        ensures partly { IsTrue tells
            → OnErr result (IsPartlyLonger bytes.now (items self.old) (items self.new)) };
}
