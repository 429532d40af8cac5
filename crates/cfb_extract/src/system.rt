//! A new folder of the system. What stands in it is known to nobody, so it tells nothing: contracts
//! say of it only that it is handed places that lie in it, and tests say the rest.
ghost use Rattle.std.specs.Prelude.{◌≡◌, ◌++◌, false, [], OnOk, chars, string_bytes};
ghost use Rattle.cfb_extract.specs.Extracted.{slashed};
ghost use Rattle.cfb_extract.specs.Items.{texts};

use crate::folder::{Folder, FolderFault};
use crate::naming::push_slashed;
use std::alloc::{AllocError, Allocator as Heap, Global};
use std::fs::{self, File};
use std::io;
use std::io::{ErrorKind, Write};
use std::rt::Files;

/// A new folder of the system, in which folders and files are made anew.
#[derive(Drop)]
pub struct SystemFolder<'a, H: Files<File = File>, A: Heap + Drop = Global> {
    system: &'a H,
    /// Its path.
    folder: String<A>,
    /// The path of what was made last, or was to be.
    path: String<A>,
    /// The file that was made last.
    file: Option<File>,
    /// Why the system refused the last call that it did.
    reason: Option<io::Error>,
}

impl<'a, H: Files<File = File>, A: Heap + Clone + Drop> SystemFolder<'a, H, A> {
    /// The folder of this path, which is made: nothing may be there.
    ///
    /// # Errors
    ///
    /// What the system says, and `OutOfMemory`.
    pub fn create(system: &'a H, alloc: A, folder: &str) -> io::Result<SystemFolder<'a, H, A>> {
        let path = String::from_str(alloc.clone()?, folder)?;
        let folder = String::from_str(alloc, folder)?;
        fs::create_dir(system, path.as_str())?;
        Ok(SystemFolder {
            system,
            folder,
            path,
            file: None,
            reason: None,
        })
    }

    /// The path at which the system refused a call, and why. None where it refused none.
    pub fn last_error(&self) -> Option<(&str, io::Error)> {
        let reason = self.reason?;
        Some((self.path.as_str(), reason))
    }

    /// Goes to this place: its path is that of the folder, and then its names.
    fn go_to<B: Heap>(&mut self, place: &[String<B>]) -> Result<(), AllocError>
        ensures path { OnOk result (chars (string_bytes self.new.path)
            ≡ chars (string_bytes self.old.folder) ++ slashed (texts place.now)) }
        ensures folder { self.new.folder ≡ self.old.folder }
    {
        self.file = None;
        self.path.clear();
        self.path.push_str(self.folder.as_str())?;
        push_slashed(place, &mut self.path)
    }

    /// What is answered where the system does.
    fn told<T: Drop>(&mut self, answer: io::Result<T>) -> Result<T, FolderFault> {
        match answer {
            Ok(value) => Ok(value),
            Err(e) if e.kind() == ErrorKind::OutOfMemory => Err(FolderFault::Memory),
            Err(e) => {
                self.reason = Some(e);
                Err(FolderFault::System)
            }
        }
    }
}

impl<'a, H: Files<File = File>, A: Heap + Clone + Drop> Folder for SystemFolder<'a, H, A> {
    ghost tells = { false };

    ghost items = { λ _. [] };

    fn make_folder<B: Heap>(&mut self, place: &[String<B>]) -> Result<(), FolderFault> {
        self.go_to(place)?;
        let made = fs::create_dir(self.system, self.path.as_str());
        self.told(made)
    }

    fn make_file<B: Heap>(&mut self, place: &[String<B>]) -> Result<(), FolderFault> {
        self.go_to(place)?;
        let made = File::create_new(self.system, self.path.as_str());
        let file = self.told(made)?;
        self.file = Some(file);
        Ok(())
    }

    fn write(&mut self, bytes: &[u8]) -> Result<(), FolderFault> {
        let written = match &mut self.file {
            None => return Err(FolderFault::System),
            Some(file) => file.write_all(bytes),
        };
        self.told(written)
    }
}
