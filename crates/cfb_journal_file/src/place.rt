//! Where a file's journal is.

use std::alloc::Global;
use std::io;
use std::rt::Files;

/// The paths of a file, of its journal and of the folder that has both. Links are followed, so that
/// whatever path leads to a file leads to its journal.
#[derive(Drop)]
pub struct Place {
    file: String,
    journal: String,
    folder: String,
}

impl Place {
    /// The place of the file at this path. Its journal has the same name with `-journal` behind it.
    ///
    /// # Errors
    ///
    /// The system's, as where nothing is there; `OutOfMemory`.
    pub fn of<R: Files>(rt: &R, alloc: Global, path: &str) -> io::Result<Place> {
        let found = rt.canonicalize(alloc, path)?;
        let folder = match found.parent() {
            Some(parent) => String::from_str(alloc, parent.as_str())?,
            None => String::from_str(alloc, "/")?,
        };
        let name = found.as_str();
        let journal = format!(in alloc; "{name}-journal")?;
        Ok(Place {
            file: found.into_string(),
            journal,
            folder,
        })
    }

    /// The file's path.
    pub fn file(&self) -> &str {
        self.file.as_str()
    }

    /// The journal's path.
    pub fn journal(&self) -> &str {
        self.journal.as_str()
    }

    /// The path of the folder that has both.
    pub fn folder(&self) -> &str {
        self.folder.as_str()
    }
}
