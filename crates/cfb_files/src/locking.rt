//! Files of the system that are opened to be changed. Each is locked as a whole (`File::try_lock`) before anything of it changes, and the
//! lock is let go when the file is closed. Where the file system has no locks, the file is opened all the same.
//!
//! The lock keeps out who asks for it, as every call here does, and nobody else.

use std::fs::{File, OpenOptions, TryLockError};
use std::io;
use std::rt::Files;

/// The file at this path, to be read and written.
///
/// # Errors
///
/// The system's, where the file is not opened, as where none is there; `WouldBlock` where another holds the lock.
pub fn open<R: Files<File = File>>(rt: &R, path: &str) -> io::Result<File> {
    locked(OpenOptions::new().read(true).write(true).open(rt, path)?)
}

/// An empty file at this path, to be read and written. An existing one is emptied, once it is locked.
///
/// # Errors
///
/// The system's, where the file is not opened or not emptied; `WouldBlock` where another holds the lock, and then it keeps its bytes.
pub fn create<R: Files<File = File>>(rt: &R, path: &str) -> io::Result<File> {
    let mut how = OpenOptions::new();
    how.read(true).write(true).create(true);
    let file = locked(how.open(rt, path)?)?;
    // a device has no length, and can't be given one
    if file.metadata()?.len() > 0 {
        file.set_len(0)?;
    }
    Ok(file)
}

/// A new file at this path, to be read and written.
///
/// # Errors
///
/// The system's, where the file is not made; `AlreadyExists` where one is there, which stays then. `WouldBlock` where another was faster to
/// lock the new file.
pub fn create_new<R: Files<File = File>>(rt: &R, path: &str) -> io::Result<File> {
    let mut how = OpenOptions::new();
    how.read(true).write(true).create_new(true);
    locked(how.open(rt, path)?)
}

/// The file, locked. `WouldBlock` where another holds the lock.
fn locked(file: File) -> io::Result<File> {
    match file.try_lock() {
        Err(TryLockError::WouldBlock) => Err(io::Error::from(io::ErrorKind::WouldBlock)),
        // a file system that has no locks refuses them otherwise
        Ok(()) | Err(TryLockError::Error(_)) => Ok(file),
    }
}
