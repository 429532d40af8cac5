//! New files. Where one is to take the place of another it is written beside it, and gets its name once
//! it is whole.
use super::files::{Target, is_there};
use crate::system::System;
use cfb::FileMedium;
use cfb_files::locking;
use cfb_journal_file::place::Place;
use std::fs::{File, Metadata};
use std::io::ErrorKind;
use std::os::unix::fs::MetadataExt;
use std::{fs, io};

/// How many names are looked at for a file beside another.
const NAMES: u32 = 100;

/// A new file, which is locked while this lives.
#[derive(Drop)]
pub(super) struct NewFile {
    path: String,
    file: File,
    /// Its folder, where names are brought to the disk.
    folder: Option<File>,
}

impl NewFile {
    /// A new file at this path, at which nothing is.
    pub(super) fn make<H: System>(rt: &H, target: Target<'_>) -> io::Result<NewFile> {
        let path = String::from_str(rt.alloc(), target.path)?;
        NewFile::at(rt, path, target.syncs)
    }

    /// A new file beside this path.
    pub(super) fn beside<H: System>(rt: &H, target: Target<'_>) -> io::Result<NewFile> {
        let Target { path, syncs } = target;
        for number in 0..NAMES {
            let beside = format!(in rt.alloc(); "{path}-new{number}")?;
            match NewFile::at(rt, beside, syncs) {
                Err(e) if e.kind() == ErrorKind::AlreadyExists => {}
                made => return made,
            }
        }
        Err(io::Error::from(ErrorKind::AlreadyExists))
    }

    fn at<H: System>(rt: &H, path: String, syncs: bool) -> io::Result<NewFile> {
        let file = locking::create_new(rt, path.as_str())?;
        let mut new = NewFile {
            path,
            file,
            folder: None,
        };
        if syncs {
            match folder_of(rt, new.path.as_str()) {
                Ok(folder) => new.folder = Some(folder),
                Err(e) => {
                    new.remove(rt);
                    return Err(e);
                }
            }
        }
        Ok(new)
    }

    /// A medium over it.
    pub(super) fn medium(&self) -> io::Result<FileMedium> {
        Ok(FileMedium::from_file(self.file.try_clone()?))
    }

    /// Gives it the mode of this file. False where it has another owner, or another group.
    pub(super) fn takes_mode(&self, of: &Metadata) -> io::Result<bool> {
        let made = self.file.metadata()?;
        if made.uid() != of.uid() || made.gid() != of.gid() {
            return Ok(false);
        }
        self.file.set_permissions(of.permissions())?;
        Ok(true)
    }

    /// Gives it this name, at which nothing was. On the disk it has its bytes by then.
    pub(super) fn put_anew<H: System>(&self, rt: &H, path: &str) -> io::Result<()> {
        if is_there(rt, path) {
            return Err(io::Error::from(ErrorKind::AlreadyExists));
        }
        let journal = format!(in rt.alloc(); "{path}-journal")?;
        without_journal(rt, journal.as_str())?;
        self.put(rt, path)?;
        self.sync_name()
    }

    /// Gives it this name, also where another file has it. On the disk it has its bytes by then.
    pub(super) fn put<H: System>(&self, rt: &H, path: &str) -> io::Result<()> {
        self.sync()?;
        fs::rename(rt, self.path.as_str(), path)
    }

    /// Brings its bytes to the disk.
    pub(super) fn sync(&self) -> io::Result<()> {
        match &self.folder {
            Some(_) => self.file.sync_all(),
            None => Ok(()),
        }
    }

    /// Brings its name to the disk.
    pub(super) fn sync_name(&self) -> io::Result<()> {
        match &self.folder {
            Some(folder) => folder.sync_all(),
            None => Ok(()),
        }
    }

    /// Takes it away, if it still has the name that it was made with.
    pub(super) fn remove<H: System>(&self, rt: &H) {
        let _ = fs::remove_file(rt, self.path.as_str());
    }
}

/// The folder of the file at this path.
fn folder_of<H: System>(rt: &H, path: &str) -> io::Result<File> {
    let place = Place::of(rt, rt.alloc(), path)?;
    File::open(rt, place.folder())
}

/// Removes a journal that an interrupted change left of a file that is no more.
pub(super) fn without_journal<H: System>(rt: &H, journal: &str) -> io::Result<()> {
    match fs::remove_file(rt, journal) {
        Err(e) if e.kind() != ErrorKind::NotFound => Err(e),
        _ => Ok(()),
    }
}
