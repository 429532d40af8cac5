//! `create`. A file that is there keeps its bytes until the new one is whole and gets its name. One that
//! has further names, or none that can be given to another, is emptied.
ghost use Rattle.std.specs.Prelude.{◌≡◌, [], IsTrue};

use super::beside::{NewFile, without_journal};
use super::files::{Target, begun, ended, forget_journal, is_there, place_if_any, to_change};
use crate::lent::Lent;
use crate::refusal::Refusal;
use crate::system::System;
use cfb::{FileMedium, Medium, Version, seeded_options};
use cfb_files::locking;
use cfb_journal_file::disk::FileDisk;
use cfb_journal_file::lent::LentDisk;
use cfb_journal_file::place::Place;
use std::fs::{File, Metadata};
use std::io::ErrorKind;
use std::os::unix::fs::MetadataExt;
use std::{fs, io};

/// `create`.
pub(super) fn create<H: System>(
    rt: &H,
    version: Version,
    target: Target<'_>,
) -> Result<(), Refusal> {
    if !is_there(rt, target.path) {
        return create_anew(rt, version, target);
    }
    match to_replace(rt, target)? {
        Some(both) => create_over(rt, version, &both, target.syncs),
        None => create_in_place(rt, version, target),
    }
}

/// Where nothing is.
fn create_anew<H: System>(rt: &H, version: Version, target: Target<'_>) -> Result<(), Refusal> {
    let new = NewFile::beside(rt, target).map_err(Refusal::of_system)?;
    let done = match fill(rt, version, &new) {
        Ok(()) => new.put_anew(rt, target.path).map_err(Refusal::of_system),
        Err(refusal) => Err(refusal),
    };
    if done.is_err() {
        new.remove(rt);
    }
    done
}

/// A file that is there, and the new one beside it that is to get its name.
#[derive(Drop)]
struct Replacing {
    place: Place,
    new: NewFile,
}

/// The new file beside the one that is there, unless this one can't be replaced.
fn to_replace<H: System>(rt: &H, target: Target<'_>) -> Result<Option<Replacing>, Refusal> {
    let Some(place) = place_if_any(rt, target.path)? else {
        return Ok(None);
    };
    let old = match fs::metadata(rt, place.file()) {
        Ok(old) if old.is_file() && old.nlink() == 1 => old,
        _ => return Ok(None),
    };
    match beside_old(rt, &place, &old, target.syncs) {
        Ok(Some(new)) => Ok(Some(Replacing { place, new })),
        Ok(None) => Ok(None),
        Err(e) if e.kind() == ErrorKind::PermissionDenied => Ok(None),
        Err(e) => Err(Refusal::of_system(e)),
    }
}

/// A new file with the mode of this one. None where it would have another owner.
fn beside_old<H: System>(
    rt: &H,
    place: &Place,
    old: &Metadata,
    syncs: bool,
) -> io::Result<Option<NewFile>> {
    let path = place.file();
    let new = NewFile::beside(rt, Target { path, syncs })?;
    let taken = new.takes_mode(old);
    if let Ok(true) = taken {
        return Ok(Some(new));
    }
    new.remove(rt);
    taken.map(|_| None)
}

/// Gives the new file the name of the one that is there.
fn create_over<H: System>(
    rt: &H,
    version: Version,
    both: &Replacing,
    syncs: bool,
) -> Result<(), Refusal> {
    let done = replace(rt, version, both, syncs);
    if done.is_err() {
        both.new.remove(rt);
        return done;
    }
    // the new file is locked, so that this journal is nobody's
    without_journal(rt, both.place.journal()).map_err(Refusal::of_journal)?;
    both.new.sync_name().map_err(Refusal::of_system)
}

/// The same. The file that is there is locked, and stays as an interrupted change leaves it if anything fails.
fn replace<H: System>(
    rt: &H,
    version: Version,
    both: &Replacing,
    syncs: bool,
) -> Result<(), Refusal> {
    let mut disk = to_change(rt, &both.place, syncs)?;
    let done = match recovered(rt, &mut disk) {
        Ok(()) => put_filled(rt, version, both),
        Err(refusal) => Err(refusal),
    };
    ended(rt, &both.place, disk, done)
}

/// Ends a change that was interrupted. One whose journal is damaged is let go with its file.
fn recovered<H: System>(rt: &H, disk: &mut FileDisk) -> Result<(), Refusal> {
    match begun(rt.alloc(), LentDisk(disk)) {
        Ok(_) | Err(Refusal::Damaged) => Ok(()),
        Err(refusal) => Err(refusal),
    }
}

fn put_filled<H: System>(rt: &H, version: Version, both: &Replacing) -> Result<(), Refusal> {
    fill(rt, version, &both.new)?;
    let put = both.new.put(rt, both.place.file());
    put.map_err(Refusal::of_system)
}

/// Writes an empty compound file into a new file.
fn fill<H: System>(rt: &H, version: Version, new: &NewFile) -> Result<(), Refusal> {
    let medium = new.medium().map_err(Refusal::of_system)?;
    fill_medium(rt, version, medium)
}

fn fill_medium<H: System>(rt: &H, version: Version, mut medium: FileMedium) -> Result<(), Refusal> {
    let made = create_in(rt, version, Lent(&mut medium));
    made.map_err(|refusal| refusal.because(medium.last_error()))
}

/// Empties what is there.
fn create_in_place<H: System>(rt: &H, version: Version, target: Target<'_>) -> Result<(), Refusal> {
    let file = match locking::create(rt, target.path) {
        Ok(file) => file,
        Err(e) if e.kind() == ErrorKind::WouldBlock => return Err(Refusal::Busy),
        Err(e) => return Err(Refusal::of_system(e)),
    };
    forget_journal(rt, target.path);
    let medium = file.try_clone().map_err(Refusal::of_system)?;
    fill_medium(rt, version, FileMedium::from_file(medium))?;
    if target.syncs {
        return synced(&file).map_err(Refusal::of_system);
    }
    Ok(())
}

/// Brings the bytes to the disk. A device has no place to keep them.
fn synced(file: &File) -> io::Result<()> {
    match file.sync_all() {
        Err(e) if e.kind() == ErrorKind::InvalidInput => Ok(()),
        done => done,
    }
}

fn create_in<H: System, F: Medium>(rt: &H, version: Version, medium: F) -> Result<(), Refusal>
    requires empty_medium { IsTrue F.tells → F.bytes medium ≡ [] }
{
    seeded_options(rt).create_as(rt.alloc(), version, medium)?;
    Ok(())
}
