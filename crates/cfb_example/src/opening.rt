//! Compound files in files of the system, opened and made by their paths. Tests are lists of steps, which one function plays: a further
//! step costs the prover nothing.
use Step::{
    Absent, Bytes, Changed, Filled, Gone, IsOld, Kept, Len, LetGo, Made, MadeFull, NoData, Old,
    Put, Set, Sound, Strict, Unopened, UnopenedByOptions,
};
use cfb::{
    CompoundFile, Error, FileMedium, FileReadMedium, Medium, MediumFault, OpenOptions, ReadMedium,
    Timestamp, Version, read_stream, write_stream,
};
use std::alloc::Global;
use std::os::unix::fs::MetadataExt;
use std::test::Fail;
use std::time::UNIX_EPOCH;
use std::{fs, io};
use test_rows::bytes::numbered;

/// What comes of a compound file in a file of the system, or what is done with that file.
enum Step<'a> {
    /// It can't be opened, by path alone and by options.
    Unopened,
    UnopenedByOptions,
    /// Opened to be read, by path: the bytes of a stream.
    Bytes(&'a str, &'a [u8]),
    /// Opened to be read, by options: it is sound, with this stream and this storage.
    Sound(&'a str, &'a str),
    /// Opened by strict options: its bytes are refused.
    NoData,
    /// Opened strictly, over its medium: this is there.
    Strict(&'a str),
    /// Made by path, in version 4: it gets this storage.
    Made(&'a str),
    /// Made by options that let it have no fourth sector: this stream gets 4096 bytes and finds none for
    /// a byte more, and the file has not failed then.
    MadeFull(&'a str),
    /// Opened to be changed, by options: it gets this storage.
    Changed(&'a str),
    /// The same: it gets a stream with these bytes.
    Put(&'a str, &'a [u8]),
    /// Opened with a journal, by path: it gets this storage, which is there once it is flushed.
    Kept(&'a str),
    /// The same without a flush: the storage is taken back.
    LetGo(&'a str),
    /// Opened with a journal: this is not there.
    Gone(&'a str),
    /// No file has this name.
    Absent(&'a str),
    /// The file with this name has this length.
    Len(&'a str, u64),
    /// So many bytes become its bytes.
    Filled(usize),
    /// A byte is set.
    Set(usize, u8),
    /// Its time becomes the start of 1970; it is that.
    Old,
    IsOld,
}

fn is_read<F: ReadMedium>(alloc: Global, file: &mut CompoundFile<F>, step: &Step<'_>) -> bool {
    match step {
        Bytes(path, bytes) => match read_stream(alloc, file, path) {
            Ok(found) => found.as_slice() == *bytes,
            Err(_) => false,
        },
        Sound(stream, storage) => {
            file.is_sound() && file.is_stream(stream) && file.is_storage(storage)
        }
        _ => false,
    }
}

fn is_full<F: Medium>(file: &mut CompoundFile<F>, path: &str) -> Result<bool, Error> {
    let mut stream = file.create_stream(path)?;
    let made = stream.set_len(4096);
    let grown = stream.set_len(4097);
    stream.close()?;
    made?;
    Ok(grown == Err(Error::Full) && !file.is_failed())
}

fn is_changed<F: Medium>(file: &mut CompoundFile<F>, step: &Step<'_>) -> bool {
    match step {
        Made(path) | Changed(path) => {
            file.version() == Version::V4 && file.create_storage(path, Timestamp::zero()).is_ok()
        }
        MadeFull(path) => is_full(file, path) == Ok(true),
        Put(path, bytes) => write_stream(file, path, bytes).is_ok(),
        Strict(path) => file.exists(path),
        _ => false,
    }
}

type Opened<F> = Result<CompoundFile<F>, Error>;

fn opened(rt: &HostRuntime, path: &str, step: &Step<'_>) -> Opened<FileReadMedium> {
    match step {
        Sound(..) | UnopenedByOptions => OpenOptions::new().open(rt, rt.alloc(), path),
        NoData => OpenOptions::new().strict().open(rt, rt.alloc(), path),
        _ => cfb::open(rt, rt.alloc(), path),
    }
}

fn opened_strictly(rt: &HostRuntime, path: &str) -> Opened<FileMedium> {
    let medium = FileMedium::open(rt, path)?;
    CompoundFile::open_strict(rt.alloc(), medium)
}

fn opened_or_made(rt: &HostRuntime, path: &str, step: &Step<'_>) -> Opened<FileMedium> {
    match step {
        Made(_) => cfb::create(rt, rt.alloc(), path),
        MadeFull(_) => {
            let options = OpenOptions::new().max_sectors(3);
            options.create(rt, rt.alloc(), path)
        }
        Strict(_) => opened_strictly(rt, path),
        Unopened => cfb::open_rw(rt, rt.alloc(), path),
        _ => OpenOptions::new().open_rw(rt, rt.alloc(), path),
    }
}

/// Whether this error comes of it.
fn is_refused(e: Error, step: &Step<'_>) -> bool {
    match step {
        Unopened | UnopenedByOptions => e == Error::Medium(MediumFault::Open),
        NoData => matches!(e, Error::InvalidData(_)),
        _ => false,
    }
}

/// Whether this comes of a file that is opened to be read.
fn comes_of_reading(rt: &HostRuntime, path: &str, step: &Step<'_>) -> bool {
    match opened(rt, path, step) {
        Ok(mut file) => is_read(rt.alloc(), &mut file, step),
        Err(e) => is_refused(e, step),
    }
}

/// Whether this comes of a file that is made, or opened to be changed.
fn comes_of_changing(rt: &HostRuntime, path: &str, step: &Step<'_>) -> bool {
    match opened_or_made(rt, path, step) {
        Ok(mut file) => is_changed(&mut file, step),
        Err(e) => is_refused(e, step),
    }
}

/// Whether a storage is made.
fn is_made<F: Medium>(file: &mut CompoundFile<F>, storage: &str) -> bool {
    file.create_storage(storage, Timestamp::zero()).is_ok()
}

fn is_journaled<F: Medium>(file: &mut CompoundFile<F>, step: &Step<'_>) -> bool {
    match step {
        Kept(storage) => is_made(file, storage) && file.flush().is_ok(),
        LetGo(storage) => is_made(file, storage),
        Gone(storage) => !file.exists(storage),
        _ => false,
    }
}

/// Whether this comes of a file that is opened with a journal.
fn comes_of_journal(rt: &HostRuntime, path: &str, step: &Step<'_>) -> bool {
    match cfb::open_journaled(rt, rt.alloc(), path) {
        Ok(mut file) => is_journaled(&mut file, step),
        Err(_) => false,
    }
}

fn has_len(rt: &HostRuntime, path: &str, len: u64) -> bool {
    match fs::metadata(rt, path) {
        Ok(told) => told.len() == len,
        Err(_) => false,
    }
}

fn is_filled(rt: &HostRuntime, path: &str, len: usize) -> bool {
    match numbered(rt.alloc(), len) {
        Ok(bytes) => fs::write(rt, path, bytes.as_slice()).is_ok(),
        Err(_) => false,
    }
}

fn set_byte(rt: &HostRuntime, path: &str, place: usize, byte: u8) -> io::Result<()> {
    let mut bytes = fs::read(rt, path)?;
    if let Some(old) = bytes.get_mut(place) {
        *old = byte;
    }
    fs::write(rt, path, bytes.as_slice())
}

fn make_old(rt: &HostRuntime, path: &str) -> io::Result<()> {
    let file = fs::OpenOptions::new().write(true).open(rt, path)?;
    file.set_modified(UNIX_EPOCH)
}

fn is_old(rt: &HostRuntime, path: &str) -> io::Result<bool> {
    let told = fs::metadata(rt, path)?;
    Ok((told.mtime(), told.mtime_nsec()) == (0, 0))
}

/// Whether a step goes as it is to.
fn is_done(rt: &HostRuntime, path: &str, step: &Step<'_>) -> bool {
    match step {
        Unopened | UnopenedByOptions => {
            comes_of_changing(rt, path, step) && comes_of_reading(rt, path, step)
        }
        Bytes(..) | Sound(..) | NoData => comes_of_reading(rt, path, step),
        Kept(_) | LetGo(_) | Gone(_) => comes_of_journal(rt, path, step),
        Absent(name) => fs::metadata(rt, *name).is_err(),
        Len(name, len) => has_len(rt, name, *len),
        Filled(len) => is_filled(rt, path, *len),
        Set(place, byte) => set_byte(rt, path, *place, *byte).is_ok(),
        Old => make_old(rt, path).is_ok(),
        IsOld => matches!(is_old(rt, path), Ok(true)),
        _ => comes_of_changing(rt, path, step),
    }
}

/// Plays the steps with the file at this path, which goes then.
fn play(rt: &HostRuntime, path: &str, steps: &[Step<'_>]) -> Result<(), Fail> {
    for (number, step) in steps.iter().enumerate() {
        if !is_done(rt, path, step) {
            return Err(Fail::new(format_args!("step {number}")));
        }
    }
    fs::remove_file(rt, path)?;
    Ok(())
}

#[rattlefmt::skip]
static BY_PATH: &[Step<'static>] = &[
    // the bytes of an older and longer file are gone; a file that is only read is not written
    Unopened, Absent("path.cfb"), Filled(20000), Made("/s"), Len("path.cfb", 12288), Strict("/S"),
    Put("/s/x", b"abc"), Old, Bytes("/s/x", b"abc"), IsOld, Strict("/S/X"),
];

/// Compound files are opened by the paths of their files.
#[test]
fn files_are_opened_by_path(rt: HostRuntime) -> Result<(), Fail> {
    play(&rt, "path.cfb", BY_PATH)
}

#[rattlefmt::skip]
static BY_OPTIONS: &[Step<'static>] = &[
    // one sector comes to the two that there are, and no other: the file is whole then
    UnopenedByOptions, Absent("options.cfb"), Filled(20000), MadeFull("/a"), Len("options.cfb", 16384),
    Bytes("/a", &[0; 4096]), Strict("/A"),
    // the header counts no sector of the directory: strict opening refuses that
    Set(40, 0), NoData, Changed("/s"), Sound("/A", "/s"),
];

/// The options of a file that is reached by its path: what it may grow to, and how much opening
/// demands.
#[test]
fn options_hold_by_path(rt: HostRuntime) -> Result<(), Fail> {
    play(&rt, "options.cfb", BY_OPTIONS)
}

#[rattlefmt::skip]
static BY_JOURNAL: &[Step<'static>] = &[
    Made("/s"), Put("/a", b""), Kept("/kept"), Strict("/kept"), Sound("/a", "/kept"),
    LetGo("/gone"), Gone("/gone"), Strict("/kept"), Sound("/a", "/kept"),
    Len("journaled.cfb-journal", 0),
];

/// With a journal, what was flushed is in the file, and what was not is taken back.
#[test]
fn journaled_files_keep_what_was_flushed(rt: HostRuntime) -> Result<(), Fail> {
    play(&rt, "journaled.cfb", BY_JOURNAL)?;
    fs::remove_file(&rt, "journaled.cfb-journal")?;
    Ok(())
}
