//! Ten tasks with the library, each as short as a caller writes it. Two files are made where the program runs.

use cfb::{CompoundFile, FileMedium, Medium, ReadMedium, SliceMedium, Timestamp};
use std::alloc::Global;
use std::io::{self, Write};
use uuid::Uuid;

/// Opens a file of the system, and prints the length and the path of each of its objects.
fn list(rt: &HostRuntime, path: &str) -> io::Result<()> {
    let file = cfb::open(rt, rt.alloc(), path)?;
    for entry in file.walk()? {
        println!(rt; "{} {}", entry.len(), entry.path())?;
    }
    Ok(())
}

/// Reads all bytes of a stream.
fn read_stream<F: ReadMedium>(
    alloc: Global,
    file: &mut CompoundFile<F>,
    path: &str,
) -> io::Result<Vec<u8>> {
    Ok(cfb::read_stream(alloc, file, path)?)
}

/// Writes a stream whole: a new one, or in place of what it had.
fn write_stream<F: Medium>(file: &mut CompoundFile<F>, path: &str, bytes: &[u8]) -> io::Result<()> {
    Ok(cfb::write_stream(file, path, bytes)?)
}

/// Copies a stream from one file to another at the same path.
fn copy_stream<F: ReadMedium, G: Medium>(
    alloc: Global,
    from: &mut CompoundFile<F>,
    to: &mut CompoundFile<G>,
    path: &str,
) -> io::Result<u64> {
    Ok(cfb::copy_stream(alloc, from, path, to, path)?)
}

/// Prints path, class id, state bits and moment of each object.
fn metadata(rt: &HostRuntime, file: &CompoundFile<FileMedium>) -> io::Result<()> {
    for entry in file.walk()? {
        println!(rt;
            "{} {} {:08x} {:?}",
            entry.path(),
            entry.clsid(),
            entry.state_bits(),
            entry.modified()
        )?;
    }
    Ok(())
}

/// Gives a storage a class id.
fn set_clsid(file: &mut CompoundFile<FileMedium>) -> io::Result<()> {
    Ok(file.set_storage_clsid("/s", Uuid::from_u128(7))?)
}

/// Removes a storage with all that is in it.
fn remove(file: &mut CompoundFile<FileMedium>) -> io::Result<()> {
    Ok(file.remove_storage_all("/s")?)
}

/// Opens a file in memory that is lent.
fn from_bytes(alloc: Global, bytes: &[u8]) -> io::Result<CompoundFile<SliceMedium<'_>>> {
    Ok(CompoundFile::open(alloc, SliceMedium::new(bytes))?)
}

/// Counts the streams right below the root.
fn root_streams(file: &CompoundFile<SliceMedium<'_>>) -> io::Result<usize> {
    Ok(file.read_root_storage()?.filter(|e| e.is_stream()).count())
}

/// Reads the first line of a stream.
fn first_line(alloc: Global, file: &mut CompoundFile<SliceMedium<'_>>) -> io::Result<String> {
    let mut line = String::new(alloc);
    let mut stream = file.open_read_stream("/s/x")?;
    let mut byte = [0];
    for _place in 0..stream.len() {
        stream.read(&mut byte)?;
        line.push(char::from(byte[0]))?;
        if byte[0] == b'\n' {
            break;
        }
    }
    Ok(line)
}

const PATH: &str = "first.cfb";

/// Makes what the tasks are done with.
fn make(file: &mut CompoundFile<FileMedium>) -> io::Result<()> {
    file.create_storage("/s", Timestamp::zero())?;
    write_stream(file, "/s/x", b"hello\nworld")?;
    set_clsid(file)
}

fn tell_length(rt: &HostRuntime, file: &mut CompoundFile<FileMedium>) -> io::Result<()> {
    let bytes = read_stream(rt.alloc(), file, "/s/x")?;
    println!(rt; "{}", bytes.len())?;
    Ok(())
}

/// Copies the stream into another file, which is made.
fn copy(rt: &HostRuntime, file: &mut CompoundFile<FileMedium>) -> io::Result<u64> {
    let mut to = cfb::create(rt, rt.alloc(), "second.cfb")?;
    to.create_storage("/s", Timestamp::zero())?;
    copy_stream(rt.alloc(), file, &mut to, "/s/x")
}

/// Tells of the file's bytes, which are read at once.
fn tell_bytes(rt: &HostRuntime) -> io::Result<()> {
    let whole = std::fs::read(rt, PATH)?;
    let mut file = from_bytes(rt.alloc(), &whole)?;
    let count = root_streams(&file)?;
    let line = first_line(rt.alloc(), &mut file)?;
    println!(rt; "{count} {line}")?;
    Ok(())
}

fn do_all(rt: &HostRuntime, file: &mut CompoundFile<FileMedium>) -> io::Result<()> {
    make(file)?;
    metadata(rt, file)?;
    list(rt, PATH)?;
    tell_length(rt, file)?;
    println!(rt; "{}", copy(rt, file)?)?;
    tell_bytes(rt)?;
    remove(file)?;
    list(rt, PATH)
}

/// Does all of them.
pub fn all(rt: &HostRuntime) -> io::Result<()> {
    let mut file = cfb::create(rt, rt.alloc(), PATH)?;
    do_all(rt, &mut file)
}
