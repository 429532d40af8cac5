//! What is timed.

use crate::pieces::{File, fill, overwrite, read_through};
use anyhow::Result;
use cfb::{CompoundFile, MemoryMedium, Timestamp, Version};
use std::alloc::Global;
use std::rt::Clock;
use std::time::Instant;

/// How many streams the file has whose entries are told.
const STREAMS: usize = 10_000;
/// How many bytes a long piece has.
const LONG: usize = 65_536;
/// How many bytes a short piece has.
const SHORT: usize = 100;

/// What each time is of.
pub const ROWS: [&str; 13] = [
    "make 10,000 streams of 100 bytes",
    "find each by its path",
    "read each",
    "open the file with them",
    "walk its entries",
    "remove every second",
    "remove the rest with their storage",
    "write 64 MiB by 64 KiB",
    "read 64 MiB by 64 KiB",
    "write 100 bytes over 64 MiB, 10,000 times",
    "remove 64 MiB",
    "write 2 MB by 100 bytes",
    "write 100 bytes over 2 MB, 10,000 times",
];

/// The least times of three runs, in microseconds.
pub fn least_times<R: Clock + AllocGlobal>(rt: &R, version: Version) -> Result<[u64; 13]> {
    let mut least = [u64::MAX; 13];
    for _turn in 0..3 {
        let [make, find, look, open, walk, half, rest] = times_of_many(rt, version)?;
        let [write, read, over, removed] = times_of_long(rt, version)?;
        let [short, over_short] = times_of_short(rt, version)?;
        let times = [
            make, find, look, open, walk, half, rest, write, read, over, removed, short, over_short,
        ];
        for (best, time) in least.iter_mut().zip(times.iter()) {
            *best = (*best).min(*time);
        }
    }
    Ok(least)
}

/// The microseconds since then, and the time now.
fn lap<R: Clock>(clock: &R, start: &mut Instant) -> Result<u64> {
    let micros = start.elapsed(clock)?.as_micros();
    *start = Instant::now(clock)?;
    Ok(micros.min(u64::MAX as u128) as u64)
}

/// The path of the stream of this number.
fn path_of(alloc: Global, number: usize) -> Result<String> {
    Ok(format!(in alloc; "/many/{number}")?)
}

fn new_file(alloc: Global, version: Version) -> Result<File> {
    Ok(CompoundFile::create_with_version(alloc, version, MemoryMedium::new(alloc))?)
}

// What owns a file only makes it and lends it: each way out of a function that owns one costs the proof of letting it go.

/// Streams are made in a storage, found and read; the file is opened anew and walked; and they are removed.
fn times_of_many<R: Clock + AllocGlobal>(rt: &R, version: Version) -> Result<[u64; 7]> {
    let mut file = new_file(rt.alloc(), version)?;
    let [made, found, read] = times_to_make(rt, &mut file)?;
    let [opened, walked, half, rest] = times_to_open(rt, file.into_inner())?;
    Ok([made, found, read, opened, walked, half, rest])
}

fn times_to_make<R: Clock + AllocGlobal>(rt: &R, file: &mut File) -> Result<[u64; 3]> {
    let mut clock = Instant::now(rt)?;
    file.create_storage("/many", Timestamp::zero())?;
    for number in 0..STREAMS {
        let path = path_of(rt.alloc(), number)?;
        fill(file, path.as_str(), &[7; SHORT], 1)?;
    }
    let made = lap(rt, &mut clock)?;
    for number in 0..STREAMS {
        let path = path_of(rt.alloc(), number)?;
        let _found = file.is_stream(path.as_str());
    }
    let found = lap(rt, &mut clock)?;
    let mut room = [0; SHORT];
    for number in 0..STREAMS {
        let path = path_of(rt.alloc(), number)?;
        read_through(file, path.as_str(), &mut room)?;
    }
    Ok([made, found, lap(rt, &mut clock)?])
}

fn times_to_open<R: Clock + AllocGlobal>(rt: &R, medium: MemoryMedium) -> Result<[u64; 4]> {
    let mut clock = Instant::now(rt)?;
    let mut file = CompoundFile::open(rt.alloc(), medium)?;
    times_to_remove(rt, &mut file, &mut clock)
}

fn times_to_remove<R: Clock + AllocGlobal>(
    rt: &R,
    file: &mut File,
    clock: &mut Instant,
) -> Result<[u64; 4]> {
    let opened = lap(rt, clock)?;
    let _count = file.walk()?.count();
    let walked = lap(rt, clock)?;
    for number in (0..STREAMS).step_by(2) {
        let path = path_of(rt.alloc(), number)?;
        file.remove_stream(path.as_str())?;
    }
    let half = lap(rt, clock)?;
    file.remove_storage_all("/many")?;
    Ok([opened, walked, half, lap(rt, clock)?])
}

/// A long stream is written, read, written over, and removed.
fn times_of_long<R: Clock + AllocGlobal>(rt: &R, version: Version) -> Result<[u64; 4]> {
    let mut piece = vec![in rt.alloc(); 7u8; LONG]?;
    let mut file = new_file(rt.alloc(), version)?;
    long_times(rt, &mut file, &mut piece)
}

fn long_times<R: Clock>(rt: &R, file: &mut File, piece: &mut [u8]) -> Result<[u64; 4]> {
    let mut clock = Instant::now(rt)?;
    fill(file, "/long", piece, 1024)?;
    let written = lap(rt, &mut clock)?;
    read_through(file, "/long", piece)?;
    let read = lap(rt, &mut clock)?;
    overwrite(file, "/long", &[8; SHORT], 10_000)?;
    let over = lap(rt, &mut clock)?;
    file.remove_stream("/long")?;
    Ok([written, read, over, lap(rt, &mut clock)?])
}

/// A stream is written in short pieces, and written over.
fn times_of_short<R: Clock + AllocGlobal>(rt: &R, version: Version) -> Result<[u64; 2]> {
    let mut file = new_file(rt.alloc(), version)?;
    short_times(rt, &mut file)
}

fn short_times<R: Clock>(rt: &R, file: &mut File) -> Result<[u64; 2]> {
    let mut clock = Instant::now(rt)?;
    fill(file, "/short", &[7; SHORT], 20_000)?;
    let written = lap(rt, &mut clock)?;
    overwrite(file, "/short", &[8; SHORT], 10_000)?;
    Ok([written, lap(rt, &mut clock)?])
}
