//! With no word ten tasks are done with the library (module `tasks`), and what is printed is in `stdout`. With the word `times` a table
//! tells how long calls on compound files take in memory, in milliseconds, each the least of three runs.
#![tactic(auto)]

mod pieces;
mod tasks;
mod times;

use anyhow::Result;
use cfb::Version;
use std::env;
use std::rt::Clock;
use times::{ROWS, least_times};

fn main(rt: HostRuntime) -> Result<()> {
    let words: Vec<String> = env::args(&rt)?.skip(1).collect(rt.alloc())?;
    match words.as_slice() {
        [] => Ok(tasks::all(&rt)?),
        [word] if word.as_str() == "times" => {
            print_table(&rt, Version::V3)?;
            print_table(&rt, Version::V4)
        }
        _ => {
            println!(rt; "usage: cfb_tasks [times]")?;
            Ok(())
        }
    }
}

/// Prints the least times of files of this version.
fn print_table<R: Clock + Print + AllocGlobal>(rt: &R, version: Version) -> Result<()> {
    let times = least_times(rt, version)?;
    println!(rt; "version {}", version.number())?;
    for (row, time) in ROWS.iter().zip(times.iter()) {
        println!(rt; "{row:<44} {:>6}.{:03}", time / 1000, time % 1000)?;
    }
    Ok(())
}
