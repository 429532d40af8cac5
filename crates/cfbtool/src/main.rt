//! A program over compound files. Run with no words it says that the words are wrong; the words
//! are listed at `tool`.
#![tactic(auto)]

use cfb_program::descriptors::hold_standard;
use cfb_program::options::words_of;
use cfb_program::words::tool;
use std::process::ExitCode;

fn main(rt: HostRuntime) -> ExitCode {
    let _held = hold_standard(&rt);
    let Ok(words) = words_of(&rt) else {
        let _ = eprintln!(rt; "cfbtool: out of memory");
        return ExitCode::from(1);
    };
    tool(
        &rt,
        words.as_slice(),
        &mut rt.stdin(),
        &mut rt.stdout(),
        &mut rt.stderr(),
    )
}
