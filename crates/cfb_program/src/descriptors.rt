//! Standard input, output and error that the caller closed. The system gives the number of a closed
//! one to the next file that is opened, and what is printed would be written into that file.
use std::fs::File;
use std::os::fd::AsRawFd;

/// Keeps the numbers of closed standard input, output and error from other files.
#[derive(Drop)]
pub struct Held {
    _folders: [Option<File>; 3],
}

/// Opens a folder until it gets a number that is none of the three: a folder can neither be read
/// nor written as a file, so that a call on it fails as one on a closed number does.
pub fn hold_standard(rt: &HostRuntime) -> Held {
    let mut folders = [None, None, None];
    for slot in &mut folders {
        match File::open(rt, "/") {
            Ok(folder) if folder.as_raw_fd() <= 2 => *slot = Some(folder),
            _ => break,
        }
    }
    Held { _folders: folders }
}
