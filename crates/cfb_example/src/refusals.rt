//! What the program tells of refusals that no run comes to here.
use cfb::{Error, MediumFault};
use cfb_program::refusal::{About, Place, Refusal, tell};
use std::alloc::Global;
use std::io;

/// What a refusal of a call at `/x` in `a\u0009b` is told as. `c` is the other file that is named.
fn told_of(alloc: Global, refusal: Refusal) -> Vec<u8> {
    let about = About {
        file: "a\tb",
        path: Some("/x"),
        other: Some("c"),
    };
    let mut faults = Vec::new(alloc);
    tell(refusal, about, &mut faults);
    faults
}

/// Errors that come of no run here: they want a disk that is full, or one that breaks.
#[rattlefmt::skip]
const ERRORS: &[(Error, &[u8])] = &[
    (Error::Full, b"cfbtool: file is full: a\\u0009b\n"),
    (Error::Failed, b"cfbtool: file failed earlier: a\\u0009b\n"),
    (Error::Medium(MediumFault::Write), b"cfbtool: medium failed: a\\u0009b\n"),
];

#[rattlefmt::skip]
const FAULTS: &[(Place, i32, &[u8])] = &[
    (Place::File, 28, b"cfbtool: medium failed: a\\u0009b: No space left on device (os error 28)\n"),
    (Place::File, 5, b"cfbtool: medium failed: a\\u0009b: Input/output error (os error 5)\n"),
    (Place::File, 30, b"cfbtool: medium failed: a\\u0009b: Read-only file system (os error 30)\n"),
    (Place::Other, 28, b"cfbtool: medium failed: c: No space left on device (os error 28)\n"),
    (Place::Input, 9, b"cfbtool: medium failed\n"),
    (Place::Output, 32, b"cfbtool: medium failed\n"),
];

fn are_errors_told(alloc: Global) -> bool {
    for (e, line) in ERRORS {
        if told_of(alloc, Refusal::Of(*e)).as_slice() != *line {
            return false;
        }
    }
    true
}

fn are_faults_told(alloc: Global) -> bool {
    for (place, code, line) in FAULTS {
        let reason = io::Error::from_raw_os_error(*code);
        if told_of(alloc, Refusal::System(*place, reason)).as_slice() != *line {
            return false;
        }
    }
    true
}

/// Whether a fault of the medium is told so, with the reason that it gives.
fn is_reason_told(alloc: Global, code: i32, line: &[u8]) -> bool {
    let reason = io::Error::from_raw_os_error(code);
    let refusal = Refusal::Of(Error::Medium(MediumFault::Write));
    told_of(alloc, refusal.because(Some(reason))).as_slice() == line
}

/// Want of memory is told as such.
#[rattlefmt::skip]
fn are_reasons_told(alloc: Global) -> bool {
    is_reason_told(alloc, 28, b"cfbtool: medium failed: a\\u0009b: No space left on device (os error 28)\n")
        && is_reason_told(alloc, 12, b"cfbtool: out of memory\n")
}

/// Whether want of memory at a standard stream is told as such.
fn is_want_told(alloc: Global, refusal: Refusal) -> bool {
    told_of(alloc, refusal).as_slice() == b"cfbtool: out of memory\n".as_slice()
}

#[test]
fn refusals_are_told(rt: HostRuntime) {
    assert!(rt; are_errors_told(rt.alloc()));
    assert!(rt; are_faults_told(rt.alloc()));
    assert!(rt; are_reasons_told(rt.alloc()));
    let want = io::Error::from_raw_os_error(12);
    assert!(rt; is_want_told(rt.alloc(), Refusal::of_input(want)));
    assert!(rt; is_want_told(rt.alloc(), Refusal::of_output(want)));
}
