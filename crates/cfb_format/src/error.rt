//! What a call may be refused with.
ghost use Rattle.std.specs.Prelude.{◌≡◌, ◌∷◌, [], ◌+◌, ◌*◌, ◌^◌};
ghost use Rattle.std.specs.IoError.{error_kind};
ghost use Rattle.cfb_format.specs.declared.error.Error.TheVariants.{Memory, Medium};
ghost use Rattle.cfb_format.specs.Refused.{number_of, text_of, numbers_behind};
ghost use Rattle.cfb_format.specs.StdKinds.{std_kind};

use crate::medium::MediumFault;
use std::alloc::{AllocError, AllocFailed};
use std::fmt::InlineText;
use std::io::ErrorKind;
use std::{fmt, io};
use thiserror::Error;

/// What an error is about: a text with up to two numbers, such as a sector or a length. It takes no
/// memory. `Display` prints it.
///
/// A text may have places for its numbers: `{}` prints one in decimal, `{x}` in hexadecimal as
/// `0x1f`, `{bytes}` as its 8 bytes, lowest first, and `{two}` as two numbers of 32 bits, as `7 and
/// 9`. The numbers of a text without places stand behind it, as `text (1, 2)`.
#[derive(Clone, Copy, Debug, PartialEq, Eq)]
pub struct Detail {
    text: &'static str,
    numbers: Numbers,
}

/// The numbers that a text tells. None is told from the number 0.
#[derive(Clone, Copy, Debug, PartialEq, Eq)]
enum Numbers {
    Empty,
    One(u64),
    Two(u64, u64),
}

impl Detail {
    /// A text alone.
    pub fn text(text: &'static str) -> Detail
        ensures text { text_of result ≡ text.now }
        ensures numbers { numbers_behind result ≡ [] }
    {
        Detail {
            text,
            numbers: Numbers::Empty,
        }
    }

    /// A text that tells one number.
    pub fn number(text: &'static str, first: u64) -> Detail
        ensures text { text_of result ≡ text.now }
        ensures numbers { numbers_behind result ≡ first ∷ [] }
    {
        Detail {
            text,
            numbers: Numbers::One(first),
        }
    }

    /// A text that tells two numbers: `Detail::numbers("entry {}: type {}", 44, 7)` is printed as
    /// `entry 44: type 7`.
    pub fn numbers(text: &'static str, first: u64, second: u64) -> Detail
        ensures text { text_of result ≡ text.now }
        ensures numbers { numbers_behind result ≡ first ∷ second ∷ [] }
    {
        Detail {
            text,
            numbers: Numbers::Two(first, second),
        }
    }

    /// A text that tells three sectors: its place `{two}` prints the first two of them, as
    /// `7 and 9`, and the place behind that the third.
    pub fn sectors(text: &'static str, first: u32, second: u32, third: u32) -> Detail
        ensures text { text_of result ≡ text.now }
        ensures numbers { numbers_behind result ≡ (first * 2 ^ 32 + second) ∷ third ∷ [] }
    {
        let two = u64::from(first) * (1 << 32) + u64::from(second);
        Detail::numbers(text, two, u64::from(third))
    }
}

impl fmt::Display for Detail {
    fn fmt<W: fmt::Write>(&self, f: &mut fmt::Formatter<W>) -> fmt::Result {
        let Some((before, places)) = self.text.split_once('{') else {
            f.write_str(self.text)?;
            return write_behind(f, self.numbers);
        };
        f.write_str(before)?;
        for (index, place) in places.split('{').enumerate() {
            let (form, behind) = place.split_once('}').unwrap_or((place, ""));
            if let Some(number) = number_at(self.numbers, index) {
                write_number(f, form, number)?;
            }
            f.write_str(behind)?;
        }
        Ok(())
    }
}

fn number_at(numbers: Numbers, index: usize) -> Option<u64> {
    match (index, numbers) {
        (0, Numbers::One(first) | Numbers::Two(first, _)) => Some(first),
        (1, Numbers::Two(_, second)) => Some(second),
        _ => None,
    }
}

/// Writes a number in the form of its place.
fn write_number<W: fmt::Write>(f: &mut fmt::Formatter<W>, form: &str, number: u64) -> fmt::Result {
    match form {
        "x" => write!(f, "{number:#x}"),
        "bytes" => {
            let [a, b, c, d, e, g, h, i] = number.to_le_bytes();
            write!(
                f,
                "{a:02x} {b:02x} {c:02x} {d:02x} {e:02x} {g:02x} {h:02x} {i:02x}"
            )
        }
        "two" => {
            let (first, second) = (number >> 32, number & 0xffff_ffff);
            write!(f, "{first} and {second}")
        }
        _ => write!(f, "{number}"),
    }
}

/// Writes the numbers that have no places, in parentheses.
fn write_behind<W: fmt::Write>(f: &mut fmt::Formatter<W>, numbers: Numbers) -> fmt::Result {
    match numbers {
        Numbers::Empty => Ok(()),
        Numbers::One(first) => write!(f, " ({first})"),
        Numbers::Two(first, second) => write!(f, " ({first}, {second})"),
    }
}

/// Why a call failed. `?` turns it into an `io::Error`.
#[derive(Clone, Copy, Debug, PartialEq, Eq, Error)]
pub enum Error {
    /// Nothing is at the path, or its parent storage is missing.
    #[error("{0}")]
    NotFound(Detail),
    /// A storage or a stream is at the path already.
    #[error("{0}")]
    AlreadyExists(Detail),
    /// An argument is wrong: a path, a name, a pair of letters, an offset or a length.
    #[error("{0}")]
    InvalidInput(Detail),
    /// The bytes are not a valid compound file, or a stream cannot be read there.
    #[error("{0}")]
    InvalidData(Detail),
    /// The medium failed, as by an I/O error.
    #[error("medium failed")]
    Medium(MediumFault),
    /// Out of memory.
    #[error("out of memory")]
    Memory,
    /// The file is full: no sector ID is left, or the limit is reached.
    #[error("file is full")]
    Full,
    /// The file is inconsistent, and so only read.
    #[error("file is not sound")]
    Unsound,
    /// An earlier change failed midway.
    #[error("file failed earlier")]
    Failed,
}

impl From<AllocError> for Error {
    ghost from_gives = { λ _ e. e ≡ Memory };

    fn from(_e: AllocError) -> Error {
        Error::Memory
    }
}

impl<T: Drop> From<AllocFailed<T>> for Error {
    ghost from_gives = { λ _ e. e ≡ Memory };

    fn from(_e: AllocFailed<T>) -> Error {
        Error::Memory
    }
}

impl From<MediumFault> for Error {
    ghost from_gives = { λ fault e. e ≡ Medium fault };

    fn from(fault: MediumFault) -> Error {
        Error::Medium(fault)
    }
}

/// The most bytes of text that an `io::Error` holds.
const IO_TEXT_LEN: usize = 80;

/// The error of std with the kind of `std_kind` and the same text.
impl From<Error> for io::Error {
    ghost from_gives = { λ error told. error_kind told ≡ std_kind error };

    fn from(error: Error) -> io::Error {
        let text = InlineText::<{ IO_TEXT_LEN }>::of(error);
        io::Error::new(error.std_kind(), text.as_str())
    }
}

impl Error {
    /// The kind that the error has in std. It is never `Interrupted`, after which std would try
    /// again.
    pub fn std_kind(&self) -> ErrorKind
        ensures { result ≡ std_kind self.now }
    {
        match self {
            Error::NotFound(_) => ErrorKind::NotFound,
            Error::AlreadyExists(_) => ErrorKind::AlreadyExists,
            Error::InvalidInput(_) => ErrorKind::InvalidInput,
            Error::InvalidData(_) => ErrorKind::InvalidData,
            Error::Medium(_) => ErrorKind::Other,
            Error::Memory => ErrorKind::OutOfMemory,
            Error::Full => ErrorKind::StorageFull,
            Error::Unsound => ErrorKind::InvalidData,
            Error::Failed => ErrorKind::Other,
        }
    }

    /// The number of the kind, from 1 to 9.
    pub fn number(&self) -> u8
        ensures { result ≡ number_of self.now }
    {
        match self {
            Error::NotFound(_) => 1,
            Error::AlreadyExists(_) => 2,
            Error::InvalidInput(_) => 3,
            Error::InvalidData(_) => 4,
            Error::Medium(_) => 5,
            Error::Memory => 6,
            Error::Full => 7,
            Error::Unsound => 8,
            Error::Failed => 9,
        }
    }
}
