//! Why a call was refused, as a number.
ghost use Rattle.std.specs.Prelude.{◌≡◌, MatchResult};
ghost use Rattle.cfb_c.specs.declared.refusal.Refusal.TheVariants.{Library};
ghost use Rattle.cfb_c.specs.Numbers.{IsPath, IsWrong, number_of_refusal, number_told, reason_in};

use cfb_format::error::{Detail, Error};
use std::str;

/// What a call answers where it is done.
pub const DONE: u8 = 0;

/// What a call answers where the room that it was given is too small.
pub const TOO_SMALL: u8 = 10;

/// What a call answers where the handle holds nothing, or not what the call needs.
pub const NOT_OPEN: u8 = 11;

/// Why a call was refused.
#[derive(Clone, Copy)]
pub enum Refusal {
    /// By the library: numbers 1 to 9.
    Library(Error),
    /// The room is too small.
    TooSmall,
    /// The handle does not hold what the call needs.
    NotOpen,
}

impl Refusal {
    /// The number that a call answers.
    pub fn number(&self) -> u8
        ensures { result ≡ number_of_refusal self.now }
    {
        match self {
            Refusal::Library(e) => e.number(),
            Refusal::TooSmall => TOO_SMALL,
            Refusal::NotOpen => NOT_OPEN,
        }
    }

    /// What a handle tells of it: the library's error.
    pub fn reason(&self) -> Option<Error>
        ensures { result ≡ reason_in self.now }
    {
        match self {
            Refusal::Library(e) => Some(*e),
            Refusal::TooSmall | Refusal::NotOpen => None,
        }
    }
}

impl From<Error> for Refusal {
    ghost from_gives = { λ e refusal. refusal ≡ Library e };

    fn from(e: Error) -> Refusal {
        Refusal::Library(e)
    }
}

/// What is wrong about an argument.
pub fn wrong(text: &'static str) -> Refusal
    ensures { IsWrong result }
{
    Refusal::Library(Error::InvalidInput(Detail::text(text)))
}

/// The number that a call answers.
pub fn answer(outcome: Result<(), Refusal>) -> u8
    ensures { result ≡ number_told outcome }
{
    match outcome {
        Ok(()) => DONE,
        Err(refusal) => refusal.number(),
    }
}

/// A path as text.
///
/// # Errors
///
/// `InvalidInput` where the bytes are not UTF-8, and where a zero is among them.
pub fn text(path: &[u8]) -> Result<&str, Refusal>
    ensures { MatchResult result (λ text. (text.now ≡ path.now) × IsPath path.now)
        (λ refusal. IsWrong refusal × (IsPath path.now → ⊥)) }
{
    if path.contains(&0) {
        return Err(wrong("a path has a zero in it"));
    }
    match str::from_utf8(path) {
        Ok(path) => Ok(path),
        Err(_) => Err(wrong("a path is not UTF-8")),
    }
}
