//! What a medium keeps of the calls that std refused.
ghost use Rattle.std.specs.Prelude.{◌≡◌, ◌+◌, ◌-◌, ◌^◌, min, Some};
ghost use Rattle.cfb_files.specs.Failures.{no_failure};

use std::io;

/// How many calls at a medium failed, and why the last of these did.
#[derive(Clone, Copy, Debug)]
pub struct Failures {
    count: u64,
    last_error: Option<io::Error>,
}

impl Failures {
    /// No call has failed.
    pub fn new() -> Failures
        ensures { result ≡ no_failure }
    {
        Failures {
            count: 0,
            last_error: None,
        }
    }

    /// A call failed with this error. It is counted up to the top of a `u64`.
    pub fn add(&mut self, error: io::Error)
        ensures count { self.new.count ≡ min (self.old.count + 1) (2 ^ 64 - 1) }
        ensures why { self.new.last_error ≡ Some error }
    {
        self.count = self.count.saturating_add(1);
        self.last_error = Some(error);
    }

    /// Why the last of the failed calls failed, if there was one.
    pub fn last_error(&self) -> Option<io::Error>
        ensures { result ≡ self.now.last_error }
    {
        self.last_error
    }
}
