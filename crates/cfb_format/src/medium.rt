//! What a compound file lies on: bytes that are read and written in beginnings.
ghost use Rattle.std.specs.Prelude.{◌≡◌, ◌≤◌, ℕ, Bool, List, length, IsTrue, IfOk, MatchResult};
ghost use Rattle.cfb_format.specs.Medium.{FailsBy, ReadsAt, WritesAt, FailsToWriteAt};
ghost use Rattle.cfb_format.specs.declared.medium.MediumFault.{MediumFault as Fault};

/// What a medium could not do.
#[derive(Clone, Copy, Debug, PartialEq, Eq)]
pub enum MediumFault {
    /// Open the file, or lock it.
    Open,
    /// Tell its length.
    Length,
    /// Read.
    Read,
    /// Write.
    Write,
    /// Flush.
    Flush,
    /// Read a byte that is there: it returned none.
    Stuck,
    /// Allocate memory.
    Memory,
}

/// Bytes that can be read: what a compound file is stored in. If `tells` is true, the medium is
/// specified: contracts know its bytes.
pub trait ReadMedium: Drop {
    /// Whether the medium is honest and tells its bytes.
    ghost tells: { Bool };

    /// The bytes, where it tells them.
    ghost bytes: { Self → List ℕ };

    /// How many calls have failed, up to the top of a `u64`.
    ghost failures: { Self → ℕ };

    /// The faults that it can give by reading.
    ghost read_faults: { Fault → Bool };

    /// The number of bytes.
    fn length(&mut self) -> Result<u64, MediumFault>
        ensures same { IsTrue tells → bytes self.new ≡ bytes self.old }
        ensures honest { IsTrue tells → MatchResult result
            (λ n. (n ≡ length (bytes self.old)) × (failures self.new ≡ failures self.old))
            (FailsBy read_faults (failures self.old) (failures self.new)) };

    /// Puts a beginning of the bytes from `at` on into a beginning of `into`, and answers how many
    /// there are: at least one, where `into` has room and a byte lies there, and never more than
    /// `into` has room for. An answer of 0 in their place counts as the failure `Stuck`.
    fn read_at(&mut self, at: u64, into: &mut [u8]) -> Result<usize, MediumFault>
        ensures bound { IfOk result (λ n. n ≤ length into.new) }
        ensures same { IsTrue tells → bytes self.new ≡ bytes self.old }
        ensures honest { IsTrue tells → MatchResult result (ReadsAt read_faults
            (bytes self.old) (failures self.old) (failures self.new) at into.new)
            (FailsBy read_faults (failures self.old) (failures self.new)) };
}

/// Bytes that can be read and written.
pub trait Medium: ReadMedium {
    /// The faults that it can give by writing.
    ghost write_faults: { Fault → Bool };

    /// Writes a beginning of `from` at `at`, and answers how long it is: at least one byte, where
    /// there is one. A gap past the old end is filled with zeros. A failed write may leave any
    /// bytes in the range that was asked for and past the old end, and keeps all others. An answer
    /// of 0 to a write that is not empty counts as the failure `Stuck`.
    fn write_at(&mut self, at: u64, from: &[u8]) -> Result<usize, MediumFault>
        ensures bound { IfOk result (λ n. n ≤ length from.now) }
        ensures honest { IsTrue Self.tells
            → MatchResult result (WritesAt write_faults (Self.bytes self.old)
            (Self.bytes self.new) (Self.failures self.old) (Self.failures self.new) at from.now)
            (FailsToWriteAt write_faults (Self.bytes self.old)
            (Self.bytes self.new) (Self.failures self.old) (Self.failures self.new) at from.now) };

    /// Hands on what was written. No byte changes.
    fn flush(&mut self) -> Result<(), MediumFault>
        ensures same { IsTrue Self.tells → Self.bytes self.new ≡ Self.bytes self.old }
        ensures honest { IsTrue Self.tells → MatchResult result
            (λ _. Self.failures self.new ≡ Self.failures self.old)
            (FailsBy write_faults (Self.failures self.old) (Self.failures self.new)) };
}
