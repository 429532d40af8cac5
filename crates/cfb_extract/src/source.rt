//! What is extracted: the objects of a compound file by the numbers of their entries.
ghost use Rattle.std.specs.Prelude.{◌≡◌, ◌<◌, ◌≤◌, ℕ, List, chars, length, string_bytes, IfErr, IfOk};
ghost use Rattle.cfb_format.specs.DirectoryEntry.{Entry};
ghost use Rattle.cfb_format.specs.Refused.{IsBreak, IsMemory};
ghost use Rattle.cfb_format.specs.Siblings.{entry_at};
ghost use Rattle.cfb_outline.specs.Families.{is_stream_kind};
ghost use Rattle.cfb_extract.specs.Pieces.{ReadsPiece};

use cfb_format::error::Error;
use std::alloc::{AllocError, Allocator as Heap};

/// The entries of a directory, and the bytes of its streams. Contracts speak of the bytes only where
/// it is known what they are. No call changes anything but the count of the medium's failures.
pub trait Source {
    /// Whether it is known what the streams hold.
    ghost tells: { Self → Type 0 };

    /// The entries of the directory.
    ghost listed: { Self → List Entry };

    /// The beginning that can be read of the stream of an entry.
    ghost content: { Self → Entry → List ℕ };

    /// All that there is but the count of failures, in a form that the implementor picks.
    ghost Kept: { Type 0 };

    ghost kept: { Self → Kept };

    /// Whether the entry of this number is that of a stream.
    fn is_stream(&self, entry: u32) -> bool
        requires { entry < length (listed self.now) }
        ensures { result ≡ is_stream_kind (entry_at (listed self.now) entry).obj_type };

    /// The length of the stream of that entry.
    fn stream_len(&self, entry: u32) -> u64
        requires { entry < length (listed self.now) }
        ensures { result ≡ (entry_at (listed self.now) entry).stream_len };

    /// The name of that entry. Memory may be refused.
    fn name<A: Heap>(&self, alloc: A, entry: u32) -> Result<String<A>, AllocError>
        requires { entry < length (listed self.now) }
        ensures { IfOk result (λ name. chars (string_bytes name)
            ≡ (entry_at (listed self.now) entry).name) };

    /// How many bytes of the stream of that entry can be read, from its first one on. `Memory`.
    fn readable_len(&self, entry: u32) -> Result<u64, Error>
        requires { entry < length (listed self.now) }
        ensures ok { tells self.now
            → IfOk result (λ n. n ≡ length (content self.now (entry_at (listed self.now) entry))) }
        ensures refused { IfErr result IsMemory };

    /// Puts a beginning of what can be read of the stream of that entry from byte `at` on into a
    /// beginning of `into`, and answers how many bytes there are: none only where that has no room.
    /// `Medium`, `Memory`.
    fn read_piece(&mut self, entry: u32, at: u64, into: &mut [u8]) -> Result<usize, Error>
        requires { entry < length (listed self.old) }
        ensures entries { listed self.new ≡ listed self.old }
        ensures told { tells self.old → tells self.new }
        ensures kept { tells self.old → kept self.new ≡ kept self.old }
        ensures content { tells self.old → content self.new ≡ content self.old }
        ensures bound { IfOk result (λ n. n ≤ length into.new) }
        ensures ok { tells self.old
            → at < length (content self.old (entry_at (listed self.old) entry))
            → IfOk result (ReadsPiece (content self.old (entry_at (listed self.old) entry)) at
            into.new) }
        ensures refused { tells self.old
            → at < length (content self.old (entry_at (listed self.old) entry))
            → IfErr result (IsBreak ⊥) };
}
