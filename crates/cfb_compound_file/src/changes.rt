//! Changes of a compound file by paths.
ghost use Rattle.std.specs.Prelude.{◌≡◌, ◌||◌, IfErr, IsTrue, OnOk, chars};
ghost use Rattle.cfb_compound_file.specs.cfb_rules.Calls.{create_storage, create_storage_all, remove_storage, remove_storage_all, remove_stream, set_created_time, set_modified_time, set_state_bits, set_storage_clsid, touch};
ghost use Rattle.cfb_path_changes.specs.Answers.{LacksRoomOnTheWay};
ghost use Rattle.cfb_path_changes.specs.Calls.{CallAnswers, CallAnswersInTurn, HeedsFlags};
ghost use Rattle.cfb_path_changes.specs.Removing.{ErasesStreamAt};

use crate::compound_file::CompoundFile;
use cfb_codecs::timestamp::Timestamp;
use cfb_format::error::Error;
use cfb_format::medium::Medium;
use cfb_path_changes::marking::{NewField, set_field};
use cfb_path_changes::{creating, removing};
use std::alloc::Allocator as Heap;
use uuid::Uuid;

impl<F: Medium, A: Heap + Clone> CompoundFile<F, A> {
    /// Creates an empty storage at this path (MS-CFB 2.6.3). `moment` is its creation time and its modification time.
    /// [`CompoundFile::create_storage_all`] also creates the storages above it; [`CompoundFile::create_stream`] creates a stream.
    ///
    /// # Errors
    ///
    /// These change nothing:
    ///
    /// - `InvalidInput`: the path leaves the root, its last name is invalid, or its parent is a stream.
    /// - `AlreadyExists`: a storage, a stream or the root is at the path.
    /// - `NotFound`: the parent storage is missing; [`CompoundFile::create_storage_all`] creates it.
    /// - [`Error::Unsound`]: the file is inconsistent; [`CompoundFile::flaws`] tells why.
    /// - [`Error::Full`]: no directory entry can be allocated.
    /// - `Memory`: out of memory.
    /// - [`Error::Failed`]: an earlier change failed midway ([`CompoundFile::is_failed`]).
    ///
    /// After `Medium` the file is unchanged, or it has failed ([`CompoundFile::is_failed`]).
    pub fn create_storage(&mut self, path: &str, moment: Timestamp) -> Result<(), Error>
        ensures any { HeedsFlags self.old result self.new }
        ensures does { IsTrue F.tells → CallAnswers (λ f. F.read_faults f || F.write_faults f)
            self.old (create_storage (chars path.now) moment) result self.new }
    {
        creating::create_storage(&mut self.volume, path, moment)
    }

    /// Creates a storage at this path, and all storages above it that are missing. `moment` is their creation time and their modification
    /// time. Storages that exist stay as they are. [`CompoundFile::create_storage`] creates one storage alone.
    ///
    /// # Errors
    ///
    /// These change nothing:
    ///
    /// - `InvalidInput`: the path leaves the root, or one of its names is invalid.
    /// - `AlreadyExists`: a stream is at the path or above it.
    /// - [`Error::Unsound`]: the file is inconsistent; [`CompoundFile::flaws`] tells why.
    /// - [`Error::Failed`]: an earlier change failed midway ([`CompoundFile::is_failed`]).
    ///
    /// After `Memory` or `Medium` the file is unchanged, or it has failed ([`CompoundFile::is_failed`]). After [`Error::Full`] too: it is
    /// unchanged if no directory entry could be allocated for the first storage; otherwise the storages that were created stay, and the
    /// file has failed.
    pub fn create_storage_all(&mut self, path: &str, moment: Timestamp) -> Result<(), Error>
        ensures any { HeedsFlags self.old result self.new }
        ensures does { IsTrue F.tells → CallAnswersInTurn (λ f. F.read_faults f || F.write_faults f)
            self.old (create_storage_all (chars path.now) moment) result self.new }
        ensures foreseen { IsTrue F.tells → IfErr result (λ e. e ≡ Error.Full
            → LacksRoomOnTheWay self.old (chars path.now) moment self.new) }
    {
        creating::create_storage_all(&mut self.volume, path, moment)
    }

    /// Removes the empty storage at this path. [`CompoundFile::remove_storage_all`] also removes what is in it; for a stream use
    /// [`CompoundFile::remove_stream`].
    ///
    /// # Errors
    ///
    /// These change nothing:
    ///
    /// - `InvalidInput`: the path leaves the root, or a stream, the root or a storage that is not empty is there.
    /// - `NotFound`: nothing is at the path.
    /// - [`Error::Unsound`]: the file is inconsistent; [`CompoundFile::flaws`] tells why.
    /// - `Memory`: out of memory.
    /// - [`Error::Failed`]: an earlier change failed midway ([`CompoundFile::is_failed`]).
    ///
    /// After `Medium` the file is unchanged, or it has failed ([`CompoundFile::is_failed`]).
    pub fn remove_storage(&mut self, path: &str) -> Result<(), Error>
        ensures any { HeedsFlags self.old result self.new }
        ensures does { IsTrue F.tells → CallAnswers (λ f. F.read_faults f || F.write_faults f)
            self.old (remove_storage (chars path.now)) result self.new }
    {
        removing::remove_storage(&mut self.volume, path)
    }

    /// Removes the storage or stream at this path with everything in it. Of the root it removes everything in it. It also removes objects
    /// that no path reaches, because it walks the directory entries. [`CompoundFile::remove_storage`] only removes an empty storage.
    ///
    /// # Errors
    ///
    /// These change nothing:
    ///
    /// - `InvalidInput`: the path leaves the root.
    /// - `NotFound`: nothing is at the path.
    /// - [`Error::Unsound`]: the file is inconsistent; [`CompoundFile::flaws`] tells why.
    /// - [`Error::Failed`]: an earlier change failed midway ([`CompoundFile::is_failed`]).
    ///
    /// After `Memory` or `Medium` the file is unchanged, or it has failed ([`CompoundFile::is_failed`]).
    pub fn remove_storage_all(&mut self, path: &str) -> Result<(), Error>
        ensures any { HeedsFlags self.old result self.new }
        ensures does { IsTrue F.tells → CallAnswers (λ f. F.read_faults f || F.write_faults f)
            self.old (remove_storage_all (chars path.now)) result self.new }
    {
        removing::remove_storage_all(&mut self.volume, path)
    }

    /// Removes the stream at this path and frees its sectors. Where its mini sectors stood the file has zeros. The file gets no shorter; a
    /// copy by [`CompoundFile::copy_to`] has no free sectors.
    ///
    /// # Errors
    ///
    /// These change nothing:
    ///
    /// - `InvalidInput`: the path leaves the root, or a storage is there ([`CompoundFile::remove_storage`]).
    /// - `NotFound`: nothing is at the path.
    /// - [`Error::Unsound`]: the file is inconsistent; [`CompoundFile::flaws`] tells why.
    /// - [`Error::Failed`]: an earlier change failed midway ([`CompoundFile::is_failed`]).
    ///
    /// After `Memory` or `Medium` the file is unchanged, or it has failed ([`CompoundFile::is_failed`]).
    pub fn remove_stream(&mut self, path: &str) -> Result<(), Error>
        ensures any { HeedsFlags self.old result self.new }
        ensures does { IsTrue F.tells → CallAnswers (λ f. F.read_faults f || F.write_faults f)
            self.old (remove_stream (chars path.now)) result self.new }
        ensures erased { IsTrue F.tells
            → OnOk result (ErasesStreamAt (chars path.now) self.old self.new) }
    {
        removing::remove_stream(&mut self.volume, path)
    }

    /// Sets the class ID of the storage at this path, or of the root (MS-CFB 2.6.1). [`Entry::clsid`] has it.
    ///
    /// # Errors
    ///
    /// These change nothing:
    ///
    /// - `InvalidInput`: the path leaves the root, or a stream is there.
    /// - `NotFound`: nothing is at the path.
    /// - [`Error::Unsound`]: the file is inconsistent; [`CompoundFile::flaws`] tells why. This holds even if the class ID would stay the
    ///   same.
    /// - `Memory`: out of memory.
    /// - [`Error::Failed`]: an earlier change failed midway ([`CompoundFile::is_failed`]).
    ///
    /// After `Medium` the file is unchanged, or it has failed ([`CompoundFile::is_failed`]).
    pub fn set_storage_clsid(&mut self, path: &str, clsid: Uuid) -> Result<(), Error>
        ensures any { HeedsFlags self.old result self.new }
        ensures does { IsTrue F.tells → CallAnswers (λ f. F.read_faults f || F.write_faults f)
            self.old (set_storage_clsid (chars path.now) clsid) result self.new }
    {
        set_field(&mut self.volume, path, NewField::ClassId(clsid))
    }

    /// Sets the state bits of the storage or stream at this path: a number that the program chooses (MS-CFB 2.6.1). [`Entry::state_bits`]
    /// has it.
    ///
    /// # Errors
    ///
    /// These change nothing:
    ///
    /// - `InvalidInput`: the path leaves the root.
    /// - `NotFound`: nothing is at the path.
    /// - [`Error::Unsound`]: the file is inconsistent; [`CompoundFile::flaws`] tells why. This holds even if the bits would stay the same.
    /// - `Memory`: out of memory.
    /// - [`Error::Failed`]: an earlier change failed midway ([`CompoundFile::is_failed`]).
    ///
    /// After `Medium` the file is unchanged, or it has failed ([`CompoundFile::is_failed`]).
    pub fn set_state_bits(&mut self, path: &str, bits: u32) -> Result<(), Error>
        ensures any { HeedsFlags self.old result self.new }
        ensures does { IsTrue F.tells → CallAnswers (λ f. F.read_faults f || F.write_faults f)
            self.old (set_state_bits (chars path.now) bits) result self.new }
    {
        set_field(&mut self.volume, path, NewField::StateBits(bits))
    }

    /// Sets the creation time of the storage at this path, or of the root. A stream has no timestamps and stays as it is (MS-CFB 2.6.1).
    /// [`Entry::created`] has it; [`Timestamp::from_unix`] makes a timestamp.
    ///
    /// # Errors
    ///
    /// As [`CompoundFile::set_state_bits`].
    pub fn set_created_time(&mut self, path: &str, moment: Timestamp) -> Result<(), Error>
        ensures any { HeedsFlags self.old result self.new }
        ensures does { IsTrue F.tells → CallAnswers (λ f. F.read_faults f || F.write_faults f)
            self.old (set_created_time (chars path.now) moment) result self.new }
    {
        set_field(&mut self.volume, path, NewField::CreatedTime(moment))
    }

    /// Sets the modification time of the storage at this path, or of the root. A stream has no timestamps and stays as it is (MS-CFB
    /// 2.6.1). [`Entry::modified`] has it; [`CompoundFile::touch`] leaves the root as it is.
    ///
    /// # Errors
    ///
    /// As [`CompoundFile::set_state_bits`].
    pub fn set_modified_time(&mut self, path: &str, moment: Timestamp) -> Result<(), Error>
        ensures any { HeedsFlags self.old result self.new }
        ensures does { IsTrue F.tells → CallAnswers (λ f. F.read_faults f || F.write_faults f)
            self.old (set_modified_time (chars path.now) moment) result self.new }
    {
        set_field(&mut self.volume, path, NewField::ModifiedTime(moment))
    }

    /// Sets the modification time of the storage at this path (MS-CFB 2.6.1). A stream and the root stay as they are;
    /// [`CompoundFile::set_modified_time`] also sets that of the root.
    ///
    /// # Errors
    ///
    /// As [`CompoundFile::set_state_bits`].
    pub fn touch(&mut self, path: &str, moment: Timestamp) -> Result<(), Error>
        ensures any { HeedsFlags self.old result self.new }
        ensures does { IsTrue F.tells → CallAnswers (λ f. F.read_faults f || F.write_faults f)
            self.old (touch (chars path.now) moment) result self.new }
    {
        set_field(&mut self.volume, path, NewField::TouchedTime(moment))
    }
}
