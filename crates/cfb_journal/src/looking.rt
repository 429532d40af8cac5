//! A file that is read as recovery would leave it, while nothing is written: the journal beside it is
//! looked through in memory.
ghost use Rattle.std.specs.Prelude.{◌≡◌, ◌⊎◌, ◌+◌, ◌<◌, ◌≤◌, if◌then◌else◌, List, ℕ, length, None, Some, true, false, IsTrue, IfErr, IfOk, IsErrOf, MatchResult, OnOk};
ghost use Rattle.cfb_format.specs.Medium.{FailsBy, ReadsAt};
ghost use Rattle.cfb_journal.specs.Disk.{Image};
ghost use Rattle.cfb_journal.specs.Journal.{are_whole, is_damaged, recovered, IsForeign};
ghost use Rattle.cfb_journal.specs.Seen.{frames_behind as frames_in_journal, looked, seen_with};
ghost use Rattle.cfb_journal.specs.declared.recovery.RecoveryError.TheVariants.{Medium as OfMedium, Damaged, Foreign};

use crate::frames::{COUNT, FRAMES, LENGTH, STAMP, is_body, u64_at};
use crate::laying::lay_frames;
use crate::recovery::RecoveryError;
use crate::stamps::stamp_in;
use cfb_format::medium::{MediumFault, ReadMedium};

/// A file with its journal, read as `recover` would leave it: with a committed change, and without one that
/// is not committed. Neither of them is written. What the journal had is that of the moment when it was
/// handed in.
#[derive(Drop)]
pub struct Recovered<F: ReadMedium> {
    file: F,
    journal: Vec<u8>,
    /// How long the file is, as it is read.
    len: u64,
    /// How many frames of the journal belong over it.
    count: u64,
    ghost whole: { IsTrue (are_whole len count (frames_in_journal journal.items)) },
    ghost within: { IsTrue F.ReadMedium.tells → len ≤ length (F.ReadMedium.bytes file) },
}

impl<F: ReadMedium> Recovered<F> {
    /// This file beside a journal of these bytes; where there is no journal they are none.
    ///
    /// # Errors
    ///
    /// `Damaged` if the journal is none that a crash could have left; `Foreign` if it is of another file; `Medium` if the
    /// file does not tell its length or is not read.
    pub fn open(file: F, journal: Vec<u8>) -> Result<Recovered<F>, RecoveryError>
        ensures found { IsTrue F.tells → IfOk result (λ m. recovered (record { file = F.bytes file; journal = journal.items })
            ≡ Some (looked m.journal.items m.count m.len (F.bytes m.file))) }
        ensures damaged { IsTrue F.tells → IsErrOf result Damaged
            → recovered (record { file = F.bytes file; journal = journal.items }) ≡ None }
        ensures foreign { IsTrue F.tells → IsErrOf result Foreign
            → IsForeign (record { file = F.bytes file; journal = journal.items }) }
        ensures failed { IsTrue F.tells → (fault : _) → IsErrOf result (OfMedium fault) → IsTrue (F.read_faults fault) }
    {
        let mut file = file;
        let found = file.length()?;
        let kept = standing(&journal, found)?;
        let mut seen = Recovered {
            file,
            journal,
            len: kept.len,
            count: kept.count,
        };
        if !is_stamped(&mut seen, kept.stamp)? {
            return Err(RecoveryError::Foreign);
        }
        Ok(seen)
    }

    /// The file, which can tell why it failed.
    pub fn file(&self) -> &F
        ensures { result.now ≡ self.now.file }
    {
        &self.file
    }
}

/// What a journal says of the file beside it.
#[derive(Clone, Copy)]
struct Kept {
    /// How long the file is that they stand for.
    len: u64,
    /// How many frames of the journal belong over it.
    count: u64,
    /// The stamp that it has to have, if the journal counts.
    stamp: Option<u64>,
}

/// What this journal says of a file of this length.
fn standing(journal: &[u8], len: u64) -> Result<Kept, RecoveryError>
    ensures stands { (file : List ℕ) → len ≡ length file → MatchResult result
        (λ s. recovered (record { file = file; journal = journal.now }) ≡ seen_with s.stamp (looked journal.now s.count s.len file))
        (λ _. recovered (record { file = file; journal = journal.now }) ≡ None) }
    ensures no_longer { IfOk result (λ s. s.len ≤ len) }
    ensures whole { IfOk result (λ s. IsTrue (are_whole s.len s.count (frames_in_journal journal.now))) }
    ensures sound { OnOk result (is_damaged journal.now ≡ false) }
    ensures refused { IfErr result (λ e. (e ≡ Damaged) ⊎ ((e ≡ Foreign) × (is_damaged journal.now ≡ false))) }
{
    if journal.len() < 18 || journal[17] != 1 {
        return Ok(Kept {
            len,
            count: 0,
            stamp: None,
        });
    }
    if journal[16] == 1 {
        let body = &journal[18..];
        if !is_body(body) {
            return Err(RecoveryError::Damaged);
        }
        if u64_at(body, LENGTH) != len {
            return Err(RecoveryError::Foreign);
        }
        return Ok(Kept {
            len,
            count: u64_at(body, COUNT),
            stamp: Some(u64_at(body, STAMP)),
        });
    }
    let base = u64_at(journal, 0);
    if base > len {
        return Err(RecoveryError::Foreign);
    }
    Ok(Kept {
        len: base,
        count: 0,
        stamp: Some(u64_at(journal, 8)),
    })
}

/// Whether a file has the stamp that it has to have.
fn is_stamped<F: ReadMedium>(file: &mut F, stamp: Option<u64>) -> Result<bool, MediumFault>
    ensures same { IsTrue F.tells → F.bytes file.new ≡ F.bytes file.old }
    ensures seen { IsTrue F.tells → IfOk result (λ is. seen_with stamp (F.bytes file.old)
        ≡ (if is then Some (F.bytes file.old) else None)) }
    ensures failed { IsTrue F.tells → IfErr result (λ fault. IsTrue (F.read_faults fault)) }
{
    let Some(stamp) = stamp else {
        return Ok(true);
    };
    let len = file.length()?;
    Ok(stamp_in(file, len)? == stamp)
}

/// The frames of a journal, behind its gates and what stands before them.
fn frames_behind(journal: &[u8]) -> &[u8]
    ensures { result.now ≡ frames_in_journal journal.now }
{
    if journal.len() < 42 {
        return &[];
    }
    &journal[18..][FRAMES..]
}

/// How many bytes lie from `at` on, if no more are asked for.
fn room(len: u64, at: u64, asked: usize) -> usize
    ensures no_more { result ≤ asked }
    ensures inside { 0 < result → at + result ≤ len }
    ensures some { 0 < asked → at < len → 0 < result }
{
    if at >= len {
        return 0;
    }
    asked.min((len - at).min(usize::MAX as u64) as usize)
}

impl<F: ReadMedium> ReadMedium for Recovered<F> {
    ghost tells = { F.tells };

    ghost bytes = { λ m. looked m.journal.items m.count m.len (F.bytes m.file) };

    ghost failures = { λ m. F.failures m.file };

    ghost read_faults = { F.read_faults };

    fn length(&mut self) -> Result<u64, MediumFault> {
        Ok(self.len)
    }

    fn read_at(&mut self, at: u64, into: &mut [u8]) -> Result<usize, MediumFault> {
        let count = room(self.len, at, into.len());
        let read = self.file.read_at(at, &mut into[..count])?;
        lay_frames(
            &mut into[..read],
            at,
            self.len,
            self.count,
            frames_behind(&self.journal),
        );
        Ok(read)
    }
}
