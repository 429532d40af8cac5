//! Words of a file that are read as others, and zeros behind its end.
ghost use Rattle.std.specs.Prelude.{◌≡◌, ◌≤◌, length, replicate, take, IsTrue, IfOk, MatchResult};
ghost use Rattle.cfb_format.specs.Medium.{FailsBy, ReadsAt};
ghost use Rattle.cfb_mending.specs.Mended.{byte_with, bytes_with, mended_from, padded};

use cfb_format::medium::{MediumFault, ReadMedium};
use std::alloc::{Allocator as Heap, Global};

/// Words that are read as another, one behind the other.
#[derive(Clone, Copy, Debug, PartialEq, Eq)]
pub struct Patch {
    /// Where the first of them begins.
    pub at: u64,
    /// Where the last of them ends.
    pub end: u64,
    /// What each is read as.
    pub word: u32,
}

impl Patch {
    /// The byte at that place, which is this one without the patch.
    fn byte_at(self, place: u64, byte: u8) -> u8
        ensures { result ≡ byte_with self place byte }
    {
        if self.at <= place && place < self.end {
            let word = self.word.to_le_bytes();
            return word[((place - self.at) % 4) as usize];
        }
        byte
    }

    /// Sets those of these bytes that it covers. The first of them stands at `place` in the file.
    fn set_in(self, place: u64, bytes: &mut [u8])
        ensures { bytes.new ≡ bytes_with self place bytes.old }
    {
        let last = place.saturating_add(bytes.len() as u64);
        if self.end <= place || last <= self.at {
            return;
        }
        for index in 0..bytes.len() {
            // No place past the greatest number is covered.
            let here = place.saturating_add(index as u64);
            bytes[index] = self.byte_at(here, bytes[index]);
        }
    }
}

/// Sets those of these bytes that some patch covers, the later one where two do.
fn set_all(patches: &[Patch], place: u64, bytes: &mut [u8])
    ensures { bytes.new ≡ mended_from patches.now place bytes.old }
{
    for patch in patches {
        patch.set_in(place, bytes);
    }
}

/// Zeros the first bytes, so many of them.
fn zero_first(into: &mut [u8], count: usize)
    requires { count ≤ length into.old }
    ensures len { length into.new ≡ length into.old }
    ensures zeros { take count into.new ≡ replicate count 0 }
{
    into[..count].fill(0);
}

/// Reads, and where the medium ends before `least` gives zeros up to there.
fn read_padded<F: ReadMedium>(
    medium: &mut F,
    least: u64,
    at: u64,
    into: &mut [u8],
) -> Result<usize, MediumFault>
    ensures bound { IfOk result (λ n. n ≤ length into.new) }
    ensures same { IsTrue F.tells → F.bytes medium.new ≡ F.bytes medium.old }
    ensures honest { IsTrue F.tells → MatchResult result
        (ReadsAt F.read_faults (padded least (F.bytes medium.old)) (F.failures medium.old)
        (F.failures medium.new) at into.new)
        (FailsBy F.read_faults (F.failures medium.old) (F.failures medium.new)) }
{
    let count = medium.read_at(at, into)?;
    if 0 < count || least <= at {
        return Ok(count);
    }
    // Nothing was read: is this the end, or a failure?
    if at < medium.length()? {
        return Ok(0);
    }
    let count = (least - at).min(into.len() as u64) as usize;
    zero_first(into, count);
    Ok(count)
}

/// A medium some of whose words are read as others, and which goes on in zeros.
#[derive(Drop)]
pub struct Mended<F: ReadMedium, A: Heap = Global> {
    /// The medium below.
    pub medium: F,
    /// What is read otherwise.
    pub patches: Vec<Patch, A>,
    /// How many bytes it has at least: those behind the end of the one below are zeros, or what is read otherwise.
    pub least: u64,
    /// How many links of objects lead to none: each of them to an object at least that is lost.
    pub lost: usize,
}

impl<F: ReadMedium, A: Heap> ReadMedium for Mended<F, A> {
    ghost use Rattle.cfb_mending.specs.Mended.{mended};

    ghost tells = { F.tells };

    ghost bytes = { λ m. mended m.patches.items m.least (F.bytes m.medium) };

    ghost failures = { λ m. F.failures m.medium };

    ghost read_faults = { F.read_faults };

    fn length(&mut self) -> Result<u64, MediumFault> {
        Ok(self.medium.length()?.max(self.least))
    }

    fn read_at(&mut self, at: u64, into: &mut [u8]) -> Result<usize, MediumFault> {
        let count = read_padded(&mut self.medium, self.least, at, into)?;
        set_all(&self.patches, at, &mut into[..count]);
        Ok(count)
    }
}
