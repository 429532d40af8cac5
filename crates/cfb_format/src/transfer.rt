//! Whole reads and writes, out of beginnings.
ghost use Rattle.std.specs.Prelude.{◌≡◌, ◌+◌, ◌^◌, ◌<◌, ◌≤◌, length, IsTrue, OnOk, IfErr};
ghost use Rattle.cfb_format.specs.Medium.{part, written, ChangesOnlyBytes, FailsBy};

use crate::medium::{Medium, MediumFault, ReadMedium};

/// Fills `into` with the bytes from byte `at` on, by as many reads as it takes. It answers the fault
/// of the first read that fails, `Stuck` where one serves no byte.
#[tactic(auto, using(crate::proofs::ByteLemmas::served_more))]
pub fn read_exact_at<F: ReadMedium>(
    medium: &mut F,
    at: u64,
    into: &mut [u8],
) -> Result<(), MediumFault>
    requires fits { at + length into.old < 2 ^ 64 }
    requires inside { IsTrue F.tells → at + length into.old ≤ length (F.bytes medium.old) }
    ensures same { IsTrue F.tells → F.bytes medium.new ≡ F.bytes medium.old }
    ensures ok { IsTrue F.tells
        → OnOk result (into.new ≡ part (F.bytes medium.old) at (length into.old)) }
    ensures calm { IsTrue F.tells → OnOk result (F.failures medium.new ≡ F.failures medium.old) }
    ensures err { IsTrue F.tells
        → IfErr result (FailsBy F.read_faults (F.failures medium.old) (F.failures medium.new)) }
{
    let mut done = 0;
    while done < into.len() {
        let count = medium.read_at(at + done as u64, &mut into[done..])?;
        if count == 0 {
            return Err(MediumFault::Stuck);
        }
        done += count;
    }
    Ok(())
}

/// Writes all of `from` at byte `at`, by as many writes as it takes. It answers the fault of the
/// first write that fails, `Stuck` where one takes no byte; bytes out of that range stay then too.
#[tactic(auto, using(crate::proofs::ByteLemmas::write_steps))]
pub fn write_all_at<F: Medium>(medium: &mut F, at: u64, from: &[u8]) -> Result<(), MediumFault>
    requires fits { at + length from.now < 2 ^ 64 }
    requires some { 0 < length from.now }
    ensures ok { IsTrue F.tells
        → OnOk result (F.bytes medium.new ≡ written (F.bytes medium.old) at from.now) }
    ensures others { IsTrue F.tells
        → ChangesOnlyBytes at (length from.now) (F.bytes medium.old) (F.bytes medium.new) }
    ensures calm { IsTrue F.tells → OnOk result (F.failures medium.new ≡ F.failures medium.old) }
    ensures err { IsTrue F.tells
        → IfErr result (FailsBy F.write_faults (F.failures medium.old) (F.failures medium.new)) }
{
    let mut done = 0;
    while done < from.len() {
        let count = medium.write_at(at + done as u64, &from[done..])?;
        if count == 0 {
            return Err(MediumFault::Stuck);
        }
        done += count;
    }
    Ok(())
}
