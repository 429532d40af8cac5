//! A medium in memory.
ghost use Rattle.std.specs.Prelude.{◌≡◌, ◌+◌, ◌-◌, ◌<◌, ◌≤◌, min, true, false, [], IsOk, IfOk, OnOk, OnErr, MatchResult, IsOkAnd, length};
ghost use Rattle.cfb_format.specs.Medium.{ReadsAt, WritesAt, FailsToWriteAt, written};
ghost use Rattle.cfb_format.specs.Memory.{is_refused_growth};

use crate::medium::{Medium, MediumFault, ReadMedium};
use std::alloc::{AllocError, Allocator, Global};
use std::fmt;
use std::marker::Model;

/// Bytes in memory that can grow. It fails only if memory is missing, and changes nothing then.
#[derive(Drop)]
pub struct MemoryMedium<A: Allocator = Global> {
    bytes: Vec<u8, A>,
    failures: u64,
}

impl<A: Allocator> Model for MemoryMedium<A> {
    ghost use Rattle.cfb_format.specs.Memory.{MemoryState};

    ghost Value = { MemoryState };

    ghost view = { λ m. record { bytes = m.bytes.items; failures = m.failures } };
}

impl<A: Allocator> MemoryMedium<A> {
    /// An empty medium.
    pub fn new(alloc: A) -> MemoryMedium<A>
        ensures { result ≡ record { bytes = []; failures = 0 } }
    {
        MemoryMedium {
            bytes: Vec::new(alloc),
            failures: 0,
        }
    }

    /// A medium with these bytes.
    pub fn from_bytes(bytes: Vec<u8, A>) -> MemoryMedium<A>
        ensures { result ≡ record { bytes = bytes.items; failures = 0 } }
    {
        MemoryMedium { bytes, failures: 0 }
    }

    /// The bytes.
    pub fn bytes(&self) -> &[u8]
        ensures { result.now ≡ self.now.bytes }
    {
        &self.bytes
    }

    /// Returns the bytes.
    pub fn into_bytes(self) -> Vec<u8, A>
        ensures { result.items ≡ self.bytes }
    {
        let MemoryMedium { bytes, failures: _ } = self;
        bytes
    }
}

/// Prints how many bytes there are, and not the bytes.
impl<A: Allocator> fmt::Debug for MemoryMedium<A> {
    fn fmt<W: fmt::Write>(&self, f: &mut fmt::Formatter<W>) -> fmt::Result {
        f.debug_struct("MemoryMedium")
            .field("length", &self.bytes.len())
            .field("failures", &self.failures)
            .finish()
    }
}

impl<A: Allocator> ReadMedium for MemoryMedium<A> {
    ghost tells = { true };

    ghost bytes = { λ m. m.bytes };

    ghost failures = { λ m. m.failures };

    ghost read_faults = { λ _. false };

    /// The number of bytes. Never refused.
    fn length(&mut self) -> Result<u64, MediumFault>
        ensures same { self.new ≡ self.old }
        ensures answer { IsOkAnd result (λ n. n ≡ length self.old.bytes) }
    {
        Ok(self.bytes.len() as u64)
    }

    /// All bytes from `at` on that `into` has room for. Never refused.
    fn read_at(&mut self, at: u64, into: &mut [u8]) -> Result<usize, MediumFault>
        ensures same { self.new ≡ self.old }
        ensures answer { IsOkAnd result (λ n. n
            ≡ min (length into.old) (length self.old.bytes - at)) }
        ensures honest { IfOk result (λ n.
            ReadsAt (λ _. false) self.old.bytes self.old.failures self.new.failures at into.new n) }
    {
        let len = self.bytes.len() as u64;
        if at >= len {
            return Ok(0);
        }
        let rest = &self.bytes[at as usize..];
        let count = into.len().min(rest.len());
        into[..count].copy_from_slice(&rest[..count]);
        Ok(count)
    }
}

impl<A: Allocator> Medium for MemoryMedium<A> {
    ghost write_faults = { is_refused_growth };

    /// Writes all of `from`. Refused only where the bytes must grow, and then they stay as before.
    fn write_at(&mut self, at: u64, from: &[u8]) -> Result<usize, MediumFault>
        ensures whole { IfOk result (λ n. n ≡ length from.now) }
        ensures room { OnErr result ((0 < length from.now)
            × (length self.old.bytes < at + length from.now)) }
        ensures refused { OnErr result (self.new.bytes ≡ self.old.bytes) }
        ensures honest { MatchResult result
            (WritesAt is_refused_growth self.old.bytes self.new.bytes
            self.old.failures self.new.failures at from.now) (FailsToWriteAt is_refused_growth
            self.old.bytes self.new.bytes self.old.failures self.new.failures at from.now) }
    {
        if from.is_empty() {
            return Ok(0);
        }
        if overwrite(&mut self.bytes, at, from).is_err() {
            self.failures = self.failures.saturating_add(1);
            return Err(MediumFault::Memory);
        }
        Ok(from.len())
    }

    /// Nothing is left to hand on. Never refused.
    fn flush(&mut self) -> Result<(), MediumFault>
        ensures same { self.new ≡ self.old }
        ensures answer { IsOk result }
    {
        Ok(())
    }
}

/// Writes all of `from`, or nothing where memory is refused.
fn overwrite<A: Allocator>(bytes: &mut Vec<u8, A>, at: u64, from: &[u8]) -> Result<(), AllocError>
    ensures ok { OnOk result (bytes.new.items ≡ written bytes.old.items at from.now) }
    ensures room { OnErr result (length bytes.old.items < at + length from.now) }
    ensures refused { OnErr result (bytes.new.items ≡ bytes.old.items) }
{
    let start = at as usize;
    let end = start.checked_add(from.len()).ok_or(AllocError)?;
    if start == bytes.as_slice().len() {
        bytes.extend_from_slice(from)?;
        return Ok(());
    }
    if end > bytes.len() {
        bytes.resize(end, 0)?;
    }
    put(bytes, start, from);
    Ok(())
}

#[tactic(auto, using(crate::proofs::ByteLemmas::put_mid_written))]
fn put(bytes: &mut [u8], start: usize, from: &[u8])
    requires { start + length from.now ≤ length bytes.old }
    ensures { bytes.new ≡ written bytes.old start from.now }
{
    bytes[start..start + from.len()].copy_from_slice(from);
}
