//! What a window does with numbers and lists of bytes.
ghost use Rattle.std.specs.Prelude.{◌≡◌, ◌+◌, ◌≤◌, ◌==◌, min, OnOk, OnErr, IfErr, IfSome, length, take, drop};
ghost use Rattle.cfb_format.specs.Refused.{IsMemory, number_of};
ghost use Rattle.cfb_stream_window.specs.Windows.{place_at_distance};

use cfb_format::error::Error;
use std::alloc::Allocator;

/// Copies a beginning of `from`, and says how much.
pub fn copy_out(from: &[u8], into: &mut [u8]) -> usize
    ensures count { result ≡ min (length into.old) (length from.now) }
    ensures bytes { take result into.new ≡ take result from.now }
    ensures rest { drop result into.new ≡ drop result into.old }
{
    let count = into.len().min(from.len());
    into[..count].copy_from_slice(&from[..count]);
    count
}

/// A place at a distance, neither before the start nor past the end.
pub fn place_at(start: u64, distance: i64, len: u64) -> Option<u64>
    requires { start ≤ len }
    ensures value { result ≡ place_at_distance start distance len }
    ensures inside { IfSome result (λ at. at ≤ len) }
{
    if distance == i64::MIN {
        return None;
    }
    let step = distance.unsigned_abs();
    if distance < 0 {
        if step <= start {
            Some(start - step)
        } else {
            None
        }
    } else if step <= len - start {
        Some(start + step)
    } else {
        None
    }
}

/// Whether the medium failed.
pub fn is_fault(e: &Error) -> bool
    ensures { result ≡ (number_of e.now == 5) }
{
    matches!(e, Error::Medium(_))
}

/// Makes `into` longer, or leaves it.
pub fn make_space<A: Allocator>(into: &mut Vec<u8, A>, more: usize) -> Result<(), Error>
    ensures ok { OnOk result (length into.new.items ≡ length into.old.items + more) }
    ensures before { OnOk result (take (length into.old.items) into.new.items ≡ into.old.items) }
    ensures refused { OnErr result (into.new.items ≡ into.old.items) }
    ensures memory { IfErr result IsMemory }
{
    let Some(total) = into.len().checked_add(more) else {
        return Err(Error::Memory);
    };
    if into.resize(total, 0).is_err() {
        return Err(Error::Memory);
    }
    Ok(())
}
