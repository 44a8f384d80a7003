//! Calls of readers and writers of std, tried again where a signal interrupted them, and the count of those that
//! failed.

ghost use Rattle.std.specs.Prelude.{◌≡◌, ℕ, ◌<◌, ◌≤◌, length, IfOk, is_err, if◌then◌else◌};
ghost use Rattle.std.specs.Io.KnownBytes.{Keeps, ReadConsumes, WriteAppends};
ghost use Rattle.raw_io.specs.Memory.{one_more};

use crate::Failed;
use std::io::{ErrorKind, Read, Write};

/// How often a call that a signal interrupted is tried.
const TRIES: u32 = 1 << 16;

/// Reads some bytes, and tells how many; 0 at the end. A call that a signal interrupted is tried again.
pub(crate) fn read_some<R: Read>(from: &mut R, into: &mut [u8]) -> Result<usize, Failed>
    ensures within { IfOk result (λ n. n ≤ length into.new) }
    ensures bytes { ReadConsumes (R.remaining from.old) (R.remaining from.new) result into.new }
{
    for _ in 0..TRIES {
        match from.read(into) {
            Ok(count) => return Ok(count),
            Err(e) if e.kind() == ErrorKind::Interrupted => {}
            Err(_) => return Err(Failed),
        }
    }
    Err(Failed)
}

/// Writes some bytes, and tells how many: at least one, if there are any. A call that a signal interrupted is tried
/// again.
pub(crate) fn write_some<W: Write>(to: &mut W, from: &[u8]) -> Result<usize, Failed>
    ensures within { IfOk result (λ n. n ≤ length from.now) }
    ensures progress { IfOk result (λ n. 0 < length from.now → 0 < n) }
    ensures bytes { WriteAppends (W.contents to.old) (W.contents to.new) result from.now }
{
    for _ in 0..TRIES {
        match to.write(from) {
            Ok(count) if count > 0 || from.is_empty() => return Ok(count),
            Err(e) if e.kind() == ErrorKind::Interrupted => {}
            _ => return Err(Failed),
        }
    }
    Err(Failed)
}

/// Flushes a writer. A call that a signal interrupted is tried again.
pub(crate) fn flush<W: Write>(to: &mut W) -> Result<(), Failed>
    ensures { Keeps (W.contents to.old) (W.contents to.new) }
{
    for _ in 0..TRIES {
        match to.flush() {
            Ok(()) => return Ok(()),
            Err(e) if e.kind() == ErrorKind::Interrupted => {}
            Err(_) => return Err(Failed),
        }
    }
    Err(Failed)
}

/// Counts a failed call.
pub(crate) fn counted<T>(faults: &mut u64, outcome: Result<T, Failed>) -> Result<T, Failed>
    ensures same { result ≡ outcome }
    ensures count { faults.new ≡ (if is_err outcome then one_more faults.old else faults.old) }
    ensures grows { faults.old ≤ faults.new }
{
    if outcome.is_err() {
        *faults = faults.saturating_add(1);
    }
    outcome
}
