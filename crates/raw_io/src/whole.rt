//! Whole reads and writes, over many calls of the outside.

ghost use Rattle.std.specs.Prelude.{◌≡◌, ℕ, ◌+◌, ◌^◌, ◌<◌, ◌≤◌, List, [], length, take, Some, vec_len};
ghost use Rattle.std.specs.Prelude.{IfOk, IfErr, OnOk, OnErr, IfSome, IsErrOf};
ghost use Rattle.std.specs.Io.KnownBytes.{Consumes};
ghost use Rattle.raw_io.specs.Outside.{Rises, SameCounts, TakesAtMost, Appends};

use crate::{Failed, Files, Sink, Source};
use std::alloc::{AllocError, Global};
use std::error::Error;
use std::fmt;

/// How many bytes one call is asked for at most.
const BUFFER: usize = 1 << 18;

/// Why a whole read ended early.
#[derive(Clone, Copy, Debug, PartialEq, Eq)]
pub enum ReadFault {
    /// A read failed.
    Failed,
    /// More bytes stand there than the limit allows.
    TooLong,
    /// There is no memory for them.
    Memory,
}

impl fmt::Display for ReadFault {
    fn fmt<W: fmt::Write>(&self, f: &mut fmt::Formatter<W>) -> fmt::Result {
        match self {
            ReadFault::Failed => write!(f, "a read failed"),
            ReadFault::TooLong => write!(f, "more bytes than the limit allows"),
            ReadFault::Memory => write!(f, "out of memory"),
        }
    }
}

impl Error for ReadFault {}

impl From<Failed> for ReadFault {
    ghost use Rattle.raw_io.specs.declared.whole.ReadFault.TheVariants.{Failed as failed};

    ghost from_gives = { λ _ e. e ≡ failed };

    fn from(_: Failed) -> Self {
        ReadFault::Failed
    }
}

impl From<AllocError> for ReadFault {
    ghost use Rattle.raw_io.specs.declared.whole.ReadFault.TheVariants.{Memory};

    ghost from_gives = { λ _ e. e ≡ Memory };

    fn from(_: AllocError) -> Self {
        ReadFault::Memory
    }
}

/// A write that failed after some bytes.
#[derive(Clone, Copy, Debug, PartialEq, Eq)]
pub struct WriteFault {
    /// How many bytes were written before.
    pub written: u64,
}

impl fmt::Display for WriteFault {
    fn fmt<W: fmt::Write>(&self, f: &mut fmt::Formatter<W>) -> fmt::Result {
        let written = self.written;
        write!(f, "a write failed after {written} bytes")
    }
}

impl Error for WriteFault {}

impl WriteFault {
    fn after(written: usize) -> Self
        ensures { result ≡ record { written = written } }
    {
        WriteFault {
            written: written as u64,
        }
    }
}

/// The whole contents under a name, of at most `limit` bytes. A read has failed only at the answer `Failed`.
///
/// # Errors
///
/// `Failed` where a read failed, `TooLong` where there are more bytes than `limit`, `Memory` where there is no memory
/// for them.
pub fn read_all<F: Files>(
    alloc: Global,
    files: &mut F,
    name: &str,
    limit: u64,
) -> Result<Vec<u8>, ReadFault>
    ensures contents { (other : List ℕ) → F.told files.new other ≡ F.told files.old other }
    ensures counts { (other : List ℕ) → F.faults files.old other ≤ F.faults files.new other }
    ensures no_fault { OnOk result (SameCounts (F.faults files.old) (F.faults files.new)) }
    ensures within { IfOk result (λ bytes. vec_len bytes ≤ limit) }
    ensures whole { IfOk result (λ bytes. IfSome (F.told files.old name.now) (λ contents. bytes.items ≡ contents)) }
    ensures too_long { IsErrOf result ReadFault.TooLong
        → IfSome (F.told files.old name.now) (λ contents. limit < length contents) }
    ensures too_long_no_fault { IsErrOf result ReadFault.TooLong
        → SameCounts (F.faults files.old) (F.faults files.new) }
    ensures memory_no_fault { IsErrOf result ReadFault.Memory → SameCounts (F.faults files.old) (F.faults files.new) }
    ensures failed { IsErrOf result ReadFault.Failed
        → Rises (F.faults files.old name.now) (F.faults files.new name.now) }
{
    let mut buffer = working_buffer(alloc, limit)?;
    let mut whole = Vec::new(alloc);
    read_into(files, name, limit, &mut buffer, &mut whole)?;
    Ok(whole)
}

/// Takes the bytes of a source into an empty vector, until its end, a failed read or one byte past the limit. A read
/// has failed only at the answer `Failed`.
///
/// # Errors
///
/// `Failed` where a read failed, `TooLong` where there are more bytes than `limit`: what was taken before stands in
/// `into`. `Memory` where there is no memory for them.
pub fn read_source<C: Source>(
    source: &mut C,
    into: &mut Vec<u8>,
    limit: u64,
) -> Result<(), ReadFault>
    requires empty { into.old.items ≡ [] }
    requires small { limit < 2 ^ 60 }
    ensures counts { C.faults source.old ≤ C.faults source.new }
    ensures no_fault { OnOk result (C.faults source.new ≡ C.faults source.old) }
    ensures taken { OnOk result (Consumes (C.left source.old) (C.left source.new) into.new.items) }
    ensures within { OnOk result (vec_len into.new ≤ limit) }
    ensures end { OnOk result (IfSome (C.left source.old) (λ _. C.left source.new ≡ Some [])) }
    ensures too_long { IsErrOf result ReadFault.TooLong
        → Consumes (C.left source.old) (C.left source.new) into.new.items × (vec_len into.new ≡ limit + 1) }
    ensures too_long_no_fault { IsErrOf result ReadFault.TooLong → C.faults source.new ≡ C.faults source.old }
    ensures memory_no_fault { IsErrOf result ReadFault.Memory → C.faults source.new ≡ C.faults source.old }
    ensures failed { IsErrOf result ReadFault.Failed
        → Consumes (C.left source.old) (C.left source.new) into.new.items × (vec_len into.new ≤ limit) }
    ensures rises { IsErrOf result ReadFault.Failed → Rises (C.faults source.old) (C.faults source.new) }
    ensures memory { IsErrOf result ReadFault.Memory
        → TakesAtMost (limit + 1) (C.left source.old) (C.left source.new) }
{
    let mut buffer = working_buffer(*into.allocator(), limit)?;
    take_into(source, limit, &mut buffer, into)
}

/// Reads the contents into an empty vector, a buffer at a time.
fn read_into<F: Files>(
    files: &mut F,
    name: &str,
    limit: u64,
    buffer: &mut [u8],
    whole: &mut Vec<u8>,
) -> Result<(), ReadFault>
    requires some { 0 < length buffer.old }
    requires empty { whole.old.items ≡ [] }
    ensures contents { (other : List ℕ) → F.told files.new other ≡ F.told files.old other }
    ensures counts { (other : List ℕ) → F.faults files.old other ≤ F.faults files.new other }
    ensures no_fault { OnOk result (SameCounts (F.faults files.old) (F.faults files.new)) }
    ensures within { OnOk result (vec_len whole.new ≤ limit) }
    ensures whole { OnOk result (IfSome (F.told files.old name.now) (λ contents. whole.new.items ≡ contents)) }
    ensures too_long { IsErrOf result ReadFault.TooLong
        → IfSome (F.told files.old name.now) (λ contents. limit < length contents) }
    ensures too_long_no_fault { IsErrOf result ReadFault.TooLong
        → SameCounts (F.faults files.old) (F.faults files.new) }
    ensures memory_no_fault { IsErrOf result ReadFault.Memory → SameCounts (F.faults files.old) (F.faults files.new) }
    ensures failed { IsErrOf result ReadFault.Failed
        → Rises (F.faults files.old name.now) (F.faults files.new name.now) }
{
    loop {
        let room = limit - whole.len() as u64;
        let most = piece_len(room, buffer.len());
        let asked = &mut buffer[..most];
        let count = files.read(name, whole.len() as u64, asked)?;
        if count == 0 {
            return Ok(());
        }
        if count as u64 > room {
            return Err(ReadFault::TooLong);
        }
        whole.extend_from_slice(&asked[..count])?;
    }
}

/// Takes the bytes of a source into an empty vector, a buffer at a time.
fn take_into<C: Source>(
    source: &mut C,
    limit: u64,
    buffer: &mut [u8],
    into: &mut Vec<u8>,
) -> Result<(), ReadFault>
    requires some { 0 < length buffer.old }
    requires empty { into.old.items ≡ [] }
    requires small { limit < 2 ^ 60 }
    ensures counts { C.faults source.old ≤ C.faults source.new }
    ensures no_fault { OnOk result (C.faults source.new ≡ C.faults source.old) }
    ensures taken { OnOk result (Consumes (C.left source.old) (C.left source.new) into.new.items) }
    ensures within { OnOk result (vec_len into.new ≤ limit) }
    ensures end { OnOk result (IfSome (C.left source.old) (λ _. C.left source.new ≡ Some [])) }
    ensures too_long { IsErrOf result ReadFault.TooLong
        → Consumes (C.left source.old) (C.left source.new) into.new.items × (vec_len into.new ≡ limit + 1) }
    ensures too_long_no_fault { IsErrOf result ReadFault.TooLong → C.faults source.new ≡ C.faults source.old }
    ensures memory_no_fault { IsErrOf result ReadFault.Memory → C.faults source.new ≡ C.faults source.old }
    ensures failed { IsErrOf result ReadFault.Failed
        → Consumes (C.left source.old) (C.left source.new) into.new.items × (vec_len into.new ≤ limit) }
    ensures rises { IsErrOf result ReadFault.Failed → Rises (C.faults source.old) (C.faults source.new) }
    ensures memory { IsErrOf result ReadFault.Memory
        → TakesAtMost (limit + 1) (C.left source.old) (C.left source.new) }
{
    loop {
        let most = piece_len(limit - into.len() as u64, buffer.len());
        let asked = &mut buffer[..most];
        let count = source.read(asked)?;
        if count == 0 {
            return Ok(());
        }
        into.extend_from_slice(&asked[..count])?;
        if into.len() as u64 > limit {
            return Err(ReadFault::TooLong);
        }
    }
}

/// A buffer for reads of up to `limit` bytes: as long as the largest piece that they ask for.
fn working_buffer(alloc: Global, limit: u64) -> Result<Vec<u8>, AllocError>
    ensures { IfOk result (λ buffer. 0 < vec_len buffer) }
{
    vec![in alloc; 0u8; piece_len(limit, BUFFER)]
}

/// How many bytes to ask for at once, where `room` are allowed: enough to see that there are more.
fn piece_len(room: u64, most: usize) -> usize
    requires { 0 < most }
    ensures some { 0 < result }
    ensures at_most { result ≤ room + 1 }
    ensures within { result ≤ most }
{
    if room < most as u64 {
        room as usize + 1
    } else {
        most
    }
}

/// Writes all of the bytes.
///
/// # Errors
///
/// `WriteFault` where a write failed, with the number of bytes that were written before it.
pub fn write_all<O: Sink>(sink: &mut O, bytes: &[u8]) -> Result<(), WriteFault>
    ensures counts { O.faults sink.old ≤ O.faults sink.new }
    ensures no_fault { OnOk result (O.faults sink.new ≡ O.faults sink.old) }
    ensures appended { OnOk result (Appends O.stands_for sink.old sink.new bytes.now) }
    ensures within { IfErr result (λ fault. fault.written < length bytes.now) }
    ensures written { IfErr result (λ fault. Appends O.stands_for sink.old sink.new (take fault.written bytes.now)) }
    ensures failed { OnErr result (Rises (O.faults sink.old) (O.faults sink.new)) }
{
    let mut written = 0;
    while written < bytes.len() {
        match sink.write(&bytes[written..]) {
            Ok(count) => written += count,
            Err(Failed) => return Err(WriteFault::after(written)),
        }
    }
    Ok(())
}
