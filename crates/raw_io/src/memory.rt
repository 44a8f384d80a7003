//! Sources and sinks in memory, whose calls fail where they are told to.

ghost use Rattle.std.specs.Prelude.{◌≡◌, ℕ, ◌+◌, ◌^◌, ◌<◌, ◌≤◌, ◌||◌, nat_lt, min, List, [], ◌∷◌, ◌++◌, length, take};
ghost use Rattle.std.specs.Prelude.{drop, Some, IfOk, OnOk, OnErr, is_err};
ghost use Rattle.std.specs.Io.KnownBytes.{Consumes, IsAtEnd, Keeps};
ghost use Rattle.raw_io.specs.Outside.{Rises, Appends};
ghost use Rattle.raw_io.specs.Memory.{CallNumbers, called, next_fails, with_failing, no_calls, MemorySource};
ghost use Rattle.raw_io.specs.Memory.{source_after, source_failed, MemorySink, sink_after, sink_failed};

use crate::{Failed, Sink, Source};
use std::alloc::{AllocError, Global};
use std::marker::Model;

/// The calls made on an object, and the numbers of those that fail.
#[derive(Debug, Drop)]
pub(crate) struct Calls {
    made: u64,
    failing: Vec<u64>,
}

impl Model for Calls {
    ghost Value = { CallNumbers };

    ghost view = { λ c. record { made = c.made; failing = c.failing.items } };
}

impl Calls {
    /// No call was made, and none fails.
    pub(crate) fn new(alloc: Global) -> Self
        ensures { result ≡ no_calls }
    {
        Calls {
            made: 0,
            failing: Vec::new(alloc),
        }
    }

    /// Counts a call, and tells whether it is one that fails.
    pub(crate) fn begin(&mut self) -> bool
        ensures after { self.new ≡ called self.old }
        ensures fails { result ≡ next_fails self.old }
    {
        self.made = self.made.saturating_add(1);
        self.failing.contains(&self.made)
    }

    /// Lets the call of this number fail.
    pub(crate) fn fail_at(&mut self, call: u64) -> Result<(), AllocError>
        ensures added { OnOk result (self.new ≡ with_failing call self.old) }
        ensures refused { OnErr result (self.new ≡ self.old) }
    {
        self.failing.push(call)?;
        Ok(())
    }
}

/// A source in memory.
#[derive(Debug, Drop)]
pub struct MemSource {
    bytes: Vec<u8>,
    taken: usize,
    calls: Calls,
    faults: u64,
}

impl Model for MemSource {
    ghost Value = { MemorySource };

    ghost view = { λ s. record { left = drop s.taken s.bytes.items; calls = s.calls; faults = s.faults } };

    ghost invariant = { λ s. s.taken ≤ length s.bytes.items };
}

impl MemSource {
    /// A source that has these bytes left.
    ///
    /// # Errors
    ///
    /// `AllocError` where there is no memory.
    pub fn new(alloc: Global, bytes: &[u8]) -> Result<Self, AllocError>
        ensures { IfOk result (λ source. source ≡ record { left = bytes.now; calls = no_calls; faults = 0 }) }
    {
        Ok(MemSource {
            bytes: bytes.to_vec(alloc)?,
            taken: 0,
            calls: Calls::new(alloc),
            faults: 0,
        })
    }

    /// Lets the call of this number fail, counted from 1.
    ///
    /// # Errors
    ///
    /// `AllocError` where there is no memory; nothing has changed then.
    pub fn fail_at(&mut self, call: u64) -> Result<(), AllocError>
        ensures added { OnOk result (self.new ≡ record self.old { calls = with_failing call self.old.calls }) }
        ensures refused { OnErr result (self.new ≡ self.old) }
    {
        self.calls.fail_at(call)
    }
}

impl Source for MemSource {
    ghost left = { λ s. Some s.left };

    ghost faults = { λ s. s.faults };

    /// Takes as many bytes as there are left and `into` has room for.
    ///
    /// # Errors
    ///
    /// `Failed` where this read was told to fail.
    fn read(&mut self, into: &mut [u8]) -> Result<usize, Failed>
        ensures counts { self.old.faults ≤ self.new.faults }
        ensures within { IfOk result (λ n. n ≤ length into.old) }
        ensures taken { IfOk result (λ n. Consumes (Some self.old.left) (Some self.new.left) (take n into.new)) }
        ensures end { IfOk result (λ n. n ≡ 0 → 0 < length into.old → IsAtEnd (Some self.old.left)) }
        ensures kept { OnErr result (Keeps (Some self.old.left) (Some self.new.left)) }
        ensures failed { OnErr result (Rises self.old.faults self.new.faults) }
        ensures fails { is_err result ≡ next_fails self.old.calls }
        ensures read { IfOk result (λ n. (n ≡ min (length self.old.left) (length into.old))
            × (into.new ≡ take n self.old.left ++ drop n into.old)
            × (self.new ≡ source_after n self.old)) }
        ensures at_fault { OnErr result ((into.new ≡ into.old) × (self.new ≡ source_failed self.old)) }
    {
        if self.calls.begin() {
            self.faults = self.faults.saturating_add(1);
            return Err(Failed);
        }
        let count = copy_prefix(&self.bytes[self.taken..], into);
        self.taken += count;
        Ok(count)
    }
}

/// Copies as many bytes as both have, and answers how many.
pub(crate) fn copy_prefix(from: &[u8], into: &mut [u8]) -> usize
    ensures count { result ≡ min (length from.now) (length into.old) }
    ensures copied { into.new ≡ take result from.now ++ drop result into.old }
{
    let count = from.len().min(into.len());
    into[..count].copy_from_slice(&from[..count]);
    count
}

/// A sink in memory, which can hold a number of bytes that is told when it is made.
#[derive(Debug, Drop)]
pub struct MemSink {
    bytes: Vec<u8>,
    capacity: usize,
    calls: Calls,
    faults: u64,
}

impl Model for MemSink {
    ghost use Rattle.std.specs.Prelude.{◌≤◌, length, vec_capacity};
    ghost use Rattle.raw_io.specs.Memory.{MemorySink};

    ghost Value = { MemorySink };

    ghost view = { λ s. record { bytes = s.bytes.items; capacity = s.capacity; calls = s.calls; faults = s.faults } };

    ghost invariant = { λ s. (length s.bytes.items ≤ s.capacity) × (s.capacity ≤ vec_capacity s.bytes) };
}

impl MemSink {
    /// An empty sink, which takes the memory for so many bytes at once.
    ///
    /// # Errors
    ///
    /// `AllocError` where there is no memory.
    pub fn new(alloc: Global, capacity: usize) -> Result<Self, AllocError>
        ensures { IfOk result (λ sink.
            sink ≡ record { bytes = []; capacity = capacity; calls = no_calls; faults = 0 }) }
    {
        Ok(MemSink {
            bytes: Vec::with_capacity(alloc, capacity)?,
            capacity,
            calls: Calls::new(alloc),
            faults: 0,
        })
    }

    /// What was written.
    pub fn bytes(&self) -> &[u8]
        ensures { result.now ≡ self.now.bytes }
    {
        &self.bytes
    }

    /// Lets the call of this number fail, counted from 1.
    ///
    /// # Errors
    ///
    /// `AllocError` where there is no memory; nothing has changed then.
    pub fn fail_at(&mut self, call: u64) -> Result<(), AllocError>
        ensures added { OnOk result (self.new ≡ record self.old { calls = with_failing call self.old.calls }) }
        ensures refused { OnErr result (self.new ≡ self.old) }
    {
        self.calls.fail_at(call)
    }
}

impl Sink for MemSink {
    ghost stands_for = { λ s list. s.bytes ≡ list };

    ghost faults = { λ s. s.faults };

    /// Appends all of the bytes.
    ///
    /// # Errors
    ///
    /// `Failed` where this write was told to fail, and where the bytes would pass the capacity.
    fn write(&mut self, from: &[u8]) -> Result<usize, Failed>
        ensures counts { self.old.faults ≤ self.new.faults }
        ensures within { IfOk result (λ n. n ≤ length from.now) }
        ensures progress { IfOk result (λ n. 0 < length from.now → 0 < n) }
        ensures appended { IfOk result (λ n. Appends (λ s list. s.bytes ≡ list) self.old self.new (take n from.now)) }
        ensures kept { OnErr result ((list : List ℕ) → self.old.bytes ≡ list → self.new.bytes ≡ list) }
        ensures failed { OnErr result (Rises self.old.faults self.new.faults) }
        ensures fails { is_err result
            ≡ (next_fails self.old.calls || nat_lt self.old.capacity (length self.old.bytes + length from.now)) }
        ensures written { IfOk result (λ n. (n ≡ length from.now) × (self.new ≡ sink_after from.now self.old)) }
        ensures at_fault { OnErr result (self.new ≡ sink_failed self.old) }
    {
        if self.calls.begin() || from.len() > self.capacity - self.bytes.len() {
            self.faults = self.faults.saturating_add(1);
            return Err(Failed);
        }
        match self.bytes.extend_from_slice(from) {
            Ok(()) => Ok(from.len()),
            // The memory was taken at the start.
            Err(_) => unreachable!(),
        }
    }
}
