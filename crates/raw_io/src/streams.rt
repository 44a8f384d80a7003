//! A source over a reader of std, and a sink over a writer. They tell what these tell of their bytes.

ghost use Rattle.std.specs.Prelude.{◌≡◌, ℕ, ◌<◌, ◌≤◌, false, is_err, if◌then◌else◌};
ghost use Rattle.std.specs.Prelude.{List, length, take, Some, IfOk, IsOk, OnErr};
ghost use Rattle.std.specs.Io.KnownBytes.{Consumes, IsAtEnd, Keeps, WriteAppends};
ghost use Rattle.raw_io.specs.Outside.{Appends};
ghost use Rattle.raw_io.specs.Memory.{one_more};
ghost use Rattle.raw_io.specs.Streams.{ReaderSource, WriterSink};

use crate::tried::{counted, flush, read_some, write_some};
use crate::{Failed, Sink, Source};
use std::io::{Read, Write};
use std::marker::Model;

/// A source over a reader, as standard input. It tells what the reader tells: nothing over the machine's own streams,
/// and all over bytes in memory.
#[derive(Drop)]
pub struct StdSource<R: Read> {
    input: R,
    faults: u64,
}

impl<R: Read> Model for StdSource<R> {
    ghost Value = { ReaderSource };

    ghost view = { λ s. record { left = R.remaining s.input; faults = s.faults } };
}

impl<R: Read> StdSource<R> {
    /// What this reader gives. It is read directly, with no bytes held back.
    pub fn new(input: R) -> Self
        ensures { result ≡ record { left = R.remaining input; faults = 0 } }
    {
        StdSource { input, faults: 0 }
    }
}

impl<R: Read> Source for StdSource<R> {
    ghost left = { λ s. s.left };

    ghost faults = { λ s. s.faults };

    fn read(&mut self, into: &mut [u8]) -> Result<usize, Failed>
        ensures counts { self.old.faults ≤ self.new.faults }
        ensures within { IfOk result (λ n. n ≤ length into.old) }
        ensures taken { IfOk result (λ n. Consumes self.old.left self.new.left (take n into.new)) }
        ensures end { IfOk result (λ n. n ≡ 0 → 0 < length into.old → IsAtEnd self.old.left) }
        ensures kept { OnErr result (Keeps self.old.left self.new.left) }
        ensures count { self.new.faults ≡ (if is_err result then one_more self.old.faults else self.old.faults) }
    {
        let outcome = read_some(&mut self.input, into);
        counted(&mut self.faults, outcome)
    }
}

/// A sink over a writer, as standard output. It tells what the writer tells: nothing over the machine's own streams,
/// and all over a vector.
///
/// Each write is flushed, so that no byte waits for the end. Bytes that the writer took stay taken where the flush
/// after them fails. So that write is still answered with their number, and the flush is tried again at the next call,
/// which fails if it fails again.
#[derive(Drop)]
pub struct StdSink<W: Write> {
    output: W,
    unflushed: bool,
    faults: u64,
}

impl<W: Write> Model for StdSink<W> {
    ghost Value = { WriterSink };

    ghost view = { λ s. record { held = W.contents s.output; waits = s.unflushed; faults = s.faults } };
}

impl<W: Write> StdSink<W> {
    /// What this writer takes.
    pub fn new(output: W) -> Self
        ensures { result ≡ record { held = W.contents output; waits = false; faults = 0 } }
    {
        StdSink {
            output,
            unflushed: false,
            faults: 0,
        }
    }

    /// Flushes what a failed flush has left. After the last write this tells whether all bytes went out.
    ///
    /// # Errors
    ///
    /// `Failed` where the flush fails again.
    pub fn flush(&mut self) -> Result<(), Failed>
        ensures kept { Keeps self.old.held self.new.held }
        ensures waits { is_err result ≡ self.new.waits }
        ensures nothing_waits { self.old.waits ≡ false → IsOk result }
        ensures count { self.new.faults ≡ (if is_err result then one_more self.old.faults else self.old.faults) }
    {
        let outcome = flush_rest(&mut self.output, &mut self.unflushed);
        counted(&mut self.faults, outcome)
    }
}

impl<W: Write> Sink for StdSink<W> {
    ghost stands_for = { λ s list. s.held ≡ Some list };

    ghost faults = { λ s. s.faults };

    fn write(&mut self, from: &[u8]) -> Result<usize, Failed>
        ensures counts { self.old.faults ≤ self.new.faults }
        ensures within { IfOk result (λ n. n ≤ length from.now) }
        ensures progress { IfOk result (λ n. 0 < length from.now → 0 < n) }
        ensures appended { IfOk result (λ n.
            Appends (λ s list. s.held ≡ Some list) self.old self.new (take n from.now)) }
        ensures kept { OnErr result ((list : List ℕ) → self.old.held ≡ Some list → self.new.held ≡ Some list) }
        ensures count { self.new.faults ≡ (if is_err result then one_more self.old.faults else self.old.faults) }
    {
        let outcome = write_flushed(&mut self.output, &mut self.unflushed, from);
        counted(&mut self.faults, outcome)
    }
}

fn flush_rest<W: Write>(to: &mut W, unflushed: &mut bool) -> Result<(), Failed>
    ensures kept { Keeps (W.contents to.old) (W.contents to.new) }
    ensures waits { is_err result ≡ unflushed.new }
    ensures nothing_waits { unflushed.old ≡ false → IsOk result }
{
    if *unflushed {
        flush(to)?;
        *unflushed = false;
    }
    Ok(())
}

fn write_flushed<W: Write>(to: &mut W, unflushed: &mut bool, from: &[u8]) -> Result<usize, Failed>
    ensures within { IfOk result (λ n. n ≤ length from.now) }
    ensures progress { IfOk result (λ n. 0 < length from.now → 0 < n) }
    ensures bytes { WriteAppends (W.contents to.old) (W.contents to.new) result from.now }
{
    flush_rest(to, unflushed)?;
    let count = write_some(to, from)?;
    *unflushed = flush(to).is_err();
    Ok(count)
}
