//! What files, sources and sinks are, by what their calls promise.

ghost use Rattle.std.specs.Prelude.{◌≡◌, ℕ, ◌<◌, ◌≤◌, List, length, take, Option, IfOk, OnOk, OnErr, IfSome};
ghost use Rattle.std.specs.Io.KnownBytes.{Consumes, IsAtEnd, Keeps};
ghost use Rattle.raw_io.specs.Outside.{Rises, SameCounts, ReadsAt, Appends};

use std::error::Error;
use std::fmt;

/// The one answer of an outside call that failed.
#[derive(Clone, Copy, Debug, PartialEq, Eq)]
pub struct Failed;

impl fmt::Display for Failed {
    fn fmt<W: fmt::Write>(&self, f: &mut fmt::Formatter<W>) -> fmt::Result {
        write!(f, "a read or a write failed")
    }
}

impl Error for Failed {}

/// Files by name, which are read from an offset.
pub trait Files {
    /// The contents under a name, where they are told.
    ghost told: { Self → List ℕ → Option (List ℕ) };

    /// How often a read of a name has failed. Several names may share one count. A read that went well leaves each.
    ghost faults: { Self → List ℕ → ℕ };

    /// Reads from an offset into the beginning of `into`, and answers how many bytes; 0 for a slice that isn't empty
    /// only at the end of the contents.
    ///
    /// # Errors
    ///
    /// `Failed` where the file couldn't be read. The fault is counted for the name.
    fn read(&mut self, name: &str, at: u64, into: &mut [u8]) -> Result<usize, Failed>
        ensures contents { (other : List ℕ) → told self.new other ≡ told self.old other }
        ensures counts { (other : List ℕ) → faults self.old other ≤ faults self.new other }
        ensures no_fault { OnOk result (SameCounts (faults self.old) (faults self.new)) }
        ensures within { IfOk result (λ n. n ≤ length into.old) }
        ensures bytes { IfOk result (λ n. IfSome (told self.old name.now) (λ bytes. ReadsAt bytes at into.new n)) }
        ensures failed { OnErr result (Rises (faults self.old name.now) (faults self.new name.now)) };
}

/// Bytes that are read once, in order.
pub trait Source {
    /// The bytes that are left, where they are told.
    ghost left: { Self → Option (List ℕ) };

    /// How often a read has failed. A read that went well leaves it.
    ghost faults: { Self → ℕ };

    /// Takes a prefix of them into the beginning of `into`, and answers its length; 0 for a slice that isn't empty only
    /// where none are left.
    ///
    /// # Errors
    ///
    /// `Failed` where nothing could be read. Nothing was taken then, and the fault is counted.
    fn read(&mut self, into: &mut [u8]) -> Result<usize, Failed>
        ensures counts { faults self.old ≤ faults self.new }
        ensures no_fault { OnOk result (faults self.new ≡ faults self.old) }
        ensures within { IfOk result (λ n. n ≤ length into.old) }
        ensures taken { IfOk result (λ n. Consumes (left self.old) (left self.new) (take n into.new)) }
        ensures end { IfOk result (λ n. n ≡ 0 → 0 < length into.old → IsAtEnd (left self.old)) }
        ensures kept { OnErr result (Keeps (left self.old) (left self.new)) }
        ensures failed { OnErr result (Rises (faults self.old) (faults self.new)) };
}

/// What bytes are written to.
pub trait Sink {
    /// The sink stands for this list of bytes. It may stand for none or for several, and so tell nothing.
    ghost stands_for: { Self → List ℕ → Type 0 };

    /// How often a write has failed. A write that went well leaves it.
    ghost faults: { Self → ℕ };

    /// Appends a prefix of `from`, and answers its length; not 0 for a slice that isn't empty.
    ///
    /// # Errors
    ///
    /// `Failed` where nothing could be written. Nothing was appended then, and the fault is counted.
    fn write(&mut self, from: &[u8]) -> Result<usize, Failed>
        ensures counts { faults self.old ≤ faults self.new }
        ensures no_fault { OnOk result (faults self.new ≡ faults self.old) }
        ensures within { IfOk result (λ n. n ≤ length from.now) }
        ensures progress { IfOk result (λ n. 0 < length from.now → 0 < n) }
        ensures appended { IfOk result (λ n. Appends stands_for self.old self.new (take n from.now)) }
        ensures kept { OnErr result ((list : List ℕ) → stands_for self.old list → stands_for self.new list) }
        ensures failed { OnErr result (Rises (faults self.old) (faults self.new)) };
}
