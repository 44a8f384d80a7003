//! Stamps of planes.

ghost use Rattle.std.specs.Prelude.{◌≡◌, ℕ, ◌+◌, ◌<◌, ◌≤◌, ◌^◌, length, slice_get, Some, IfOk};
ghost use Rattle.std.specs.List.{All};
ghost use Rattle.stage_deps.specs.Stamping.{begun, changed, stamped_from};

use std::alloc::{AllocError, Global};
use std::marker::Model;

/// The stamp of each plane: the number, counted from 1, of the last change of it or of a plane below it, or 0.
/// Contracts see the stamps and the number of changes.
#[derive(Drop)]
pub struct Stamps {
    stamps: Vec<u64>,
    changes: u64,
}

impl Model for Stamps {
    ghost use Rattle.std.specs.Prelude.{◌≤◌};
    ghost use Rattle.std.specs.List.{All};
    ghost use Rattle.stage_deps.specs.Stamping.{Stamped};

    ghost Value = { Stamped };

    ghost view = { λ s. record { stamps = s.stamps.items; changes = s.changes } };

    ghost invariant = { λ s. All (λ stamp. stamp ≤ s.changes) s.stamps.items };
}

impl Stamps {
    /// The planes 0 to `stages`, none of which was changed.
    ///
    /// # Errors
    ///
    /// Where there is no memory.
    pub fn new(alloc: Global, stages: u32) -> Result<Stamps, AllocError>
        ensures { IfOk result (λ stamps. stamps ≡ begun stages) }
    {
        let stamps = vec![in alloc; 0u64; stages as usize + 1]?;
        Ok(Stamps { stamps, changes: 0 })
    }

    /// The stamp of plane `k`.
    pub fn now(&self, k: u32) -> u64
        requires { k < length self.now.stamps }
        ensures stamp { slice_get self.now.stamps k ≡ Some result }
        ensures within { result ≤ self.now.changes }
    {
        self.stamps[k as usize]
    }

    /// One change more, of plane `first`: it and the planes above it get the number of this change as their stamp.
    pub fn change(&mut self, first: u32)
        requires some { 1 ≤ first }
        requires plane { first < length self.old.stamps }
        requires few { self.old.changes < 2 ^ 40 }
        ensures { self.new ≡ changed first self.old }
    {
        self.changes += 1;
        stamp_from(&mut self.stamps, first as usize, self.changes);
    }

    /// How many changes there were.
    pub fn changes(&self) -> u64
        ensures changes { result ≡ self.now.changes }
        ensures within { All (λ stamp. stamp ≤ result) self.now.stamps }
    {
        self.changes
    }
}

/// Gives the planes from one on a stamp.
fn stamp_from(stamps: &mut [u64], first: usize, stamp: u64)
    requires { first ≤ length stamps.old }
    ensures { stamps.new ≡ stamped_from first stamp stamps.old }
{
    stamps[first..].fill(stamp);
}
