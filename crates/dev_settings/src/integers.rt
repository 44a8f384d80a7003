//! A short list of integers.

ghost use Rattle.std.specs.Prelude.{◌≡◌, ◌+◌, ◌≤◌, ◌<◌, ◌↔◌, ◌∷◌, [], ◌++◌, length, IsTrue};

use std::marker::Model;

/// The most integers that a value of a setting has.
const MAX_INTEGERS: usize = 32;

/// A list of at most 32 integers. Contracts see it as this list.
#[derive(Drop)]
pub(crate) struct Integers {
    integers: [i64; MAX_INTEGERS],
    used: usize,
}

impl Model for Integers {
    ghost use Rattle.std.specs.Prelude.{ℤ, List, take, ◌≤◌};

    ghost Value = { List ℤ };

    ghost view = { λ list. take list.used list.integers };

    ghost invariant = { λ list. list.used ≤ 32 };
}

impl Integers {
    /// The empty list.
    pub fn new() -> Self
        ensures { result ≡ [] }
    {
        Integers {
            integers: [0; MAX_INTEGERS],
            used: 0,
        }
    }

    /// Whether there are 32 integers.
    pub fn is_full(&self) -> bool
        ensures full { IsTrue result ↔ (length self.now ≡ 32) }
        ensures within { length self.now ≤ 32 }
    {
        self.used == MAX_INTEGERS
    }

    /// Appends an integer.
    pub fn push(&mut self, integer: i64)
        requires { length self.old < 32 }
        ensures integers { self.new ≡ self.old ++ integer ∷ [] }
        ensures length { length self.new ≡ length self.old + 1 }
    {
        self.integers[self.used] = integer;
        self.used += 1;
    }

    /// The integers.
    pub fn as_slice(&self) -> &[i64]
        ensures integers { result.now ≡ self.now }
        ensures within { length result.now ≤ 32 }
    {
        &self.integers[..self.used]
    }
}
