//! Lines of text, put together from words and numbers without taking memory.
#![tactic(auto)]

ghost use Rattle.std.specs.Prelude.{◌≡◌, ◌+◌, ◌≤◌, [], ◌∷◌, ◌++◌, length, decimal};
ghost use Rattle.text_line.specs.Fields.{field_text};

use itoa::Buffer;
use std::marker::Model;

/// The longest line, in bytes, with the line feed at its end.
pub const MAX_LINE: usize = 128;

/// A line that is being put together. Contracts see it as the list of its bytes so far.
#[derive(Drop)]
pub struct Line {
    bytes: [u8; MAX_LINE],
    used: usize,
}

impl Model for Line {
    ghost use Rattle.std.specs.Prelude.{ℕ, ◌≤◌, List, take};

    ghost Value = { List ℕ };

    ghost view = { λ line. take line.used line.bytes };

    ghost invariant = { λ line. line.used ≤ 128 };
}

impl Line {
    /// The empty line.
    pub fn new() -> Self
        ensures { result ≡ [] }
    {
        Line {
            bytes: [0; MAX_LINE],
            used: 0,
        }
    }

    /// Appends a text.
    pub fn push(&mut self, text: &[u8])
        requires { length self.old + length text.now ≤ 128 }
        ensures bytes { self.new ≡ self.old ++ text.now }
        ensures length { length self.new ≡ length self.old + length text.now }
    {
        let end = self.used + text.len();
        self.bytes[self.used..end].copy_from_slice(text);
        self.used = end;
    }

    /// Appends a number in decimal, which takes 1 to 20 bytes.
    pub fn push_number(&mut self, n: u64)
        requires { length self.old + 20 ≤ 128 }
        ensures bytes { self.new ≡ self.old ++ decimal n }
        ensures length { length self.new ≡ length self.old + length (decimal n) }
        ensures within { length self.new ≤ length self.old + 20 }
    {
        let mut digits = Buffer::new();
        self.push(digits.format(n).as_bytes());
    }

    /// Appends a space and a number in decimal, which takes 2 to 21 bytes.
    pub fn push_field(&mut self, n: u64)
        requires { length self.old + 21 ≤ 128 }
        ensures bytes { self.new ≡ self.old ++ field_text n }
        ensures length { length self.new ≡ length self.old + 1 + length (decimal n) }
        ensures within { length self.new ≤ length self.old + 21 }
    {
        self.push(b" ");
        self.push_number(n);
    }

    /// Appends the line feed.
    pub fn end(&mut self)
        requires { length self.old + 1 ≤ 128 }
        ensures bytes { self.new ≡ self.old ++ 10 ∷ [] }
        ensures length { length self.new ≡ length self.old + 1 }
    {
        self.push(b"\n");
    }

    /// The bytes so far.
    pub fn as_bytes(&self) -> &[u8]
        ensures bytes { result.now ≡ self.now }
        ensures within { length result.now ≤ 128 }
    {
        &self.bytes[..self.used]
    }
}

#[cfg(test)]
mod tests;
