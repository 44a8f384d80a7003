//! Bytes that are written together.

ghost use Rattle.std.specs.Prelude.{◌≡◌, ◌+◌, ◌*◌, ◌≤◌, ◌↔◌, [], ◌++◌, length, IsTrue, IfOk};
ghost use Rattle.image_out.specs.Image.{pixels_of};

use crate::pixel_bytes;
use dev_settings::Format;
use std::alloc::{AllocError, Global};
use std::marker::Model;
use text_line::Line;

/// How many bytes a piece has room for: 64 KiB, one more row of 8192 pixels, its image's head and
/// the line before it.
const CAPACITY: usize = 1 << 17;

/// A piece with this many bytes is full, and is to be written.
const FULL: usize = 1 << 16;

/// The bytes of the next write. Contracts see it as the list of these bytes.
///
/// Its memory is taken once, when it is made.
#[derive(Drop)]
pub struct Piece {
    bytes: Vec<u8>,
    used: usize,
}

impl Model for Piece {
    ghost use Rattle.std.specs.Prelude.{◌≡◌, ◌≤◌, ℕ, List, length, take, vec_len};

    ghost Value = { List ℕ };

    ghost view = { λ piece. take piece.used piece.bytes.items };

    ghost invariant = { λ piece. (piece.used ≤ 131072) × (vec_len piece.bytes ≡ 131072) };
}

impl Piece {
    /// A piece with no bytes.
    ///
    /// # Errors
    ///
    /// `AllocError` where memory ran out.
    pub fn new(alloc: Global) -> Result<Self, AllocError>
        ensures { IfOk result (λ piece. piece ≡ []) }
    {
        let bytes = vec![in alloc; 0u8; CAPACITY]?;
        Ok(Piece { bytes, used: 0 })
    }

    /// Takes all bytes out.
    pub fn clear(&mut self)
        ensures { self.new ≡ [] }
    {
        self.used = 0;
    }

    /// Appends bytes.
    pub fn push(&mut self, bytes: &[u8])
        requires { length self.old + length bytes.now ≤ 131072 }
        ensures bytes { self.new ≡ self.old ++ bytes.now }
        ensures length { length self.new ≡ length self.old + length bytes.now }
    {
        let end = self.used + bytes.len();
        self.bytes[self.used..end].copy_from_slice(bytes);
        self.used = end;
    }

    /// Appends a line.
    pub fn push_line(&mut self, line: &Line)
        requires { length self.old + 128 ≤ 131072 }
        ensures bytes { self.new ≡ self.old ++ line.now }
        ensures length { length self.new ≡ length self.old + length line.now }
        ensures within { length self.new ≤ length self.old + 128 }
    {
        self.push(line.as_bytes());
    }

    /// Appends the bytes of samples.
    pub fn push_samples(&mut self, samples: &[u16], format: Format)
        requires { length self.old + 2 * length samples.now ≤ 131072 }
        ensures bytes { self.new ≡ self.old ++ pixels_of format samples.now }
        ensures length { length self.new ≡ length self.old + 2 * length samples.now }
    {
        let end = self.used + 2 * samples.len();
        pixel_bytes(samples, format, &mut self.bytes[self.used..end]);
        self.used = end;
    }

    /// Whether there are at least 64 KiB.
    pub fn is_full(&self) -> bool
        ensures { IsTrue result ↔ (65536 ≤ length self.now) }
    {
        self.used >= FULL
    }

    /// How many bytes there are.
    pub fn len(&self) -> usize
        ensures { result ≡ length self.now }
    {
        self.used
    }

    /// Whether there is no byte.
    pub fn is_empty(&self) -> bool
        ensures { IsTrue result ↔ (self.now ≡ []) }
    {
        self.used == 0
    }

    /// The bytes.
    pub fn as_bytes(&self) -> &[u8]
        ensures { result.now ≡ self.now }
    {
        &self.bytes[..self.used]
    }
}
