//! Writing to the sink, and counting what was written.

ghost use Rattle.std.specs.Prelude.{◌≡◌, ℕ, ◌+◌, ◌*◌, ◌^◌, ◌<◌, ◌≤◌, List, [], ◌++◌, length, Ok, Err, IfOk, IfErr};
ghost use Rattle.std.specs.Prelude.{OnOk};
ghost use Rattle.image_out.specs.Image.{pixels_of};
ghost use Rattle.developer.specs.inner.Pieces.{InPieces};
ghost use Rattle.developer.specs.inner.Writes.{Writes, by_write, stopped};

use dev_settings::Format;
use image_out::Piece;
use raw_io::{Sink, WriteFault, write_all};
use std::alloc::AllocError;

/// Why an answer is cut short.
#[derive(Clone, Copy, Debug, PartialEq, Eq)]
pub(crate) enum Cause {
    /// A write failed.
    Write,
    /// Memory ran out.
    Memory,
}

/// An answer is cut short: of its bytes, `written` were written.
#[derive(Clone, Copy, Debug, PartialEq, Eq)]
pub(crate) struct Stop {
    pub written: u64,
    pub cause: Cause,
}

impl From<WriteFault> for Stop {
    ghost use Rattle.developer.specs.inner.Writes.{by_write};

    ghost from_gives = { λ fault stop. stop ≡ by_write fault };

    fn from(fault: WriteFault) -> Stop {
        Stop {
            written: fault.written,
            cause: Cause::Write,
        }
    }
}

impl From<AllocError> for Cause {
    ghost use Rattle.developer.specs.declared.writing.Cause.TheVariants as causes;

    ghost from_gives = { λ _ cause. cause ≡ causes.Memory };

    fn from(_: AllocError) -> Cause {
        Cause::Memory
    }
}

impl From<AllocError> for Stop {
    ghost use Rattle.developer.specs.inner.Writes.{no_memory};

    ghost from_gives = { λ _ stop. stop ≡ no_memory };

    fn from(_: AllocError) -> Stop {
        Stop {
            written: 0,
            cause: Cause::Memory,
        }
    }
}

/// Writes bytes, and gives their number.
pub(crate) fn write_bytes<O: Sink>(bytes: &[u8], out: &mut O) -> Result<u64, WriteFault>
    ensures { Writes O.stands_for O.faults out.old out.new bytes.now (λ n. n) (stopped result) }
{
    write_all(out, bytes)?;
    Ok(bytes.len() as u64)
}

/// Writes a whole reply, and gives its number of bytes.
pub(crate) fn write_reply<O: Sink>(reply: &[u8], out: &mut O) -> Result<u64, Stop>
    ensures { Writes O.stands_for O.faults out.old out.new reply.now (λ n. n) result }
{
    Ok(write_bytes(reply, out)?)
}

/// Writes a piece and empties it, after `written` bytes that belong before it. Gives the number of both.
pub(crate) fn write_piece<O: Sink>(
    piece: &mut Piece,
    written: u64,
    out: &mut O,
) -> Result<u64, WriteFault>
    requires { written < 2 ^ 60 }
    ensures writes { (first : _) (before : List ℕ) → Writes O.stands_for O.faults first out.old before (λ n. n)
        (Ok written)
        → Writes O.stands_for O.faults first out.new (before ++ piece.old) (λ n. n) (stopped result) }
    ensures emptied { OnOk result (piece.new ≡ []) }
    ensures number { IfOk result (λ total. total ≡ written + length piece.old) }
{
    match write_bytes(piece.as_bytes(), out) {
        Ok(more) => {
            piece.clear();
            Ok(written + more)
        }
        Err(fault) => Err(WriteFault {
            written: written + fault.written,
        }),
    }
}

/// Appends rows of samples to a piece, `width` samples a row, and writes the piece where it is full. Before them
/// `written` bytes were written. Gives the number of these and of those that it wrote.
pub(crate) fn write_samples<O: Sink>(
    samples: &[u16],
    width: usize,
    format: Format,
    piece: &mut Piece,
    written: u64,
    out: &mut O,
) -> Result<u64, WriteFault>
    requires some { 1 ≤ width }
    requires short { width ≤ 24576 }
    requires room { length piece.old < 65536 }
    requires few { written + length piece.old + 2 * length samples.now < 2 ^ 60 }
    ensures pieces { (first : _) (all : List ℕ) → InPieces O.stands_for O.faults first out.old all piece.old written
        → IfOk result (λ total. InPieces O.stands_for O.faults first out.new (all ++ pixels_of format samples.now)
        piece.new total) }
    ensures stops { (first : _) (all : List ℕ) → InPieces O.stands_for O.faults first out.old all piece.old written
        → IfErr result (λ fault. Writes {T = ℕ} O.stands_for O.faults first out.new (all
        ++ pixels_of format samples.now) (λ n. n) (Err (by_write fault))) }
    ensures room { OnOk result (length piece.new < 65536) }
    ensures number { IfOk result (λ total. total + length piece.new ≡ written + length piece.old + 2 * length
        samples.now) }
{
    let mut written = written;
    let mut rest = samples;
    while !rest.is_empty() {
        let (row, below) = rest.split_at(rest.len().min(width));
        piece.push_samples(row, format);
        if piece.is_full() {
            written = write_piece(piece, written, out)?;
        }
        rest = below;
    }
    Ok(written)
}
