//! The script, read piece by piece: each line is answered before the script is read again after its end.

ghost use Rattle.std.specs.Prelude.{◌≡◌, ℕ, ◌+◌, ◌^◌, ◌<◌, ◌≤◌, List, [], ◌++◌, length, OnOk};
ghost use Rattle.dev_settings.specs.Lines.{last_line, lines_of, unended};
ghost use Rattle.developer.specs.inner.Reading.{IsAnswered, Reads, kept_of};

use crate::opened::OpenedFrame;
use crate::status::Ending;
use crate::writing::Cause;
use dev_settings::{MAX_LINE_BYTES, split_line};
use raw_io::{Sink, Source};
use stage_core::Steps;
use std::alloc::{AllocError, Global};
use std::marker::Brand;
use std::sync::ledger::{Blank, Ledger};

/// The longest script, in bytes.
const MAX_SCRIPT: usize = 1 << 24;

/// How many bytes are read at a time, at most.
const PIECE: usize = 1 << 16;

/// How many bytes of a line are kept: one more than a line may have, so that a longer one shows as too long.
const MAX_KEPT: usize = MAX_LINE_BYTES + 1;

/// Appends bytes to a line, of which no more than `MAX_KEPT` are kept.
fn keep(line: &mut Vec<u8>, bytes: &[u8]) -> Result<(), AllocError>
    ensures { OnOk result ((before : List ℕ) → line.old.items ≡ kept_of before
        → line.new.items ≡ kept_of (before ++ bytes.now)) }
{
    let room = MAX_KEPT - line.len().min(MAX_KEPT);
    line.extend_from_slice(&bytes[..bytes.len().min(room)])
}

/// Answers each line that ends in a piece of the script, the first of which begins with a kept line. Keeps what follows
/// the last of them.
fn answer_piece<O: Sink, L: Ledger>(
    alloc: Global,
    frame: &mut OpenedFrame<'_>,
    line: &mut Vec<u8>,
    piece: &[u8],
    out: &mut O,
    work: &mut Steps<L>,
) -> Result<(), Cause>
    requires few { frame.old.session.stamps.changes + length piece.now < 2 ^ 40 }
    ensures answers { (before : List ℕ) → lines_of before ≡ unended before → line.old.items ≡ kept_of before
        → IsAnswered O.stands_for O.faults out.old out.new frame.old (lines_of (before ++ piece.now)).complete frame.new
        result }
    ensures kept { OnOk result ((before : List ℕ) → lines_of before ≡ unended before → line.old.items ≡ kept_of before
        → line.new.items ≡ kept_of (lines_of (before ++ piece.now)).rest) }
    ensures few { frame.new.session.stamps.changes ≤ frame.old.session.stamps.changes + length piece.now }
{
    let mut rest = piece;
    while let Some((end, after)) = split_line(rest) {
        keep(line, end)?;
        frame.answer(alloc, line, out, work)?;
        line.clear();
        rest = after;
    }
    keep(line, rest)?;
    Ok(())
}

/// Answers a kept line that the end of the script ends, where it has at least one byte.
fn answer_rest<O: Sink, L: Ledger>(
    alloc: Global,
    frame: &mut OpenedFrame<'_>,
    line: &[u8],
    out: &mut O,
    work: &mut Steps<L>,
) -> Result<(), Cause>
    requires few { frame.old.session.stamps.changes < 2 ^ 40 }
    ensures { (before : List ℕ) → line.now ≡ kept_of before
        → IsAnswered O.stands_for O.faults out.old out.new frame.old (last_line before) frame.new result }
{
    if line.is_empty() {
        Ok(())
    } else {
        frame.answer(alloc, line, out, work)
    }
}

/// Reads a script and answers its lines, with memory for a piece of it and for a line.
fn answer_script<C: Source, O: Sink, L: Ledger>(
    alloc: Global,
    frame: &mut OpenedFrame<'_>,
    script: &mut C,
    piece: &mut [u8],
    line: &mut Vec<u8>,
    out: &mut O,
    work: &mut Steps<L>,
) -> Result<(), Ending>
    requires begun { frame.old.session.stamps.changes ≡ 0 }
    requires empty { line.old.items ≡ [] }
    requires some { 0 < length piece.old }
    ensures { Reads C.left C.faults O.stands_for O.faults frame.old script.old script.new out.old out.new frame.new
        result }
{
    let mut taken = 0;
    while taken <= MAX_SCRIPT {
        let room = piece.len().min(MAX_SCRIPT + 1 - taken);
        let count = script.read(&mut piece[..room])?;
        if count == 0 {
            answer_rest(alloc, frame, line, out, work)?;
            return Ok(());
        }
        taken += count;
        let within = count - taken.saturating_sub(MAX_SCRIPT);
        answer_piece(alloc, frame, line, &piece[..within], out, work)?;
    }
    Err(Ending::ScriptTooLong)
}

/// Reads the script and answers its lines.
pub(crate) fn run_script<C: Source, O: Sink>(
    alloc: Global,
    frame: &mut OpenedFrame<'_>,
    script: &mut C,
    out: &mut O,
) -> Result<(), Ending>
    requires begun { frame.old.session.stamps.changes ≡ 0 }
    ensures { Reads C.left C.faults O.stands_for O.faults frame.old script.old script.new out.old out.new frame.new
        result }
{
    run_counted::<C, O, Brand>(alloc, frame, script, out, Blank::new(1))
}

/// The same, with a count of the cells that are made.
fn run_counted<C: Source, O: Sink, L: Ledger>(
    alloc: Global,
    frame: &mut OpenedFrame<'_>,
    script: &mut C,
    out: &mut O,
    blank: Blank,
) -> Result<(), Ending>
    requires name { blank.name ≡ L.name }
    requires parts { blank.parts ≡ L.parts }
    requires some { 0 < blank.parts }
    requires begun { frame.old.session.stamps.changes ≡ 0 }
    ensures { Reads C.left C.faults O.stands_for O.faults frame.old script.old script.new out.old out.new frame.new
        result }
{
    let mut work = Steps::<L>::new(blank);
    let mut piece = vec![in alloc; 0u8; PIECE]?;
    let mut line = Vec::with_capacity(alloc, MAX_KEPT)?;
    answer_script(alloc, frame, script, &mut piece, &mut line, out, &mut work)
}
