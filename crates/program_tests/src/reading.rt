//! Tests of scripts that are read in pieces, of reads and writes that fail, and of when a line is answered.

ghost use Rattle.std.specs.Prelude.{◌≡◌, ◌≤◌, length};

use super::outside::{Outside, ROOM, ends_so, files_of, flat_file, one_pixel, ran, words_of};
use super::stat::one_cell;
use developer::{Status, run};
use raw_io::{Failed, MemSink, Sink, Source};
use region_session::Tally;
use std::alloc::{AllocError, Global};
use std::cell::Cell;
use std::test::Fail;

/// A script that is read a few bytes at a time, and then ends or fails. It tells nothing.
#[derive(Drop)]
struct Slow<'a> {
    rest: &'a [u8],
    /// How many bytes a read gives at most; 0 for the bytes up to a line's end.
    size: usize,
    fails: bool,
    faults: u64,
    /// How many bytes the sink has taken.
    written: &'a Cell<u64>,
    /// That number before each of the first reads.
    seen: [u64; 4],
    reads: usize,
}

impl<'a> Slow<'a> {
    fn new(script: &'a [u8], size: usize, fails: bool, written: &'a Cell<u64>) -> Slow<'a> {
        Slow {
            rest: script,
            size,
            fails,
            faults: 0,
            written,
            seen: [0; 4],
            reads: 0,
        }
    }

    /// How many bytes the next read gives where there is room.
    fn next(&self) -> usize {
        if self.size > 0 {
            return self.size.min(self.rest.len());
        }
        match self.rest.iter().position(|byte| *byte == b'\n') {
            Some(end) if end < self.rest.len() => end + 1,
            _ => self.rest.len(),
        }
    }
}

impl Source for Slow<'_> {
    ghost use Rattle.std.specs.Prelude.{None};

    ghost left = { λ _. None };

    ghost faults = { λ s. s.faults };

    fn read(&mut self, into: &mut [u8]) -> Result<usize, Failed> {
        if self.reads < self.seen.len() {
            self.seen[self.reads] = self.written.get();
            self.reads += 1;
        }
        if self.rest.is_empty() && self.fails {
            self.faults = self.faults.saturating_add(1);
            return Err(Failed);
        }
        let count = self.next().min(into.len()).min(self.rest.len());
        into[..count].copy_from_slice(&self.rest[..count]);
        self.rest = &self.rest[count..];
        Ok(count)
    }
}

/// A sink in memory that counts the bytes that it takes. It stands for no list.
#[derive(Drop)]
struct Counted<'a> {
    sink: MemSink,
    written: &'a Cell<u64>,
}

impl Sink for Counted<'_> {
    ghost stands_for = { λ _ _. ⊥ };

    ghost faults = { λ s. s.sink.faults };

    fn write(&mut self, from: &[u8]) -> Result<usize, Failed> {
        let count = self.sink.write(from)?;
        self.written
            .set(self.written.get().saturating_add(count as u64));
        Ok(count)
    }
}

/// Runs over a file `f.dng`.
fn run_over<C: Source, O: Sink>(
    alloc: Global,
    file: &[u8],
    script: &mut C,
    out: &mut O,
) -> Result<Status, AllocError> {
    let mut files = files_of(alloc, file)?;
    let words = words_of(alloc, &["f.dng"])?;
    Ok(run(alloc, &words, &mut files, script, out, &mut Tally::new()))
}

/// How the run over a flat frame ends, and how many bytes it had written before the first reads, where it writes this.
/// A read gives so many bytes of the script, or a line.
fn run_slowly(
    alloc: Global,
    script: &[u8],
    size: usize,
    fails: bool,
    want: &[u8],
) -> Result<Option<(Status, [u64; 4])>, AllocError> {
    let written = Cell::new(0);
    let mut source = Slow::new(script, size, fails, &written);
    let mut out = Counted {
        sink: MemSink::new(alloc, ROOM)?,
        written: &written,
    };
    let status = run_over(alloc, &flat_file(alloc)?, &mut source, &mut out)?;
    Ok(if out.sink.bytes() == want {
        Some((status, source.seen))
    } else {
        None
    })
}

/// Appends the line of a region of one pixel with spaces behind it, `length` bytes long before its line feed; the last
/// of them is a carriage return, where it has one.
fn push_line(script: &mut Vec<u8>, length: usize, returns: bool) -> Result<(), AllocError> {
    let spaces = length.saturating_sub(if returns { 19 } else { 18 });
    script.extend_from_slice(b"region 0 0 1 1 ppm")?;
    for _ in 0..spaces {
        script.push(b' ')?;
    }
    script.extend_from_slice(if returns { b"\r\n" } else { b"\n" })
}

/// Lengths of lines, and whether they end with a carriage return too.
const LONG_LINES: [(usize, bool); 6] = [
    (4096, false),
    (4097, false),
    (4096, true),
    (4097, true),
    (1 << 20, true),
    (18, false),
];

/// These lines.
fn long_lines(alloc: Global) -> Result<Vec<u8>, AllocError> {
    let mut script = Vec::new(alloc);
    for (length, returns) in LONG_LINES {
        push_line(&mut script, length, returns)?;
    }
    Ok(script)
}

/// Their replies: lines of at most 4,096 bytes are answered.
fn long_replies(alloc: Global) -> Result<Vec<u8>, AllocError> {
    let mut replies = Vec::new(alloc);
    for (length, _) in LONG_LINES {
        replies.extend_from_slice(if length > 4096 {
            b"no line\n"
        } else {
            one_pixel()
        })?;
    }
    Ok(replies)
}

#[test]
fn lines_are_cut_anywhere(rt: HostRuntime) -> Result<(), Fail> {
    let alloc = rt.alloc();
    let script = long_lines(alloc)?;
    let want = long_replies(alloc)?;
    for size in [0, 1, 4095, 4096, 4097, 65_536] {
        let ended = run_slowly(alloc, &script, size, false, &want)?;
        assert!(rt; matches!(ended, Some((Status::Done, _))), "{size}");
    }
    Ok(())
}

/// The replies to four lines, of which only the first three have an end.
fn four_replies() -> (&'static [u8], &'static [u8]) {
    (
        b"image 19\nP6\n1 1\n65535\n\x12\x34\x12\x34\x12\x34no word\nok\n",
        b"image 19\nP6\n1 1\n65535\n\x12\x34\x12\x34\x12\x34no word\nok\nstat 1 7 288 268435456\n",
    )
}

/// Each line's reply is written before the next read, and complete lines are answered before a read fails.
#[test]
fn lines_are_answered_before_the_next_read(rt: HostRuntime) -> Result<(), Fail> {
    let alloc = rt.alloc();
    let script = b"region 0 0 1 1 ppm\n\nset tone root\nstat";
    let (complete, all) = four_replies();
    let seen = [0, 28, 36, 39];
    assert_eq!(rt;
        run_slowly(alloc, script, 0, false, all)?,
        Some((Status::Done, seen))
    );
    assert_eq!(rt;
        run_slowly(alloc, script, 0, true, complete)?,
        Some((Status::ReadFault, seen))
    );
    Ok(())
}

/// What fails.
#[derive(Clone, Copy, PartialEq)]
enum Part {
    Files,
    Script,
    Sink,
}

impl Outside {
    /// Lets a call of a part fail.
    fn fail_at(&mut self, part: Part, call: u64) -> Result<(), AllocError> {
        match part {
            Part::Files => self.files.fail_at(call),
            Part::Script => self.script.fail_at(call),
            Part::Sink => self.out.fail_at(call),
        }
    }
}

/// How the run of a script over a file ends where a call of a part fails, and what it wrote.
fn failed_at(
    alloc: Global,
    file: &[u8],
    script: &[u8],
    part: Part,
    call: u64,
) -> Result<(Status, Vec<u8>), AllocError> {
    let mut outside = Outside::new(alloc, file, script)?;
    outside.fail_at(part, call)?;
    let status = outside.run(alloc, &["f.dng"])?;
    Ok((status, outside.out.bytes().to_vec(alloc)?))
}

/// Whether the run of a script over the flat frame ends so where a call of a part fails, and writes this.
fn fails(
    alloc: Global,
    script: &[u8],
    part: Part,
    call: u64,
    want: (Status, &[u8]),
) -> Result<bool, AllocError> {
    let (status, written) = failed_at(alloc, &flat_file(alloc)?, script, part, call)?;
    Ok(status == want.0 && written.as_slice() == want.1)
}

#[test]
fn reads_fail(rt: HostRuntime) -> Result<(), Fail> {
    let alloc = rt.alloc();
    assert_eq!(rt;
        ends_so(alloc, b"", &["g.dng"], b"")?,
        Some(Status::ReadFault)
    );
    let script = b"region 0 0 1 1 ppm\n";
    assert!(rt; fails(alloc, script, Part::Script, 1, (Status::ReadFault, b""))?);
    Ok(())
}

/// Whether a sink of nine bytes takes a prefix of the reply.
fn full_sink_fails(alloc: Global) -> Result<bool, AllocError> {
    let mut full = Outside::new(alloc, &flat_file(alloc)?, b"region 0 0 1 1 ppm\n")?;
    full.out = MemSink::new(alloc, 9)?;
    let status = full.run(alloc, &["f.dng"])?;
    let written = full.out.bytes();
    Ok(status == Status::WriteFault && written.len() <= 9 && one_pixel().starts_with(written))
}

/// A region of one pixel is one write: a sink whose second write fails takes the whole reply.
#[test]
fn writes_fail(rt: HostRuntime) -> Result<(), Fail> {
    let alloc = rt.alloc();
    let script = b"region 0 0 1 1 ppm\nstat\n";
    assert!(rt; fails(alloc, script, Part::Sink, 1, (Status::WriteFault, b""))?);
    assert!(rt;
        fails(
            alloc,
            script,
            Part::Sink,
            2,
            (Status::WriteFault, one_pixel())
        )?
    );
    assert!(rt; full_sink_fails(alloc)?);
    Ok(())
}

/// How the run over the stat lines' script ends where a call of a part fails, and whether it wrote a prefix of the
/// replies.
fn ends(
    alloc: Global,
    part: Part,
    call: u64,
    file: &[u8],
    replies: &[u8],
) -> Result<(Status, bool), AllocError> {
    let (status, written) = failed_at(alloc, file, one_cell().script, part, call)?;
    Ok((status, replies.starts_with(&written)))
}

/// How many calls of a part can fail before the run goes through, where each earlier run ends so with a prefix.
fn failing(
    alloc: Global,
    part: Part,
    status: Status,
    file: &[u8],
    replies: &[u8],
) -> Result<Option<u64>, AllocError> {
    for call in 1..100 {
        let (ended, is_prefix) = ends(alloc, part, call, file, replies)?;
        if !is_prefix {
            return Ok(None);
        }
        if ended == Status::Done {
            return Ok(Some(call - 1));
        }
        if ended != status {
            return Ok(None);
        }
    }
    Ok(None)
}

/// One read of the file and one that finds its end; two of the script; one write for each of the eight replies.
#[test]
fn calls_fail(rt: HostRuntime) -> Result<(), Fail> {
    let alloc = rt.alloc();
    let file = one_cell().scene.file(alloc)?;
    let (status, replies) = ran(alloc, &file, one_cell().script)?;
    assert_eq!(rt; status, Status::Done);
    for (part, fault, calls) in [
        (Part::Files, Status::ReadFault, 2),
        (Part::Script, Status::ReadFault, 2),
        (Part::Sink, Status::WriteFault, 8),
    ] {
        assert_eq!(rt; failing(alloc, part, fault, &file, &replies)?, Some(calls));
    }
    Ok(())
}
