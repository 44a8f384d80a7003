//! Runs over files, a script and a sink in memory, and what they write.
//!
//! Here and in the other modules tables come from functions of their own, so that the proofs of the tests, which are of
//! safety alone, don't carry their bytes.

use developer::{Status, run};
use raw_io::{MemFiles, MemSink, MemSource};
use region_session::Tally;
use std::alloc::{AllocError, Global};
use test_frames::{TestFrame, flat};
use tiff_dirs::Order;

/// How many bytes a sink takes.
pub const ROOM: usize = 1 << 16;

/// The reply to a region of one pixel of the flat frame.
pub fn one_pixel() -> &'static [u8] {
    b"image 19\nP6\n1 1\n65535\n\x12\x34\x12\x34\x12\x34"
}

/// The outside of a run.
#[derive(Drop)]
pub struct Outside {
    pub files: MemFiles,
    pub script: MemSource,
    pub out: MemSink,
    pub tally: Tally,
}

/// A file `f.dng`.
pub fn files_of(alloc: Global, frame: &[u8]) -> Result<MemFiles, AllocError> {
    let mut files = MemFiles::new(alloc)?;
    files.add("f.dng", frame)?;
    Ok(files)
}

/// The program's name, and these words after it.
pub fn words_of(alloc: Global, words: &[&str]) -> Result<Vec<String>, AllocError> {
    let mut all = vec![in alloc; String::from_str(alloc, "rawdev")?]?;
    for word in words {
        all.push(String::from_str(alloc, word)?)?;
    }
    Ok(all)
}

impl Outside {
    /// A file `f.dng`, a script, and a sink with room.
    pub fn new(alloc: Global, frame: &[u8], script: &[u8]) -> Result<Outside, AllocError> {
        Ok(Outside {
            files: files_of(alloc, frame)?,
            script: MemSource::new(alloc, script)?,
            out: MemSink::new(alloc, ROOM)?,
            tally: Tally::new(),
        })
    }

    /// Runs with these words after the program's name.
    pub fn run(&mut self, alloc: Global, words: &[&str]) -> Result<Status, AllocError> {
        let words = words_of(alloc, words)?;
        Ok(run(
            alloc,
            &words,
            &mut self.files,
            &mut self.script,
            &mut self.out,
            &mut self.tally,
        ))
    }
}

/// The flat frame's file.
pub fn flat_file(alloc: Global) -> Result<Vec<u8>, AllocError> {
    flat(alloc)?.bytes(alloc, Order::Little)
}

/// The status of a run over a file `f.dng` and a script, and what it wrote.
pub fn ran(alloc: Global, file: &[u8], script: &[u8]) -> Result<(Status, Vec<u8>), AllocError> {
    let mut outside = Outside::new(alloc, file, script)?;
    let status = outside.run(alloc, &["f.dng"])?;
    Ok((status, outside.out.bytes().to_vec(alloc)?))
}

/// Whether a script over a file `f.dng` has these replies.
pub fn replies(alloc: Global, file: &[u8], script: &[u8], want: &[u8]) -> Result<bool, AllocError> {
    let mut outside = Outside::new(alloc, file, script)?;
    let status = outside.run(alloc, &["f.dng"])?;
    Ok(status == Status::Done && outside.out.bytes() == want)
}

/// Whether a script over a frame has these replies.
pub fn frame_replies(
    alloc: Global,
    frame: TestFrame,
    script: &[u8],
    want: &[u8],
) -> Result<bool, AllocError> {
    replies(alloc, &frame.bytes(alloc, Order::Little)?, script, want)
}

/// Whether a file is refused with a line, and the script isn't read.
pub fn is_refused(alloc: Global, file: &[u8], line: &[u8]) -> Result<bool, AllocError> {
    let mut outside = Outside::new(alloc, file, b"region 0 0 1 1 ppm\n")?;
    outside.script.fail_at(1)?;
    let status = outside.run(alloc, &["f.dng"])?;
    Ok(status == Status::Frame && outside.out.bytes() == line)
}

/// How a run over a file with these words and an empty script ends, where it writes this.
pub fn ends_so(
    alloc: Global,
    file: &[u8],
    words: &[&str],
    want: &[u8],
) -> Result<Option<Status>, AllocError> {
    let mut outside = Outside::new(alloc, file, b"")?;
    let status = outside.run(alloc, words)?;
    Ok(if outside.out.bytes() == want {
        Some(status)
    } else {
        None
    })
}
