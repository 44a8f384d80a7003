//! The whole run.

ghost use Rattle.std.specs.Prelude.{◌≡◌, ℕ, List, map, string_bytes};
ghost use Rattle.std.specs.Io.KnownBytes.{Consumes};
ghost use Rattle.raw_io.specs.Outside.{Appends};
ghost use Rattle.developer.specs.inner.Closing.{IsClosed};
ghost use Rattle.developer.specs.Run.{Promises};

use crate::opened::OpenedFrame;
use crate::opening::open;
use crate::script::run_script;
use crate::status::{Ending, Status, status_after};
use raw_io::{Files, Sink, Source};
use region_session::Tally;
use std::alloc::Global;

/// Runs the whole program: reads the words, the frame and the script, and answers each line of the script before the
/// script is read again.
///
/// The session that answers draw on is closed into the tally where the run ends with `Done`, `ReadFault` or
/// `ScriptTooLong` after the frame was opened; else the tally stays.
pub fn run<F: Files, C: Source, O: Sink>(
    alloc: Global,
    words: &[String],
    files: &mut F,
    script: &mut C,
    out: &mut O,
    tally: &mut Tally,
) -> Status
    ensures { (written taken : List ℕ)
        × Appends O.stands_for out.old out.new written
        × Consumes (C.left script.old) (C.left script.new) taken
        × Promises (record {
          words = map string_bytes words.now;
          before = record {
            told = F.told files.old;
            file_faults = F.faults files.old;
            left = C.left script.old;
            script_faults = C.faults script.old;
            sink_faults = O.faults out.old;
            tally = tally.old;
          };
          after = record {
            told = F.told files.new;
            file_faults = F.faults files.new;
            left = C.left script.new;
            script_faults = C.faults script.new;
            sink_faults = O.faults out.new;
            tally = tally.new;
          };
          written = written;
          taken = taken;
        }) result }
{
    let mut memory = Vec::new(alloc);
    match open(alloc, words, files, out, &mut memory) {
        Ok(mut frame) => {
            let ended = run_script(alloc, &mut frame, script, out);
            close_after(frame, ended, tally);
            status_after(ended)
        }
        Err(ending) => ending.status(),
    }
}

/// Closes the session of a frame into the tally, where the run ends with its script or by a read.
fn close_after(frame: OpenedFrame<'_>, ended: Result<(), Ending>, tally: &mut Tally)
    ensures { IsClosed ended frame.entry.session tally.old tally.new }
{
    match ended {
        Ok(()) | Err(Ending::ReadFault | Ending::ScriptTooLong) => frame.close(tally),
        Err(_) => {}
    }
}
