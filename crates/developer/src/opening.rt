//! Opening a frame: the words, the frame's file, its record and its settings.

ghost use Rattle.std.specs.Prelude.{◌≡◌, ℕ, ◌≤◌, List, [], Option, Some, map, option_map, string_bytes, IfErr, IfOk};
ghost use Rattle.std.specs.Prelude.{IfSome, OnOk, Ok};
ghost use Rattle.raw_io.specs.Outside.{Appends};
ghost use Rattle.developer.specs.inner.Closing.{IsFresh};
ghost use Rattle.developer.specs.Opening.{opened};
ghost use Rattle.dng_tags.specs.Facts.{IsFrame};
ghost use Rattle.developer.specs.inner.Opens.{Opens, OpensFiles, Refuses};
ghost use Rattle.developer.specs.inner.Planning.{seen};
ghost use Rattle.developer.specs.SettingsFile.{settings_line};
ghost use Rattle.developer.specs.inner.Shown.{option_view};
ghost use Rattle.developer.specs.Refusals.{refusal_line};
ghost use Rattle.developer.specs.Run.{Ends};
ghost use Rattle.developer.specs.inner.Endings.{status_of};
ghost use Rattle.developer.specs.Words.{Options as Chosen, options};
ghost use Rattle.region_session.specs.declared.tally.Tally.{Tally};

use crate::opened::OpenedFrame;
use crate::options::Options;
use crate::settings::{SettingsRefusal, SettingsStop, plan_under};
use crate::status::Ending;
use crate::words::read_words;
use crate::writing::write_bytes;
use dng_tags::{Frame, FrameFault, MAX_BYTES, read_frame};
use frame_segments::Segments;
use raw_io::{Files, ReadFault, Sink, read_all};
use std::alloc::{AllocError, Global};
use text_line::Line;

const USAGE_LINE: &[u8] = b"usage: rawdev FRAME [--settings FILE] [--budget SAMPLES] [--cell N]\n";

/// Why a frame isn't opened.
#[derive(Debug, Drop)]
pub(crate) enum OpenFault {
    /// The frame is refused.
    Frame(FrameFault),
    /// The settings file is refused.
    Settings(SettingsRefusal),
    /// A read of one of the files failed.
    Unread,
    /// Memory ran out.
    Memory,
}

impl From<ReadFault> for OpenFault {
    ghost use Rattle.developer.specs.inner.Opens.{open_fault};

    ghost from_gives = { λ fault e. e ≡ open_fault fault };

    fn from(fault: ReadFault) -> Self {
        match fault {
            ReadFault::TooLong => OpenFault::Frame(FrameFault::TooLong),
            ReadFault::Failed => OpenFault::Unread,
            ReadFault::Memory => OpenFault::Memory,
        }
    }
}

impl From<FrameFault> for OpenFault {
    ghost use Rattle.developer.specs.inner.Opens.{refused_or_memory};

    ghost from_gives = { λ fault e. e ≡ refused_or_memory fault };

    fn from(fault: FrameFault) -> Self {
        match fault {
            FrameFault::Memory => OpenFault::Memory,
            fault => OpenFault::Frame(fault),
        }
    }
}

impl From<SettingsStop> for OpenFault {
    ghost use Rattle.developer.specs.inner.Opens.{stopped};

    ghost from_gives = { λ stop e. e ≡ stopped stop };

    fn from(stop: SettingsStop) -> Self {
        match stop {
            SettingsStop::Refused(refusal) => OpenFault::Settings(refusal),
            SettingsStop::Unread => OpenFault::Unread,
            SettingsStop::Memory => OpenFault::Memory,
        }
    }
}

impl From<AllocError> for OpenFault {
    ghost use Rattle.developer.specs.declared.opening.OpenFault.TheVariants.{Memory};

    ghost from_gives = { λ _ e. e ≡ Memory };

    fn from(_: AllocError) -> Self {
        OpenFault::Memory
    }
}

/// Opens a frame that was read from these bytes: decodes each of its segments, and then reads the settings file, where
/// one is named.
fn open_frame<'a, F: Files>(
    alloc: Global,
    files: &mut F,
    bytes: &'a [u8],
    frame: Frame,
    options: &Options<'_>,
) -> Result<OpenedFrame<'a>, OpenFault>
    requires frame { IsFrame frame bytes.now }
    ensures told { (other : List ℕ) → F.told files.new other ≡ F.told files.old other }
    ensures counts { (other : List ℕ) → F.faults files.old other ≤ F.faults files.new other }
    ensures opens { Opens (F.told files.old) (F.faults files.old) (F.faults files.new)
        (option_view options.now) (record { bytes = bytes.entry.now; frame = frame }) result }
    ensures fresh { IfOk result (λ now. IsFresh now.session) }
{
    let segments = Segments::open(alloc, bytes, &frame)?;
    let planned = plan_under(alloc, files, options.settings, &frame)?;
    Ok(OpenedFrame::new(alloc, frame, segments, planned, options)?)
}

/// Reads and opens the frame that the words ask for, under the settings that they ask for. The bytes of its file stay
/// in `memory`.
fn read_frame_file<'a, F: Files>(
    alloc: Global,
    files: &mut F,
    options: &Options<'_>,
    memory: &'a mut Vec<u8>,
) -> Result<OpenedFrame<'a>, OpenFault>
    ensures told { (other : List ℕ) → F.told files.new other ≡ F.told files.old other }
    ensures counts { (other : List ℕ) → F.faults files.old other ≤ F.faults files.new other }
    ensures opens { OpensFiles (F.told files.old) (F.faults files.old) (F.faults files.new) (option_view options.now)
        result }
    ensures fresh { IfOk result (λ now. IsFresh now.session) }
{
    *memory = read_all(alloc, files, options.frame, MAX_BYTES)?;
    let bytes: &'a [u8] = memory;
    let frame = read_frame(alloc, bytes)?;
    open_frame(alloc, files, bytes, frame, options)
}

/// Writes the line of a refusal, and gives how the run ends then.
fn refuse<O: Sink>(line: &[u8], ending: Ending, out: &mut O) -> Ending
    ensures { Refuses O.stands_for O.faults out.old out.new line.now ending result }
{
    match write_bytes(line, out) {
        Ok(_) => ending,
        Err(fault) => fault.into(),
    }
}

/// Opens the frame that the words ask for, or writes the line of the refusal. The bytes of the frame's file stay in
/// `memory`.
pub(crate) fn open<'a, F: Files, O: Sink>(
    alloc: Global,
    words: &[String],
    files: &mut F,
    out: &mut O,
    memory: &'a mut Vec<u8>,
) -> Result<OpenedFrame<'a>, Ending>
    ensures told { (name : List ℕ) → F.told files.new name ≡ F.told files.old name }
    ensures files { (name : List ℕ) → F.faults files.old name ≤ F.faults files.new name }
    ensures sink { O.faults out.old ≤ O.faults out.new }
    ensures words { OnOk result ((chosen : Chosen) × (options (map string_bytes words.now) ≡ Some chosen)) }
    ensures opened { IfOk result (λ now. IfSome (opened (map string_bytes words.now) (F.told files.old))
        (λ o. o ≡ Ok now)) }
    ensures fresh { IfOk result (λ now. IsFresh now.session) }
    ensures untouched { OnOk result (out.new ≡ out.old) }
    ensures ended { IfErr result (λ ending. (left : Option (List ℕ)) (script_faults : ℕ) (tally : Tally)
        → (written : List ℕ)
        × Appends O.stands_for out.old out.new written
        × Ends (record {
          words = map string_bytes words.now;
          before = record {
            told = F.told files.old;
            file_faults = F.faults files.old;
            left = left;
            script_faults = script_faults;
            sink_faults = O.faults out.old;
            tally = tally;
          };
          after = record {
            told = F.told files.new;
            file_faults = F.faults files.new;
            left = left;
            script_faults = script_faults;
            sink_faults = O.faults out.new;
            tally = tally;
          };
          written = written;
          taken = [];
        }) (status_of ending)) }
{
    let options = match read_words(alloc, words) {
        Ok(Some(options)) => options,
        Ok(None) => return Err(refuse(USAGE_LINE, Ending::Usage, out)),
        Err(_) => return Err(Ending::Memory),
    };
    match read_frame_file(alloc, files, &options, memory) {
        Ok(frame) => Ok(frame),
        Err(OpenFault::Frame(fault)) => Err(refuse_frame(fault, out)),
        Err(OpenFault::Settings(refusal)) => Err(refuse_settings(&refusal, out)),
        Err(OpenFault::Unread) => Err(Ending::ReadFault),
        Err(OpenFault::Memory) => Err(Ending::Memory),
    }
}

/// Writes the line of a frame's refusal, and gives how the run ends then.
#[tactic(auto, unfolding(crate::specs::Refusals::refusal_line))]
fn refuse_frame<O: Sink>(fault: FrameFault, out: &mut O) -> Ending
    ensures { Refuses O.stands_for O.faults out.old out.new (refusal_line fault) Ending.Frame result }
{
    let mut line = Line::new();
    line.push(b"refused ");
    fault.say(&mut line);
    line.end();
    refuse(line.as_bytes(), Ending::Frame, out)
}

/// Writes the line of a settings file's refusal, and gives how the run ends then.
fn refuse_settings<O: Sink>(refusal: &SettingsRefusal, out: &mut O) -> Ending
    ensures { Refuses O.stands_for O.faults out.old out.new (settings_line (seen refusal.now)) Ending.Settings result }
{
    let mut line = Line::new();
    refusal.say(&mut line);
    refuse(line.as_bytes(), Ending::Settings, out)
}
