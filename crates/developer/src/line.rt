//! The answer to a line of the script.

ghost use Rattle.std.specs.Prelude.{◌≡◌, ◌+◌, ◌^◌, ◌<◌, ◌≤◌, ◌⊎◌, length, option_map, IfErr, IfOk, IfSome, OnOk};
ghost use Rattle.stage_chain.specs.Chains.{whole_of};
ghost use Rattle.dev_settings.specs.Ranges.{ChangeInRange, CommandInRange};
ghost use Rattle.developer.specs.Answered.{Appended, AreMade, LeftAfter, LeftBy, MadeUpTo};
ghost use Rattle.developer.specs.Develop.{IsInForce};
ghost use Rattle.dev_stages.specs.Members.{apply_of};
ghost use Rattle.developer.specs.Replies.{answer_of, bands_for, bands_in, command_answer, command_bands, line_answer};
ghost use Rattle.developer.specs.Replies.{line_bands, no_command, part_of, region_reply, set_answer, stat_reply};
ghost use Rattle.developer.specs.Sessions.{cells_of_bands, in_force};
ghost use Rattle.developer.specs.inner.Writes.{Writes};

use crate::changes::make_change;
use crate::fault::AnswerFault;
use crate::regions::{part, write_image};
use crate::writing::{Cause, Stop, write_reply};
use dev_settings::{Change, Command, Format, LineFault, Settings, line_text};
use dev_stages::{DevStage, PlanFault};
use dng_tags::Frame;
use raw_io::Sink;
use region_session::Session;
use stage_core::{Base, Steps};
use std::alloc::Global;
use std::sync::ledger::Ledger;
use text_line::Line;

/// Answers a line of a script, under the settings in force, over a session of the stages that they give the frame.
///
/// A region is written as its bands in order, each the rows that lie in one row of the last plane's cells. An accepted
/// `set` replaces the stage that it touches. Any other line, and one that is refused, leaves settings and session as
/// they are. Each cell that is fetched or run counts one step of `work`.
///
/// # Errors
///
/// `Write` only where the sink's count of faults rose; `Memory` where there is none. Then a prefix of the answer was
/// written, and of its bands the first ones were made.
#[tactic(auto, unfolding(crate::specs::Replies::answer_of, crate::specs::Replies::bands_for))]
pub fn answer<B: Base, O: Sink, L: Ledger>(
    alloc: Global,
    frame: &Frame,
    settings: &mut Settings,
    session: &mut Session<B, DevStage>,
    line: &[u8],
    out: &mut O,
    work: &mut Steps<L>,
) -> Result<(), AnswerFault>
    requires in_force { IsInForce (in_force frame.now settings.old session.old) }
    requires few { session.old.stamps.changes < 2 ^ 40 }
    ensures written { Appended O.stands_for O.faults out.old out.new
        (answer_of (in_force frame.now settings.old session.old) line.now).bytes result }
    ensures state { OnOk result (in_force frame.now settings.new session.new
        ≡ (answer_of (in_force frame.now settings.old session.old) line.now).state) }
    ensures work { OnOk result (work.new ≡ work.old + cells_of_bands session.old
        (bands_for (in_force frame.now settings.old session.old) line.now)) }
    ensures left { IfErr result (λ fault. LeftBy fault (in_force frame.now settings.old session.old) line.now
        (in_force frame.now settings.new session.new) work.old work.new) }
    ensures in_force { IsInForce (in_force frame.now settings.new session.new) }
    ensures few { session.new.stamps.changes ≤ session.old.stamps.changes + 1 }
{
    answer_text(alloc, frame, settings, session, line_text(line), out, work)?;
    Ok(())
}

/// Answers a line by its text, and gives the number of bytes of the answer.
#[tactic(auto, unfolding(crate::specs::Replies::line_answer))]
fn answer_text<B: Base, O: Sink, L: Ledger>(
    alloc: Global,
    frame: &Frame,
    settings: &mut Settings,
    session: &mut Session<B, DevStage>,
    text: Option<&[u8]>,
    out: &mut O,
    work: &mut Steps<L>,
) -> Result<u64, Stop>
    requires in_force { IsInForce (in_force frame.now settings.old session.old) }
    requires few { session.old.stamps.changes < 2 ^ 40 }
    ensures writes { Writes O.stands_for O.faults out.old out.new
        (line_answer (in_force frame.now settings.old session.old) (option_map (λ text. text.now) text.entry)).bytes
        (λ n. n) result }
    ensures state { OnOk result (in_force frame.now settings.new session.new
        ≡ (line_answer (in_force frame.now settings.old session.old)
        (option_map (λ text. text.now) text.entry)).state) }
    ensures work { OnOk result (work.new ≡ work.old
        + cells_of_bands session.old (line_bands (in_force frame.now settings.old session.old)
        (option_map (λ text. text.now) text.entry))) }
    ensures left { IfErr result (λ stop. LeftAfter stop.cause (in_force frame.now settings.old session.old)
        (line_answer (in_force frame.now settings.old session.old) (option_map (λ text. text.now) text.entry))
        (line_bands (in_force frame.now settings.old session.old) (option_map (λ text. text.now) text.entry))
        (in_force frame.now settings.new session.new) work.old work.new) }
    ensures in_force { IsInForce (in_force frame.now settings.new session.new) }
    ensures few { session.new.stamps.changes ≤ session.old.stamps.changes + 1 }
{
    match text {
        Some(text) => answer_command(
            alloc,
            frame,
            settings,
            session,
            Command::read(text),
            out,
            work,
        ),
        None => write_reply(b"no line\n", out),
    }
}

/// Answers a command, and gives the number of bytes of the answer.
#[tactic(auto, unfolding(crate::specs::Replies::command_answer))]
fn answer_command<B: Base, O: Sink, L: Ledger>(
    alloc: Global,
    frame: &Frame,
    settings: &mut Settings,
    session: &mut Session<B, DevStage>,
    command: Result<Command, LineFault>,
    out: &mut O,
    work: &mut Steps<L>,
) -> Result<u64, Stop>
    requires in_range { IfOk command CommandInRange }
    requires in_force { IsInForce (in_force frame.now settings.old session.old) }
    requires few { session.old.stamps.changes < 2 ^ 40 }
    ensures writes { Writes O.stands_for O.faults out.old out.new
        (command_answer (in_force frame.now settings.old session.old) command).bytes (λ n. n) result }
    ensures state { OnOk result (in_force frame.now settings.new session.new
        ≡ (command_answer (in_force frame.now settings.old session.old) command).state) }
    ensures work { OnOk result (work.new ≡ work.old + cells_of_bands session.old
        (command_bands (in_force frame.now settings.old session.old) command)) }
    ensures left { IfErr result (λ stop. LeftAfter stop.cause (in_force frame.now settings.old session.old)
        (command_answer (in_force frame.now settings.old session.old) command)
        (command_bands (in_force frame.now settings.old session.old) command)
        (in_force frame.now settings.new session.new) work.old work.new) }
    ensures in_force { IsInForce (in_force frame.now settings.new session.new) }
    ensures few { session.new.stamps.changes ≤ session.old.stamps.changes + 1 }
{
    match command {
        Ok(Command::Region { x, y, w, h, format }) => {
            answer_region(alloc, session, x, y, w, h, format, out, work)
        }
        Ok(Command::Set(change)) => answer_set(alloc, frame, settings, session, &change, out),
        Ok(Command::Stat) => answer_stat(session, out),
        Err(fault) => refuse_line(fault, out),
    }
}

/// Writes the reply to a region of `w` columns from `x` and `h` rows from `y`, and makes its bands.
fn answer_region<B: Base, O: Sink, L: Ledger>(
    alloc: Global,
    session: &mut Session<B, DevStage>,
    x: u32,
    y: u32,
    w: u32,
    h: u32,
    format: Format,
    out: &mut O,
    work: &mut Steps<L>,
) -> Result<u64, Stop>
    requires planes { (whole_of apply_of session.old.stages session.old.plane).planes ≡ 3 }
    ensures writes { Writes O.stands_for O.faults out.old out.new
        (region_reply (whole_of apply_of session.old.stages session.old.plane) format
        (part_of (whole_of apply_of session.old.stages session.old.plane) x y w h)) (λ n. n) result }
    ensures made { OnOk result (AreMade session.old session.new
        (bands_in session.old.side (part_of (whole_of apply_of session.old.stages session.old.plane) x y w h)) work.old
        work.new) }
    ensures left { IfErr result (λ stop. MadeUpTo stop.cause session.old session.new
        (bands_in session.old.side (part_of (whole_of apply_of session.old.stages session.old.plane) x y w h)) work.old
        work.new) }
{
    match part(session, x, y, w, h) {
        Some(rect) => write_image(alloc, session, rect, format, out, work),
        None => write_reply(b"no region\n", out),
    }
}

/// Makes a change of settings, and writes the reply to it.
fn answer_set<B: Base, O: Sink>(
    alloc: Global,
    frame: &Frame,
    settings: &mut Settings,
    session: &mut Session<B, DevStage>,
    change: &Change,
    out: &mut O,
) -> Result<u64, Stop>
    requires in_force { IsInForce (in_force frame.now settings.old session.old) }
    requires in_range { ChangeInRange change.now }
    requires few { session.old.stamps.changes < 2 ^ 40 }
    ensures writes { Writes O.stands_for O.faults out.old out.new
        (set_answer (in_force frame.now settings.old session.old) change.now).bytes (λ n. n) result }
    ensures state { OnOk result (in_force frame.now settings.new session.new
        ≡ (set_answer (in_force frame.now settings.old session.old) change.now).state) }
    ensures left { IfErr result (λ stop.
        in_force frame.now settings.new session.new ≡ in_force frame.now settings.old session.old
        ⊎ in_force frame.now settings.new session.new
        ≡ (set_answer (in_force frame.now settings.old session.old) change.now).state) }
    ensures in_force { IsInForce (in_force frame.now settings.new session.new) }
    ensures few { session.new.stamps.changes ≤ session.old.stamps.changes + 1 }
{
    match make_change(alloc, frame, settings, session, change) {
        Ok(()) => write_reply(b"ok\n", out),
        Err(PlanFault::Matrix) => write_reply(b"no matrix\n", out),
        Err(PlanFault::Levels) => write_reply(b"no levels\n", out),
        Err(PlanFault::Memory) => Err(Stop {
            written: 0,
            cause: Cause::Memory,
        }),
    }
}

/// Writes the numbers of a session.
fn answer_stat<B: Base, O: Sink>(session: &Session<B, DevStage>, out: &mut O) -> Result<u64, Stop>
    ensures { Writes O.stands_for O.faults out.old out.new (stat_reply session.now) (λ n. n) result }
{
    let mut line = Line::new();
    line.push(b"stat");
    line.push_field(session.fetched());
    line.push_field(session.ran());
    line.push_field(session.kept());
    line.push_field(session.budget());
    line.end();
    write_reply(line.as_bytes(), out)
}

/// Writes the reply to a line that is no command.
fn refuse_line<O: Sink>(fault: LineFault, out: &mut O) -> Result<u64, Stop>
    ensures { Writes O.stands_for O.faults out.old out.new (no_command fault) (λ n. n) result }
{
    let reply: &[u8] = match fault {
        LineFault::Word => b"no word\n",
        LineFault::Key => b"no key\n",
        LineFault::Value => b"no value\n",
        LineFault::Region => b"no region\n",
    };
    write_reply(reply, out)
}
