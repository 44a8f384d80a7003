//! Tests of scripts with `stat` lines over made frames: what `run` tells, its tally, and that it writes what `answer`
//! does.

ghost use Rattle.std.specs.Prelude.{◌≡◌, ◌<◌, ◌≤◌, ◌^◌, length};
ghost use Rattle.dev_settings.specs.Settings.{standard_settings};
ghost use Rattle.developer.specs.Develop.{IsInForce};
ghost use Rattle.developer.specs.Sessions.{in_force};

use super::cells::{Limits, Numbers, Scene, open};
use super::outside::{Outside, ROOM};
use dev_settings::{Settings, number, split_line};
use dev_stages::DevStage;
use developer::{Status, answer};
use dng_tags::{Frame, read_frame};
use frame_segments::Segments;
use raw_io::MemSink;
use region_session::Session;
use stage_core::{Base, Steps};
use std::alloc::Global;
use std::marker::Brand;
use std::sync::ledger::{Blank, Ledger};
use std::test::Fail;

/// A script over a frame with cells of a side under a budget, what is written of it but for images, and the tally.
#[derive(Clone, Copy)]
pub struct Row {
    pub scene: Scene,
    words: &'static [&'static str],
    limits: Limits,
    pub script: &'static [u8],
    text: &'static [u8],
    tally: Numbers,
}

/// The row of a frame of one cell.
pub fn one_cell() -> Row {
    Row {
        scene: Scene::OneCell,
        words: &["f.dng"],
        limits: Limits {
            cell: 128,
            budget: 1 << 28,
        },
        script: b"region 0 0 16 16 ppm\nstat\nset tone root\nregion 0 0 16 16 ppm\nstat\n\
                  set tone root\nregion 0 0 16 16 ppm\nstat\n",
        text: b"stat 1 7 4608 268435456\nok\nstat 1 8 5376 268435456\nok\nstat 1 8 5376 268435456\n",
        tally: (1, 8, 5376),
    }
}

fn small_budget() -> Row {
    Row {
        words: &["f.dng", "--budget", "255"],
        limits: Limits {
            cell: 128,
            budget: 255,
        },
        script: b"region 0 0 16 16 ppm\nstat\nregion 0 0 16 16 ppm\nstat",
        text: b"stat 1 7 0 255\nstat 2 14 0 255\n",
        tally: (2, 14, 0),
        ..one_cell()
    }
}

/// The whole plane of nine cells, once.
fn nine_cells() -> Row {
    Row {
        scene: Scene::NineCells,
        words: &["f.dng", "--cell", "16"],
        limits: Limits {
            cell: 16,
            budget: 1 << 28,
        },
        script: b"region 0 0 48 40 ppm\nstat\n",
        text: b"stat 1 63 34560 268435456\n",
        tally: (1, 63, 34_560),
    }
}

fn large_cells() -> Row {
    Row {
        words: &["f.dng", "--cell", "512"],
        limits: Limits {
            cell: 512,
            budget: 1 << 28,
        },
        text: b"stat 1 7 34560 268435456\n",
        tally: (1, 7, 34_560),
        ..nine_cells()
    }
}

fn no_budget() -> Row {
    Row {
        words: &["f.dng", "--cell", "16", "--budget", "0"],
        limits: Limits {
            cell: 16,
            budget: 0,
        },
        text: b"stat 3 87 0 0\n",
        tally: (3, 87, 0),
        ..nine_cells()
    }
}

/// The number of bytes of the image that a line announces.
fn image_length(line: &[u8]) -> Option<usize> {
    if !line.starts_with(b"image ") {
        return None;
    }
    Some(number(line.get(6..)?)? as usize)
}

/// What was written but for images and the lines before them.
fn texts(alloc: Global, written: &[u8]) -> Option<Vec<u8>> {
    let mut texts = Vec::new(alloc);
    let mut rest = written;
    for _ in 0..written.len() {
        let Some((line, after)) = split_line(rest) else {
            break;
        };
        rest = match image_length(line) {
            Some(length) => after.get(length..)?,
            None => {
                texts.extend_from_slice(line).ok()?;
                texts.push(b'\n').ok()?;
                after
            }
        };
    }
    Some(texts)
}

/// What a run wrote, and its tally.
#[derive(Drop)]
struct Outcome {
    written: Vec<u8>,
    tally: Numbers,
}

/// Runs a row's script to its end.
fn ran(alloc: Global, file: &[u8], row: &Row) -> Option<Outcome> {
    let mut outside = Outside::new(alloc, file, row.script).ok()?;
    if outside.run(alloc, row.words) != Ok(Status::Done) {
        return None;
    }
    Some(Outcome {
        written: outside.out.bytes().to_vec(alloc).ok()?,
        tally: (
            outside.tally.fetched(),
            outside.tally.ran(),
            outside.tally.kept(),
        ),
    })
}

/// Answers each line of a script.
fn answer_lines<B: Base, L: Ledger>(
    alloc: Global,
    frame: &Frame,
    session: &mut Session<B, DevStage>,
    script: &[u8],
    out: &mut MemSink,
    blank: Blank,
) -> Option<()>
    requires name { blank.name ≡ L.name }
    requires parts { blank.parts ≡ L.parts }
    requires some { 0 < blank.parts }
    requires in_force { IsInForce (in_force frame.now standard_settings session.old) }
{
    let mut settings = Settings::standard();
    let mut work = Steps::<L>::new(blank);
    let mut rest = script;
    while !rest.is_empty() {
        let (line, after) = split_line(rest).unwrap_or((rest, &[]));
        if after.len() >= rest.len() || session.changes() >= 1 << 40 {
            return None;
        }
        answer(alloc, frame, &mut settings, session, line, out, &mut work).ok()?;
        rest = after;
    }
    Some(())
}

/// Whether `answer` writes this, line by line of a row's script.
fn answered(alloc: Global, file: &[u8], row: &Row, written: &[u8]) -> Option<bool>
    requires short { length file.now ≤ 2 ^ 28 }
{
    let Ok(frame) = read_frame(alloc, file) else {
        return None;
    };
    let mut session = open(alloc, file, &frame, row.limits)?;
    let mut out = MemSink::new(alloc, ROOM).ok()?;
    answer_lines::<Segments<'_>, Brand>(
        alloc,
        &frame,
        &mut session,
        row.script,
        &mut out,
        Blank::new(1),
    )?;
    Some(out.bytes() == written)
}

/// Whether what was written is a row's text, but for images.
fn has_text(alloc: Global, row: &Row, written: &[u8]) -> Option<bool> {
    Some(texts(alloc, written)?.as_slice() == row.text)
}

/// What a row's script writes over a file, where it and the tally are those of the row, and `answer` writes the same.
fn comes_out(alloc: Global, file: &[u8], row: &Row) -> Option<Vec<u8>>
    requires short { length file.now ≤ 2 ^ 28 }
{
    let outcome = ran(alloc, file, row)?;
    let written = outcome.written;
    if outcome.tally == row.tally
        && has_text(alloc, row, &written)?
        && answered(alloc, file, row, &written)?
    {
        Some(written)
    } else {
        None
    }
}

/// What a row's script writes, where it comes out.
fn written_by(alloc: Global, row: &Row) -> Option<Vec<u8>> {
    let file = row.scene.file(alloc).ok()?;
    comes_out(alloc, &file, row)
}

/// How many bytes a row's script writes, where it comes out.
fn length_of(alloc: Global, row: &Row) -> Option<usize> {
    Some(written_by(alloc, row)?.len())
}

/// Whether two rows come out, and write the same image of `count` bytes first.
fn alike(alloc: Global, one: &Row, other: &Row, count: usize) -> Option<bool> {
    let one = written_by(alloc, one)?;
    let other = written_by(alloc, other)?;
    Some(one.get(..count)? == other.get(..count)?)
}

/// Three images of 16 by 16 pixels with heads of 15 bytes; two with the smaller budget.
#[test]
fn one_cell_a_plane(rt: HostRuntime) -> Result<(), Fail> {
    let alloc = rt.alloc();
    assert_eq!(rt;
        length_of(alloc, &one_cell()),
        Some(3 * (11 + 15 + 1536) + 24 + 3 + 24 + 3 + 24)
    );
    assert_eq!(rt;
        length_of(alloc, &small_budget()),
        Some(2 * (11 + 15 + 1536) + 15 + 16)
    );
    Ok(())
}

/// An image of 48 by 40 pixels, whatever the cells and the budget.
#[test]
fn nine_cells_a_plane(rt: HostRuntime) -> Result<(), Fail> {
    let alloc = rt.alloc();
    let image = 12 + 15 + 11_520;
    assert_eq!(rt;
        alike(alloc, &nine_cells(), &large_cells(), image),
        Some(true)
    );
    assert_eq!(rt;
        alike(alloc, &nine_cells(), &no_budget(), image),
        Some(true)
    );
    Ok(())
}
