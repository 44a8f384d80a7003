//! Tests of sessions over made frames: how many cells are fetched, run and kept.

ghost use Rattle.std.specs.Prelude.{◌≡◌, ◌%◌, ◌<◌, ◌≤◌, ◌^◌, length, IfSome, IfOk};
ghost use Rattle.dng_tags.specs.Facts.{IsFrame};
ghost use Rattle.dev_settings.specs.Settings.{standard_settings};
ghost use Rattle.developer.specs.Develop.{IsInForce};
ghost use Rattle.developer.specs.Sessions.{in_force};

use dev_settings::{Change, Settings};
use dev_stages::{DevStage, plan, stage_of};
use dng_tags::{Frame, read_frame};
use frame_make::{Make, make_frame};
use frame_segments::Segments;
use plane_view::Rect;
use region_session::Session;
use stage_core::{Base, Steps};
use std::alloc::{AllocError, Global};
use std::marker::Brand;
use std::sync::ledger::{Blank, Ledger};
use std::test::Fail;
use tone_table::Curve;

/// A made frame.
#[derive(Clone, Copy)]
pub enum Scene {
    /// 16 by 16 samples of 16 bits, with number 5.
    OneCell,
    /// 48 by 40 packed samples, with number 9.
    NineCells,
}

impl Scene {
    /// The bytes of the frame's file.
    pub fn file(self, alloc: Global) -> Result<Vec<u8>, AllocError>
        ensures short { IfOk result (λ file. length file.items ≤ 2 ^ 28) }
    {
        match self {
            Scene::OneCell => make_frame(alloc, 5, 16, 16, Make::Plain16),
            Scene::NineCells => make_frame(alloc, 9, 48, 40, Make::Packed12),
        }
    }
}

/// The side of the cells of a session, and its budget.
#[derive(Clone, Copy)]
pub struct Limits {
    pub cell: u32,
    pub budget: u32,
    ghost side: { (16 ≤ cell) × (cell ≤ 512) × (cell % 16 ≡ 0) },
    ghost room: { budget ≤ 2 ^ 30 },
}

/// The numbers of cells fetched and run, and of samples kept.
pub type Numbers = (u64, u64, u64);

/// What a session did and keeps.
fn numbers<B: Base>(session: &Session<B, DevStage>) -> Numbers {
    (session.fetched(), session.ran(), session.kept())
}

/// Makes the band of whole rows from a row on, appends its samples, and gives the row below it.
fn next_band<B: Base, L: Ledger>(
    alloc: Global,
    session: &mut Session<B, DevStage>,
    top: u32,
    out: &mut Vec<u16>,
    work: &mut Steps<L>,
) -> Option<u32>
    ensures stages { session.new.stages ≡ session.old.stages }
{
    let shape = session.shape();
    let bottom = shape.rows.min(top.saturating_add(session.side()));
    if bottom <= top {
        return None;
    }
    let rect = Rect {
        top,
        left: 0,
        bottom,
        right: shape.cols,
    };
    let count = (bottom - top) as usize * shape.cols as usize * shape.planes as usize;
    let mut samples = vec![in alloc; 0u16; count].ok()?;
    session.band(rect, &mut samples, work).ok()?;
    out.extend_from_slice(&samples).ok()?;
    Some(bottom)
}

/// Makes the whole last plane, band by band.
fn whole<B: Base, L: Ledger>(
    alloc: Global,
    session: &mut Session<B, DevStage>,
    blank: Blank,
) -> Option<Vec<u16>>
    requires name { blank.name ≡ L.name }
    requires parts { blank.parts ≡ L.parts }
    requires some { 0 < blank.parts }
    ensures stages { session.new.stages ≡ session.old.stages }
{
    let mut work = Steps::<L>::new(blank);
    let mut out = Vec::new(alloc);
    let rows = session.shape().rows;
    let mut top = 0;
    while top < rows {
        let bottom = next_band(alloc, session, top, &mut out, &mut work)?;
        if bottom <= top {
            return None;
        }
        top = bottom;
    }
    Some(out)
}

/// A session of a frame's stages under the standard settings.
pub fn open<'a>(
    alloc: Global,
    bytes: &'a [u8],
    frame: &Frame,
    limits: Limits,
) -> Option<Session<Segments<'a>, DevStage>>
    requires frame { IsFrame frame.now bytes.now }
    ensures in_force { IfSome result (λ session. IsInForce (in_force frame.now standard_settings session)) }
    ensures seven { IfSome result (λ session. length session.stages ≡ 7) }
{
    let Ok(segments) = Segments::open(alloc, bytes, frame) else {
        return None;
    };
    let Ok(stages) = plan(alloc, frame, &Settings::standard()) else {
        return None;
    };
    if stages.len() != 7 {
        return None;
    }
    Session::open(
        alloc,
        segments,
        stages,
        limits.cell,
        u64::from(limits.budget),
    )
    .ok()
}

/// Puts the root curve in the place of a session's last stage.
fn set_root<B: Base>(alloc: Global, frame: &Frame, session: &mut Session<B, DevStage>) -> Option<()>
    requires frame { (bytes : _) × IsFrame frame.now bytes }
    requires seven { length session.old.stages ≡ 7 }
    ensures seven { length session.new.stages ≡ 7 }
{
    let change = Change::Tone(Curve::Root);
    let mut settings = Settings::standard();
    settings.apply(&change);
    let (number, stage) = stage_of(alloc, frame, &settings, &change).ok()?;
    if number != 7 || session.changes() >= 1 << 40 {
        return None;
    }
    session.replace(number, stage).ok()
}

/// What a session did and keeps after each time that the whole plane was made, and the samples that were made first.
#[derive(Drop)]
struct Turns {
    numbers: Vec<Numbers>,
    image: Vec<u16>,
}

/// Makes the whole plane with the root curve.
fn with_root<B: Base>(
    alloc: Global,
    frame: &Frame,
    session: &mut Session<B, DevStage>,
) -> Option<Numbers>
    requires frame { (bytes : _) × IsFrame frame.now bytes }
    requires seven { length session.old.stages ≡ 7 }
    ensures seven { length session.new.stages ≡ 7 }
{
    set_root(alloc, frame, session)?;
    whole::<B, Brand>(alloc, session, Blank::new(1))?;
    Some(numbers(session))
}

/// Makes the whole plane, then again with the root curve, then again with the same curve.
fn in_turn(alloc: Global, file: &[u8], limits: Limits) -> Option<Turns>
    requires short { length file.now ≤ 2 ^ 28 }
{
    let Ok(frame) = read_frame(alloc, file) else {
        return None;
    };
    let mut session = open(alloc, file, &frame, limits)?;
    let image = whole::<Segments<'_>, Brand>(alloc, &mut session, Blank::new(1))?;
    let first = numbers(&session);
    let second = with_root(alloc, &frame, &mut session)?;
    let third = with_root(alloc, &frame, &mut session)?;
    let numbers = vec![in alloc; first, second, third].ok()?;
    Some(Turns { numbers, image })
}

/// The numbers of cells fetched and run and of samples kept, after each of the three times, under some limits.
type Turn = (Limits, [Numbers; 3]);

/// Whether the numbers are those of a turn, and the samples that were made first are these.
fn comes_out(alloc: Global, scene: Scene, turn: &Turn, image: &[u16]) -> Option<bool> {
    let file = scene.file(alloc).ok()?;
    let turns = in_turn(alloc, &file, turn.0)?;
    Some(turns.numbers.as_slice() == turn.1.as_slice() && turns.image.as_slice() == image)
}

/// The samples of the whole plane, made at once.
fn image_of(alloc: Global, scene: Scene) -> Option<Vec<u16>> {
    let limits = Limits {
        cell: 512,
        budget: 0,
    };
    let file = scene.file(alloc).ok()?;
    Some(in_turn(alloc, &file, limits)?.image)
}

/// How many samples the whole plane has, where each turn comes out.
fn all_come_out(alloc: Global, scene: Scene, turns: &[Turn]) -> Option<usize> {
    let image = image_of(alloc, scene)?;
    for turn in turns {
        if !comes_out(alloc, scene, turn, &image)? {
            return None;
        }
    }
    Some(image.len())
}

/// A whole plane in one cell of the frame's, kept or not.
fn one_cell_turns() -> [Turn; 2] {
    [
        (
            Limits {
                cell: 128,
                budget: 1 << 28,
            },
            [(1, 7, 4608), (1, 8, 5376), (1, 8, 5376)],
        ),
        (
            Limits {
                cell: 128,
                budget: 255,
            },
            [(1, 7, 0), (2, 14, 0), (3, 21, 0)],
        ),
    ]
}

/// Cells of 16 and of 512, kept or not.
fn nine_cells_turns() -> [Turn; 3] {
    [
        (
            Limits {
                cell: 16,
                budget: 0,
            },
            [(3, 87, 0), (6, 174, 0), (9, 261, 0)],
        ),
        (
            Limits {
                cell: 16,
                budget: 1 << 28,
            },
            [(1, 63, 34_560), (1, 72, 40_320), (1, 72, 40_320)],
        ),
        (
            Limits {
                cell: 512,
                budget: 1 << 28,
            },
            [(1, 7, 34_560), (1, 8, 40_320), (1, 8, 40_320)],
        ),
    ]
}

#[test]
fn numbers_of_cells(rt: HostRuntime) -> Result<(), Fail> {
    let alloc = rt.alloc();
    assert_eq!(rt;
        all_come_out(alloc, Scene::OneCell, &one_cell_turns()),
        Some(768)
    );
    assert_eq!(rt;
        all_come_out(alloc, Scene::NineCells, &nine_cells_turns()),
        Some(5760)
    );
    Ok(())
}
