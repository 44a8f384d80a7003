//! What sessions keep under a budget, after bands and changes.

ghost use Rattle.std.specs.Prelude.{◌≡◌, ◌%◌, ◌<◌, ◌≤◌, ◌^◌, length};

use super::counting::{Done, Near, Whole, make_rect, make_rows, open, put};
use plane_view::Rect;
use region_session::Session;
use stage_core::{Base, Stage, Steps};
use std::alloc::{AllocError, Global};
use std::marker::Brand;
use std::sync::ledger::{Blank, Ledger};

/// How many cells a session fetched and ran, and how many samples it keeps.
fn told<B: Base, S: Stage>(session: &Session<B, S>) -> [u64; 3] {
    [session.fetched(), session.ran(), session.kept()]
}

/// Puts a stage that looks so many pixels round itself in the place of stage `k`, and tells how many changes there
/// were.
pub fn look<'a>(session: &mut Session<Whole<'a>, Near<'a>>, k: u32, by: u32, done: &'a Done) -> u64
    requires least { 1 ≤ k }
    requires last { k ≤ 7 }
    requires stages { length session.old.stages ≡ 7 }
    ensures stages { length session.new.stages ≡ 7 }
{
    let stage = Near { by, most: 40, done };
    let _ = put(session, k, stage);
    session.changes()
}

/// What is told once the whole last plane is made, and again after the last stage was replaced by another one, and by
/// an equal one.
fn told_thrice<'a, L: Ledger>(
    session: &mut Session<Whole<'a>, Near<'a>>,
    done: &'a Done,
    out: &mut [u16],
    blank: Blank,
) -> Result<[[u64; 3]; 3], AllocError>
    requires name { blank.name ≡ L.name }
    requires parts { blank.parts ≡ L.parts }
    requires some { 0 < blank.parts }
    requires stages { length session.old.stages ≡ 7 }
{
    let mut work = Steps::<L>::new(blank);
    let rows = session.shape().rows;
    make_rows(session, 0, rows, out, &mut work)?;
    let first = told(session);
    look(session, 7, 1, done);
    make_rows(session, 0, rows, out, &mut work)?;
    let other = told(session);
    look(session, 7, 1, done);
    make_rows(session, 0, rows, out, &mut work)?;
    Ok([first, other, told(session)])
}

/// The same of a session over a plane, with cells of a side and a budget.
fn kept(alloc: Global, rows: u32, cols: u32, cell: u32, budget: u64) -> Option<[[u64; 3]; 3]>
    requires some_rows { 1 ≤ rows }
    requires rows { rows ≤ 40 }
    requires some_cols { 1 ≤ cols }
    requires cols { cols ≤ 48 }
    requires least { 16 ≤ cell }
    requires most { cell ≤ 512 }
    requires multiple { cell % 16 ≡ 0 }
    requires budget { budget ≤ 2 ^ 30 }
{
    let done = [Done::new(), Done::new(), Done::new()];
    let Ok(mut session) = open(alloc, rows, cols, cell, budget, 40, &done) else {
        return None;
    };
    let mut out = vec![in alloc; 0u16; 1920].ok()?;
    told_thrice::<Brand>(&mut session, &done[2], &mut out, Blank::new(1)).ok()
}

#[test]
fn keeps_what_the_budget_allows(rt: HostRuntime) {
    let alloc = rt.alloc();
    let small = Some([[1, 7, 2048], [1, 8, 2304], [1, 8, 2304]]);
    assert!(rt; kept(alloc, 16, 16, 128, 1 << 28) == small);
    assert!(rt; kept(alloc, 16, 16, 16, 1 << 28) == small);
    assert!(rt; kept(alloc, 16, 16, 512, 1 << 28) == small);
    assert!(rt; kept(alloc, 16, 16, 128, 255) == Some([[1, 7, 0], [2, 14, 0], [3, 21, 0]]));
    assert!(rt;
        kept(alloc, 40, 48, 16, 1 << 28) == Some([[1, 63, 15360], [1, 72, 17280], [1, 72, 17280]])
    );
    assert!(rt;
        kept(alloc, 40, 48, 512, 1 << 28) == Some([[1, 7, 15360], [1, 8, 17280], [1, 8, 17280]])
    );
    assert!(rt; kept(alloc, 40, 48, 16, 0) == Some([[1, 63, 0], [2, 126, 0], [3, 189, 0]]));
}

/// How many changes there were, and what is told, after the last stage is replaced by another one, by one of another
/// shape, and by one like the first.
fn back_again<'a, L: Ledger>(
    session: &mut Session<Whole<'a>, Near<'a>>,
    done: &'a Done,
    out: &mut [u16],
    blank: Blank,
) -> Result<[(u64, [u64; 3]); 3], AllocError>
    requires name { blank.name ≡ L.name }
    requires parts { blank.parts ≡ L.parts }
    requires some { 0 < blank.parts }
    requires stages { length session.old.stages ≡ 7 }
{
    let mut work = Steps::<L>::new(blank);
    make_rows(session, 0, 16, out, &mut work)?;
    let other = look(session, 7, 1, done);
    make_rows(session, 0, 16, out, &mut work)?;
    let first = (other, told(session));
    let stage = Near {
        by: 2,
        most: 0,
        done,
    };
    let _ = put(session, 3, stage);
    make_rows(session, 0, 16, out, &mut work)?;
    let refused = (session.changes(), told(session));
    let same = look(session, 7, 0, done);
    make_rows(session, 0, 16, out, &mut work)?;
    Ok([first, refused, (same, told(session))])
}

/// The same over a plane of one cell.
fn back_again_kept(alloc: Global) -> Option<[(u64, [u64; 3]); 3]> {
    let done = [Done::new(), Done::new(), Done::new()];
    let Ok(mut session) = open(alloc, 16, 16, 16, 1 << 28, 40, &done) else {
        return None;
    };
    let mut out = vec![in alloc; 0u16; 256].ok()?;
    back_again::<Brand>(&mut session, &done[2], &mut out, Blank::new(1)).ok()
}

#[test]
fn former_stage_is_a_change(rt: HostRuntime) {
    let told = [(1, [1, 8, 2304]), (1, [1, 8, 2304]), (2, [1, 9, 2560])];
    assert!(rt; back_again_kept(rt.alloc()) == Some(told));
}

/// Makes the first cell of the last plane, then, after a change of the sixth stage, the first two, and tells what is
/// told then.
fn two_cells<'a, L: Ledger>(
    session: &mut Session<Whole<'a>, Near<'a>>,
    done: &'a Done,
    out: &mut [u16],
    blank: Blank,
) -> Result<[[u64; 3]; 2], AllocError>
    requires name { blank.name ≡ L.name }
    requires parts { blank.parts ≡ L.parts }
    requires some { 0 < blank.parts }
    requires stages { length session.old.stages ≡ 7 }
{
    let mut work = Steps::<L>::new(blank);
    let mut rect = Rect {
        top: 0,
        left: 0,
        bottom: 16,
        right: 16,
    };
    make_rect(session, rect, out, &mut work)?;
    let first = told(session);
    look(session, 6, 1, done);
    rect.right = 32;
    make_rect(session, rect, out, &mut work)?;
    Ok([first, told(session)])
}

/// The same under a budget of three cells, where the cell of plane 5 that is fresh is dropped before it is used; and
/// whether the samples are right.
fn dropped_in_use(alloc: Global) -> Option<([[u64; 3]; 2], bool)> {
    let done = [Done::new(), Done::new(), Done::new()];
    let Ok(mut session) = open(alloc, 40, 48, 16, 768, 40, &done) else {
        return None;
    };
    let mut out = vec![in alloc; 0u16; 512].ok()?;
    let told = two_cells::<Brand>(&mut session, &done[2], &mut out, Blank::new(1)).ok()?;
    let mut right = true;
    for i in 0..512usize {
        let place = (i / 32) * 48 + i % 32;
        right = right && usize::from(out[i]) == place;
    }
    Some((told, right))
}

#[test]
fn fresh_cell_is_dropped_in_use(rt: HostRuntime) {
    let told = [[1, 13, 768], [2, 50, 768]];
    assert!(rt; dropped_in_use(rt.alloc()) == Some((told, true)));
}
