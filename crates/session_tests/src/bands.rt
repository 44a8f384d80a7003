//! What a session makes band by band or at once, whom it calls for it, and what it refuses.

ghost use Rattle.std.specs.Prelude.{◌≡◌, ◌<◌, ◌≤◌, ◌%◌, length};

use super::counting::{Done, Near, Whole, make_rows, numbers, open, put};
use plane_view::Shape;
use region_session::{OpenFault, Session, ShapeChanged, Tally};
use stage_core::{Base, Stage, Steps};
use std::alloc::{AllocError, Global};
use std::marker::Brand;
use std::sync::ledger::{Blank, Ledger};

/// Makes a plane of 40 rows and 48 columns, by bands of 16 rows or at once.
fn make_all<B: Base, S: Stage, L: Ledger>(
    session: &mut Session<B, S>,
    banded: bool,
    out: &mut [u16],
    blank: Blank,
) -> Result<(), AllocError>
    requires name { blank.name ≡ L.name }
    requires parts { blank.parts ≡ L.parts }
    requires some { 0 < blank.parts }
    requires long { length out.old ≡ 1920 }
{
    let mut work = Steps::<L>::new(blank);
    if banded {
        let (first, rest) = out.split_at_mut(768);
        let (second, third) = rest.split_at_mut(768);
        make_rows(session, 0, 16, first, &mut work)?;
        make_rows(session, 16, 32, second, &mut work)?;
        make_rows(session, 32, 40, third, &mut work)
    } else {
        make_rows(session, 0, 40, out, &mut work)
    }
}

/// Whether the session's plane is the base's, how many cells it says that it fetched and ran, and the calls and the
/// samples of the base, of the stages up to the second and of those from the third on.
fn develops(alloc: Global, cell: u32, banded: bool) -> Option<(bool, [u64; 2], [[u64; 2]; 3])>
    requires least { 16 ≤ cell }
    requires most { cell ≤ 512 }
    requires multiple { cell % 16 ≡ 0 }
{
    let done = [Done::new(), Done::new(), Done::new()];
    let mut session = open(alloc, 40, 48, cell, 0, 40, &done).ok()?;
    let mut out = vec![in alloc; 0u16; 1920].ok()?;
    make_all::<Whole<'_>, Near<'_>, Brand>(&mut session, banded, &mut out, Blank::new(1)).ok()?;
    let numbers = numbers(alloc, 1920).ok()?;
    let mut tally = Tally::new();
    session.close(&mut tally);
    let [source, lower, upper] = &done;
    Some((
        out.as_slice() == numbers.as_slice(),
        [tally.fetched(), tally.ran()],
        [source.counts(), lower.counts(), upper.counts()],
    ))
}

#[test]
fn each_run_writes_one_cell(rt: HostRuntime) {
    let by_cells = develops(rt.alloc(), 16, true);
    assert!(rt; by_cells == Some((true, [3, 87], [[3, 5760], [42, 9216], [45, 9600]])));
    let at_once = develops(rt.alloc(), 512, false);
    assert!(rt; at_once == Some((true, [1, 7], [[1, 1920], [2, 3840], [5, 9600]])));
}

/// The fault of a session of which the fifth stage takes so many rows.
fn fault(alloc: Global, most: u32) -> Option<OpenFault> {
    let done = [Done::new(), Done::new(), Done::new()];
    open(alloc, 40, 48, 16, 0, most, &done).err()
}

#[test]
fn refuses_shapes(rt: HostRuntime) {
    assert!(rt; fault(rt.alloc(), 39) == Some(OpenFault::Shape { stage: 5 }));
    assert!(rt; fault(rt.alloc(), 40).is_none());
}

/// The answer to a new stage in the place of stage `k`, which looks one pixel round itself and takes so many rows, and
/// how far the stage that is there then looks.
fn replaced(alloc: Global, k: u32, most: u32) -> Option<(Result<(), ShapeChanged>, u32)>
    requires least { 1 ≤ k }
    requires last { k ≤ 7 }
{
    let done = [Done::new(), Done::new(), Done::new()];
    let Ok(mut session) = open(alloc, 40, 48, 16, 0, 40, &done) else {
        return None;
    };
    let [_, _, upper] = &done;
    let stage = Near {
        by: 1,
        most,
        done: upper,
    };
    let answer = put(&mut session, k, stage)?;
    Some((answer, session.stage(k).by))
}

#[test]
fn replaces_stages(rt: HostRuntime) {
    assert!(rt; replaced(rt.alloc(), 7, 40) == Some((Ok(()), 1)));
    let had = Shape {
        rows: 40,
        cols: 48,
        planes: 1,
    };
    let refused = ShapeChanged { had, got: None };
    assert!(rt; replaced(rt.alloc(), 3, 39) == Some((Err(refused), 2)));
}
