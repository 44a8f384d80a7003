//! A whole plane that is fetched, and stages that run over it in turn, with no session.

ghost use Rattle.std.specs.Prelude.{◌≡◌, ◌<◌};

use super::counting::{Done, Near, numbered};
use plane_view::Shape;
use stage_chain::{WholePlane, run_in_turn};
use stage_core::Steps;
use std::alloc::Global;
use std::marker::Brand;
use std::sync::ledger::{Blank, Ledger};

/// The shape of a plane of 40 rows and 48 columns.
const SHAPE: Shape = Shape {
    rows: 40,
    cols: 48,
    planes: 1,
};

/// The calls of the base and of the stages, and the samples that they wrote, where two stages that leave that plane as
/// it is make it in turn, and its rows are those of the base.
fn in_turn<L: Ledger>(alloc: Global, blank: Blank) -> Option<[[u64; 2]; 2]>
    requires name { blank.name ≡ L.name }
    requires parts { blank.parts ≡ L.parts }
    requires some { 0 < blank.parts }
{
    let (source, upper) = (Done::new(), Done::new());
    let mut base = numbered(alloc, 40, 48, &source).ok()?;
    let mut work = Steps::<L>::new(blank);
    let plane = WholePlane::fetch(alloc, &mut base, &mut work).ok()?;
    if plane.shape().rows > 40 {
        return None;
    }
    let stages = [
        Near {
            by: 0,
            most: 40,
            done: &upper,
        },
        Near {
            by: 2,
            most: 40,
            done: &upper,
        },
    ];
    let made = run_in_turn(&stages, plane, Vec::new(alloc), &mut work).ok()?;
    if made.shape() != SHAPE {
        return None;
    }
    if made.row(0, 1, 3) != [1, 2].as_slice() || made.row(39, 46, 48) != [1918, 1919].as_slice() {
        return None;
    }
    Some([source.counts(), upper.counts()])
}

#[test]
fn stages_run_in_turn(rt: HostRuntime) {
    let counts = in_turn::<Brand>(rt.alloc(), Blank::new(1));
    assert_eq!(rt; counts, Some([[1, 1920], [2, 3840]]));
}
