//! A few cells under a budget.

ghost use Rattle.std.specs.Prelude.{◌≤◌, ◌^◌};

use super::*;
use std::alloc::{AllocError, Global};
use std::test::Fail;

/// A cell of plane 1, of 2 rows and 3 columns.
const CELL: Rect = Rect {
    top: 4,
    left: 8,
    bottom: 6,
    right: 11,
};

/// How many samples are kept of a cell that was put under a budget, and still after a change of its plane.
fn kept_under(alloc: Global, budget: u64) -> Result<[u64; 2], AllocError>
    requires { budget ≤ 2 ^ 30 }
{
    let samples = [1, 2, 3, 4, 5, 6];
    let mut tiles = Tiles::new(alloc, 2, budget)?;
    tiles.put(alloc, 1, 0, CELL, &View::new(CELL, 1, &samples))?;
    let before = tiles.total();
    tiles.change(1);
    Ok([before, tiles.total()])
}

#[test]
fn cells_are_kept_under_the_budget(rt: HostRuntime) -> Result<(), Fail> {
    let alloc = rt.alloc();
    assert_eq!(rt; kept_under(alloc, 6)?, [6, 6]);
    assert_eq!(rt; kept_under(alloc, 5)?, [0, 0]);
    Ok(())
}
