//! Grids by the table, and a stage that makes the plane that it is given.

ghost use Rattle.std.specs.Prelude.{◌≡◌, ⊤, refl};
ghost use Rattle.stage_core.specs.Planes.{IsPart};

use super::*;
use plane_view::{Rect, Shape, TileMut, View};
use stage_core::{Stage, Steps};
use std::alloc::{AllocError, Global};
use std::sync::ledger::Ledger;
use std::test::Fail;

/// Makes the plane that it is given.
#[derive(PartialEq, Drop)]
struct Same;

impl Stage for Same {
    ghost apply = { λ _ P. P };

    ghost takes = { λ _ _. ⊤ };

    ghost shaped = { λ _ input. input };

    ghost needed = { λ _ _ rect. rect };

    fn shape(&self, input: Shape) -> Option<Shape> {
        Some(input)
    }

    fn need(&self, _input: Shape, rect: Rect) -> Rect {
        rect
    }

    fn run<L: Ledger>(
        &self,
        input: &View<'_>,
        _whole: Shape,
        out: &mut TileMut<'_>,
        work: &mut Steps<L>,
    ) {
        out.copy_from(input);
        work.tick();
    }

    ghost makes_shapes = { λ _ input is takes. is };

    ghost makes_planes = { λ _ input P shape takes is. is };

    ghost needs_part = { λ _ input rect is takes part. part };

    ghost local = { λ _ input rect is takes part P Q is_P is_Q agrees. agrees };

    ghost equal_alike = { λ _ _ _. record {
      inputs = λ input takes. takes;
      shapes = λ input. refl;
      needs = λ input rect. refl;
      meanings = λ P. refl;
    } };
}

fn rect(top: u32, left: u32, bottom: u32, right: u32) -> Rect
    ensures { result ≡ record { top = top; left = left; bottom = bottom; right = right } }
{
    Rect {
        top,
        left,
        bottom,
        right,
    }
}

#[test]
fn grids(rt: HostRuntime) {
    let cases = [
        (40, 48, 16, 9, 0, rect(0, 0, 16, 16)),
        (40, 48, 16, 9, 5, rect(16, 32, 32, 48)),
        (40, 48, 16, 9, 7, rect(32, 16, 40, 32)),
        (40, 48, 512, 1, 0, rect(0, 0, 40, 48)),
        (1, 17, 16, 2, 1, rect(0, 16, 1, 17)),
        (8192, 8192, 16, 262_144, 512, rect(16, 0, 32, 16)),
    ];
    for (rows, cols, side, count, k, cell) in cases {
        let shape = Shape {
            rows,
            cols,
            planes: 1,
        };
        if rows > 0 && rows <= 8192 && cols > 0 && cols <= 8192 && side >= 16 && side <= 512 {
            let grid = Grid::new(shape, side);
            assert_eq!(rt; grid.count(), count);
            if k < grid.count() {
                assert_eq!(rt; grid.rect(k), cell);
            }
        }
    }
}

/// The cells of a plane that a cell of the next one rests on.
fn cells_below(alloc: Global, upper: Rect) -> Result<Vec<u32>, AllocError>
    requires { IsPart upper (record { rows = 40; cols = 48; planes = 1 }) }
{
    let shape = Shape {
        rows: 40,
        cols: 48,
        planes: 1,
    };
    let cells = Grid::new(shape, 16).cells(alloc)?;
    below(alloc, &Same, shape, &[upper], &cells)
}

#[test]
fn belows(rt: HostRuntime) -> Result<(), Fail> {
    let inner = cells_below(rt.alloc(), rect(15, 15, 33, 33))?;
    assert!(rt; inner.as_slice() == [0, 1, 2, 3, 4, 5, 6, 7, 8].as_slice());
    let corner = cells_below(rt.alloc(), rect(0, 0, 16, 16))?;
    assert!(rt; corner.as_slice() == [0].as_slice());
    let last = cells_below(rt.alloc(), rect(32, 31, 40, 48))?;
    assert!(rt; last.as_slice() == [7, 8].as_slice());
    Ok(())
}

/// The stamps of four planes after changes of planes 2, 1 and 3.
fn stamps_after(alloc: Global) -> Result<[u64; 5], AllocError> {
    let mut stamps = Stamps::new(alloc, 3)?;
    stamps.change(2);
    stamps.change(1);
    stamps.change(3);
    Ok([
        stamps.now(0),
        stamps.now(1),
        stamps.now(2),
        stamps.now(3),
        stamps.changes(),
    ])
}

#[test]
fn stamps(rt: HostRuntime) -> Result<(), Fail> {
    assert_eq!(rt; stamps_after(rt.alloc())?, [0, 2, 2, 3, 3]);
    Ok(())
}
