//! What cells rest on.

ghost use Rattle.std.specs.Prelude.{◌≡◌, ◌<◌, ◌^◌, length, map, IfOk, OnOk};
ghost use Rattle.std.specs.List.{All};
ghost use Rattle.std.specs.List.Sorted.{IsStrictlyIncreasing};
ghost use Rattle.plane_view.specs.Shapes.{IsShape};
ghost use Rattle.stage_core.specs.Planes.{IsPart};
ghost use Rattle.stage_deps.specs.Cells.{meeting};

use crate::meeting_cells;
use plane_view::{Rect, Shape};
use stage_core::Stage;
use std::alloc::{AllocError, Global};

/// The numbers, rising, of the rectangles of `lower`, cells of the plane below a stage, that meet what the stage needs
/// for one of the rectangles of `upper`.
///
/// # Errors
///
/// Where there is no memory.
pub fn below<S: Stage>(
    alloc: Global,
    stage: &S,
    input: Shape,
    upper: &[Rect],
    lower: &[Rect],
) -> Result<Vec<u32>, AllocError>
    requires shape { IsShape input }
    requires takes { S.takes stage.now input }
    requires upper { All (λ rect. IsPart rect (S.shaped stage.now input)) upper.now }
    requires lower { length lower.now < 2 ^ 32 }
    ensures numbers { IfOk result
        (λ numbers. numbers.items ≡ meeting lower.now (map (S.needed stage.now input) upper.now)) }
    ensures rising { IfOk result (λ numbers. IsStrictlyIncreasing numbers.items) }
{
    let mut needs = Vec::new(alloc);
    needs_of(stage, input, upper, &mut needs)?;
    let mut numbers = Vec::new(alloc);
    meeting_cells(lower, &needs, &mut numbers)?;
    Ok(numbers)
}

/// What a stage needs for each of the rectangles, in place of what `needs` had.
///
/// # Errors
///
/// Where `needs` has no memory for it.
pub fn needs_of<S: Stage>(
    stage: &S,
    input: Shape,
    rects: &[Rect],
    needs: &mut Vec<Rect>,
) -> Result<(), AllocError>
    requires shape { IsShape input }
    requires takes { S.takes stage.now input }
    requires rects { All (λ rect. IsPart rect (S.shaped stage.now input)) rects.now }
    ensures { OnOk result (needs.new.items ≡ map (S.needed stage.now input) rects.now) }
{
    needs.clear();
    for rect in rects {
        needs.push(stage.need(input, *rect))?;
    }
    Ok(())
}
