//! Cells that meet rectangles.

ghost use Rattle.std.specs.Prelude.{◌≡◌, ◌<◌, ◌≤◌, ◌^◌, length, OnOk};
ghost use Rattle.std.specs.List.{All};
ghost use Rattle.plane_view.specs.declared.Rect.{Rect};
ghost use Rattle.plane_view.specs.declared.Shape.{Shape};
ghost use Rattle.plane_view.specs.Rectangles.{LiesIn, whole_rect};
ghost use Rattle.stage_core.specs.Planes.{IsPart};
ghost use Rattle.stage_deps.specs.Cells.{cells_at, meeting, meets, meets_one, no_rect};

use plane_view::Rect;
use std::alloc::AllocError;

fn meets(a: &Rect, b: &Rect) -> bool
    ensures { result ≡ meets a.now b.now }
{
    a.top.max(b.top) < a.bottom.min(b.bottom) && a.left.max(b.left) < a.right.min(b.right)
}

fn meets_one(cell: &Rect, rects: &[Rect]) -> bool
    ensures { result ≡ meets_one rects.now cell.now }
{
    rects.iter().any(|rect| meets(cell, rect))
}

/// Whether a cell meets one of the rectangles, which all lie in `around`.
pub(crate) fn meets_within(cell: &Rect, around: &Rect, rects: &[Rect]) -> bool
    requires { All (λ rect. LiesIn rect around.now) rects.now }
    ensures { result ≡ meets_one rects.now cell.now }
{
    meets(cell, around) && meets_one(cell, rects)
}

/// The numbers, rising, of the cells that meet one of the rectangles, in place of what `numbers` had.
///
/// # Errors
///
/// Where `numbers` has no memory for them.
pub fn meeting_cells(
    cells: &[Rect],
    rects: &[Rect],
    numbers: &mut Vec<u32>,
) -> Result<(), AllocError>
    requires { length cells.now < 2 ^ 32 }
    ensures { OnOk result (numbers.new.items ≡ meeting cells.now rects.now) }
{
    numbers.clear();
    let around = hull(rects);
    for i in 0..cells.len() {
        if meets_within(&cells[i], &around, rects) {
            numbers.push(i as u32)?;
        }
    }
    Ok(())
}

/// The rectangles of the cells of these numbers, in place of what `rects` had.
///
/// # Errors
///
/// Where `rects` has no memory for them.
pub fn rects_of(cells: &[Rect], numbers: &[u32], rects: &mut Vec<Rect>) -> Result<(), AllocError>
    requires { All (λ k. k < length cells.now) numbers.now }
    ensures { OnOk result (rects.new.items ≡ cells_at cells.now numbers.now) }
{
    rects.clear();
    for k in numbers {
        rects.push(cells[*k as usize])?;
    }
    Ok(())
}

/// The least rectangle that contains all of these, edge by edge; of none a rectangle with no pixel.
pub fn hull(rects: &[Rect]) -> Rect
    ensures all { All (λ rect. LiesIn rect result) rects.now }
    ensures least { (outer : Rect) → 1 ≤ length rects.now → All (λ rect. LiesIn rect outer) rects.now
        → LiesIn result outer }
    ensures none { length rects.now ≡ 0 → result ≡ no_rect }
    ensures part { (s : Shape) → All (λ rect. IsPart rect s) rects.now → LiesIn result (whole_rect s.rows s.cols) }
{
    let Some(first) = rects.first() else {
        return Rect {
            top: 0,
            left: 0,
            bottom: 0,
            right: 0,
        };
    };
    let mut hull = *first;
    for rect in rects {
        hull = Rect {
            top: hull.top.min(rect.top),
            left: hull.left.min(rect.left),
            bottom: hull.bottom.max(rect.bottom),
            right: hull.right.max(rect.right),
        };
    }
    hull
}
