//! A stage over a small plane: what it makes of a rectangle, and each rectangle by itself against the whole.

ghost use Rattle.std.specs.Prelude.{◌≡◌, ◌<◌, ◌≤◌, ◌*◌, IsTrue, IfSome};
ghost use Rattle.plane_view.specs.Rectangles.{area_of};
ghost use Rattle.plane_view.specs.Shapes.{IsShape};
ghost use Rattle.stage_core.specs.Planes.{IsPart};

use plane_view::{Rect, Shape, TileMut, View};
use stage_core::{Stage, Steps};
use std::marker::Brand;
use std::sync::ledger::{Blank, Ledger};

/// A rectangle.
pub fn rect(top: u32, left: u32, bottom: u32, right: u32) -> Rect
    ensures { result ≡ record { top = top; left = left; bottom = bottom; right = right } }
{
    Rect {
        top,
        left,
        bottom,
        right,
    }
}

/// A shape.
pub fn shape(rows: u32, cols: u32, planes: u32) -> Shape
    ensures { result ≡ record { rows = rows; cols = cols; planes = planes } }
{
    Shape { rows, cols, planes }
}

/// Whether a shape is within the limits.
pub fn is_shape(shape: Shape) -> bool
    ensures { IsTrue result → IsShape shape }
{
    let Shape { rows, cols, planes } = shape;
    0 < rows && rows <= 8192 && 0 < cols && cols <= 8192 && 0 < planes && planes <= 3
}

/// Whether a rectangle has pixels, and lies in a plane of this shape.
fn is_part(rect: Rect, shape: Shape) -> bool
    ensures { IsTrue result → IsPart rect shape }
{
    rect.top < rect.bottom && rect.left < rect.right && shape.rect().contains(&rect)
}

/// Runs a stage over a rectangle, from no more of the plane than it needs. False: the shape is refused, or a size is
/// wrong.
fn develop<S: Stage, L: Ledger>(
    stage: &S,
    plane: &[u16],
    shape: Shape,
    rect: Rect,
    out: &mut [u16],
    blank: Blank,
) -> bool
    requires name { blank.name ≡ L.name }
    requires parts { blank.parts ≡ L.parts }
    requires some { 0 < blank.parts }
{
    if !is_shape(shape) {
        return false;
    }
    let Some(made) = stage.shape(shape) else {
        return false;
    };
    if !is_part(rect, made) {
        return false;
    }
    let count = u64::from(shape.planes);
    if plane.len() as u64 != shape.rect().area().saturating_mul(count) {
        return false;
    }
    if out.len() as u64 != rect.area().saturating_mul(u64::from(made.planes)) {
        return false;
    }
    let need = stage.need(shape, rect);
    let whole = View::new(shape.rect(), shape.planes, plane);
    let mut work = Steps::<L>::new(blank);
    let mut tile = TileMut::new(rect, made.planes, out);
    stage.run(&whole.sub(need), shape, &mut tile, &mut work);
    true
}

/// How many samples a plane or a part of one has here at most.
const SPACE: usize = 128;

/// How many samples a rectangle has in so many planes, if there is space for them.
fn samples_of(rect: Rect, planes: u32) -> Option<usize>
    ensures count { IfSome result (λ count. count ≡ area_of rect * planes) }
    ensures space { IfSome result (λ count. count ≤ 128) }
{
    let count = rect.area().saturating_mul(u64::from(planes));
    if count <= SPACE as u64 {
        Some(count as usize)
    } else {
        None
    }
}

/// Whether a stage makes these samples of a rectangle of a plane.
pub fn makes<S: Stage>(stage: &S, plane: &[u16], shape: Shape, rect: Rect, want: &[u16]) -> bool {
    let mut out = [0; SPACE];
    let count = want.len();
    if count > SPACE {
        return false;
    }
    let out = &mut out[..count];
    develop::<S, Brand>(stage, plane, shape, rect, out, Blank::new(1)) && &*out == want
}

/// The pixel of three samples that a stage makes at a place of a plane, and of no more than that; `None` where it
/// makes no such pixel.
pub fn pixel<S: Stage>(
    stage: &S,
    plane: &[u16],
    shape: Shape,
    row: u32,
    column: u32,
) -> Option<[u16; 3]> {
    let mut out = [0; 3];
    let at = rect(row, column, row.saturating_add(1), column.saturating_add(1));
    if develop::<S, Brand>(stage, plane, shape, at, &mut out, Blank::new(1)) {
        Some(out)
    } else {
        None
    }
}

/// Whether a stage makes of a rectangle of a plane what is there in the whole that it makes, a plane of shape `made`.
fn is_part_of<S: Stage>(
    stage: &S,
    plane: &[u16],
    shape: Shape,
    whole: &[u16],
    made: Shape,
    rect: Rect,
) -> bool {
    let mut want = [0; SPACE];
    let (Some(count), Some(all)) = (
        samples_of(rect, made.planes),
        samples_of(made.rect(), made.planes),
    ) else {
        return false;
    };
    if whole.len() != all {
        return false;
    }
    let want = &mut want[..count];
    TileMut::new(rect, made.planes, want).copy_from(&View::new(made.rect(), made.planes, whole));
    makes(stage, plane, shape, rect, want)
}

/// How many rectangles that begin in one row of a plane are the parts of the whole.
fn parts_from<S: Stage>(
    stage: &S,
    plane: &[u16],
    shape: Shape,
    whole: &[u16],
    made: Shape,
    top: u32,
) -> u32 {
    let mut count = 0u32;
    for bottom in 0..made.rows {
        for left in 0..made.cols {
            for right in left..made.cols {
                let part = rect(top, left, bottom.saturating_add(1), right.saturating_add(1));
                if is_part_of(stage, plane, shape, whole, made, part) {
                    count = count.wrapping_add(1);
                }
            }
        }
    }
    count
}

/// How many rectangles of the plane that a stage makes are, made by themselves, the parts of the whole.
pub fn parts<S: Stage>(stage: &S, plane: &[u16], shape: Shape, made: Shape) -> u32 {
    let mut whole = [0; SPACE];
    let Some(all) = samples_of(made.rect(), made.planes) else {
        return 0;
    };
    let whole = &mut whole[..all];
    if !develop::<S, Brand>(stage, plane, shape, made.rect(), whole, Blank::new(1)) {
        return 0;
    }
    let mut count = 0u32;
    for top in 0..made.rows {
        count = count.wrapping_add(parts_from(stage, plane, shape, whole, made, top));
    }
    count
}

/// Fills a plane with numbers of a linear congruential generator.
pub fn fill_with_noise(plane: &mut [u16]) {
    let mut x = 1u32;
    for sample in plane.iter_mut() {
        x = x.wrapping_mul(1_664_525).wrapping_add(1_013_904_223);
        *sample = (x >> 16) as u16;
    }
}
