//! The crop to a rectangle.

ghost use Rattle.std.specs.Prelude.{◌≡◌, ◌-◌, ◌*◌, length};
ghost use Rattle.plane_view.specs.Plane.{crop};
ghost use Rattle.plane_view.specs.Lent.{HasRowPart, IsRowPart};
ghost use Rattle.plane_view.specs.Rectangles.{IsNonEmpty, shifted};
ghost use Rattle.stage_core.specs.Planes.{IsPart};
ghost use Rattle.opcode_stages.specs.Crops.{cropped_shape};

use plane_view::{Rect, Shape, TileMut, View};
use stage_core::{Stage, Steps};
use std::sync::ledger::Ledger;

/// The part of a plane that lies in a rectangle. It refuses a plane in which the rectangle doesn't lie.
#[derive(Clone, Copy, Debug, PartialEq, Eq)]
pub struct Crop {
    rect: Rect,
}

impl Crop {
    ghost use Rattle.opcode_stages.specs.Crops.{cropped_to};

    /// The crop to a rectangle that isn't empty.
    pub fn new(rect: Rect) -> Crop
        requires { IsNonEmpty rect }
        ensures { cropped_to result ≡ rect }
    {
        Crop { rect }
    }
}

/// Copies a part of a row.
fn copy_row_part(input: &View<'_>, r: u32, left: u32, right: u32, out: &mut [u16])
    requires row_part { HasRowPart input.now.rect r left right }
    requires long { length out.old ≡ (right - left) * input.now.planes }
    ensures { IsRowPart out.new input.now r left right }
{
    out.copy_from_slice(input.row_part(r, left, right));
}

impl Stage for Crop {
    ghost use Rattle.opcode_stages.specs.CropLaws.{crop_shapes, crop_needs, crop_rests, crop_alike};
    ghost use Rattle.opcode_stages.specs.Crops.{cropped_at};
    ghost use Rattle.stage_core.proofs.Formulas.{planes_by, local_by};

    ghost apply = { λ s P. crop P s.rect };

    ghost takes = { λ s input. IsPart s.rect input };

    ghost shaped = { λ s input. cropped_shape s.rect input };

    ghost needed = { λ s input rect. shifted rect s.rect.top s.rect.left };

    fn shape(&self, input: Shape) -> Option<Shape> {
        let Rect {
            top,
            left,
            bottom,
            right,
        } = self.rect;
        if top < bottom && left < right && input.rect().contains(&self.rect) {
            Some(Shape {
                rows: bottom - top,
                cols: right - left,
                planes: input.planes,
            })
        } else {
            None
        }
    }

    fn need(&self, _input: Shape, rect: Rect) -> Rect {
        rect.shift(self.rect.top, self.rect.left)
    }

    fn run<L: Ledger>(
        &self,
        input: &View<'_>,
        _whole: Shape,
        out: &mut TileMut<'_>,
        work: &mut Steps<L>,
    ) {
        work.tick();
        let Rect { top, left, .. } = self.rect;
        let rect = out.rect();
        out.write_rows(|r, row| copy_row_part(
            input,
            top + r,
            left + rect.left,
            left + rect.right,
            row,
        ));
    }

    ghost makes_shapes = { λ s input. crop_shapes s.rect input };

    ghost makes_planes = { λ s input P shape takes is. planes_by (cropped_shape s.rect)
        (λ whole at. cropped_at s.rect at) input P is };

    ghost needs_part = { λ s input rect shape. crop_needs s.rect input rect };

    ghost local = { λ s input rect shape takes part. local_by (cropped_shape s.rect) (λ whole at. cropped_at s.rect at)
        input (shifted rect s.rect.top s.rect.left) rect part (crop_rests s.rect input rect) };

    ghost equal_alike = { crop_alike };
}
