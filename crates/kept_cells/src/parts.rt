//! Cells of parts of planes.

ghost use Rattle.std.specs.Prelude.{◌≡◌, ◌*◌, ◌<◌, ◌^◌, length, IfOk};
ghost use Rattle.plane_view.specs.Rectangles.{LiesIn, area_of};
ghost use Rattle.plane_view.specs.Lent.{part_of};
ghost use Rattle.plane_view.specs.Tiles.{CopiesFrom};

use plane_view::{Rect, TileMut, View};
use std::alloc::{AllocError, Global};

/// The samples of a rectangle of a part: row by row, the planes of a pixel side by side.
///
/// # Errors
///
/// Out of memory.
pub(crate) fn samples_of(alloc: Global, rect: Rect, part: &View<'_>) -> Result<Vec<u16>, AllocError>
    requires inside { LiesIn rect part.now.rect }
    requires small { area_of rect * part.now.planes < 2 ^ 32 }
    ensures samples { IfOk result (λ samples. samples.items ≡ (part_of part.now rect).samples) }
    ensures long { IfOk result (λ samples. length samples.items ≡ area_of rect * part.now.planes) }
{
    let count = rect.area() as usize * part.planes() as usize;
    let mut samples = Vec::with_capacity(alloc, count)?;
    if rect.right < rect.left {
        return Ok(samples);
    }
    for row in rect.top..rect.bottom {
        samples.extend_from_slice(part.row_part(row, rect.left, rect.right))?;
    }
    Ok(samples)
}

/// Writes the samples of a rectangle of a part, row by row, the planes of a pixel side by side. Those of pixels that
/// the part doesn't have stay.
pub fn copy_into(rect: Rect, planes: u32, samples: &mut [u16], part: &View<'_>)
    requires long { length samples.old ≡ area_of rect * planes }
    requires planes { part.now.planes ≡ planes }
    ensures { CopiesFrom (record { rect = rect; planes = planes; samples = samples.old })
        (record { rect = rect; planes = planes; samples = samples.new }) part.now rect }
{
    TileMut::new(rect, planes, samples).copy_from(part);
}
