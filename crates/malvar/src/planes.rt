//! Demosaicing of a whole plane in one call.

ghost use Rattle.std.specs.Prelude.{◌≡◌, ◌*◌, ◌≤◌, length};
ghost use Rattle.malvar.specs.Pattern.{IsBayer};
ghost use Rattle.malvar.specs.Demosaic.{malvar, demosaiced};

use crate::Kind;
use crate::pattern::Pattern;
use crate::rows::fill_row;
use plane_view::{Shape, View, write_slice};

/// Writes red, green and blue of each pixel, side by side and row by row, of a plane of `rows` by `cols` samples under
/// the pattern `cfa` (0 red, 1 green, 2 blue; row by row), by the filters of Malvar, He and Cutler. It takes no memory.
///
/// A development doesn't call it: it runs the stage [`crate::Demosaic`].
pub fn whole(plane: &[u16], rows: u32, cols: u32, cfa: [u8; 4], out: &mut [u16])
    requires rows { 4 ≤ rows × rows ≤ 8192 }
    requires cols { 4 ≤ cols × cols ≤ 8192 }
    requires plane { length plane.now ≡ rows * cols }
    requires out { length out.old ≡ rows * cols * 3 }
    requires pattern { IsBayer cfa }
    ensures { out.new ≡ (demosaiced malvar cfa
        (record { rows = rows; cols = cols; planes = 1; samples = plane.now })).samples }
{
    let shape = Shape {
        rows,
        cols,
        planes: 1,
    };
    let all = shape.rect();
    let pattern = Pattern::new(cfa);
    let input = View::new(all, 1, plane);
    write_slice(all, 3, out, |r, row| {
        fill_row(&input, shape, Kind::Malvar, pattern, all, r, row)
    });
}
