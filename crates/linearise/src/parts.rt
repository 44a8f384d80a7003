//! What a stage of linear values holds.

ghost use Rattle.std.specs.Prelude.{◌≡◌, ◌*◌, ◌≤◌, ◌<◌, ◌^◌, ◌↔◌, pos, length, IfOk, IsTrue};
ghost use Rattle.plane_view.specs.Lent.{HasRow, sample_at};
ghost use Rattle.plane_view.specs.Rectangles.{LiesIn, width};
ghost use Rattle.plane_view.specs.Rows.{IsRowOf};
ghost use Rattle.dng_tags.specs.Black.{black_at, row_by_row};
ghost use Rattle.dng_tags.specs.Facts.{AreRanged};
ghost use Rattle.linearise.specs.inner.Blacks.{IsAreaSize};
ghost use Rattle.linearise.specs.Parameters.{IsArea, linear_of, same_parameters};
ghost use Rattle.linearise.specs.Settings.{with_black};

use crate::blacks::Blacks;
use crate::rows::{look_up, make_linear};
use crate::scale::Scale;
use crate::settings::blacks_of;
use dng_tags::Levels;
use lists::Items;
use plane_view::{Rect, Shape, View};
use std::alloc::{AllocError, Global};

/// The linearisation table, the black levels of an area, and the scale from black to white.
#[derive(Debug, Drop)]
pub(crate) struct Parts {
    table: Items<u16>,
    blacks: Blacks,
    scale: Scale,
}

impl Parts {
    ghost use Rattle.linearise.specs.inner.Seen.{seen};

    /// What the levels of an area of so many rows and columns give, with a span of white above black. `black` counts
    /// everywhere in place of their black levels.
    pub(crate) fn new(
        alloc: Global,
        levels: &Levels,
        rows: u32,
        cols: u32,
        black: Option<u16>,
        span: u32,
    ) -> Result<Parts, AllocError>
        requires sides { IsAreaSize rows cols }
        requires ranged { AreRanged levels.now rows cols }
        requires some_span { 1 ≤ span }
        requires span { span < 2 ^ 29 }
        ensures rows { IfOk result (λ parts. (seen parts).rows ≡ rows) }
        ensures cols { IfOk result (λ parts. (seen parts).cols ≡ cols) }
        ensures table { IfOk result (λ parts. (seen parts).table ≡ levels.now.table) }
        ensures blacks { IfOk result (λ parts. (seen parts).blacks
            ≡ row_by_row rows cols (black_at (with_black levels.now black))) }
        ensures span { IfOk result (λ parts. (seen parts).span ≡ pos span) }
    {
        let blacks = blacks_of(alloc, levels, rows, cols, black)?;
        let table = Items::from_slice(alloc, levels.table.as_slice())?;
        let scale = Scale::new(span);
        Ok(Parts {
            table,
            blacks,
            scale,
        })
    }

    /// Whether a plane of this shape is one plane of the area's size.
    pub(crate) fn takes(&self, input: Shape) -> bool
        ensures { IsTrue result ↔ IsArea (seen self.now) input }
    {
        input.planes == 1 && input.rows == self.blacks.rows && input.cols == self.blacks.cols
    }

    /// Whether both stand for the same parameters.
    pub(crate) fn same(&self, other: &Parts) -> bool
        ensures { IsTrue result ↔ (seen self.now ≡ seen other.now) }
    {
        if self.blacks.rows != other.blacks.rows || self.blacks.cols != other.blacks.cols {
            return false;
        }
        if self.scale.span != other.scale.span {
            return false;
        }
        if self.table != other.table {
            return false;
        }
        self.blacks.same(&other.blacks)
    }

    /// Writes the linear values of row `r` of a rectangle.
    pub(crate) fn fill_row(&self, input: &View<'_>, rect: Rect, r: u32, out: &mut [u16])
        requires planes { input.now.planes ≡ 1 }
        requires inside { LiesIn rect input.now.rect }
        requires row { HasRow rect r }
        requires rows { rect.bottom ≤ (seen self.now).rows }
        requires cols { rect.right ≤ (seen self.now).cols }
        requires out { length out.old ≡ width rect * 1 }
        ensures { IsRowOf (linear_of (seen self.now) (sample_at input.now)) rect 1 r out.new }
    {
        let samples = input.row_part(r, rect.left, rect.right);
        look_up(self.table.as_slice(), samples, out);
        let across = self.blacks.row(r, rect.left, rect.right);
        make_linear(self.scale, across, self.blacks.down(r), out);
    }
}
