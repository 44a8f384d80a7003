//! Rows of samples round a row, from a lent part of a plane.

ghost use Rattle.std.specs.Prelude.{◌≡◌, ◌+◌, ◌-◌, ◌<◌, ◌≤◌, min, slice_index, length, pos, negsuc, ◌≤ℤ◌};
ghost use Rattle.plane_view.specs.Lent.{IsRowPart};
ghost use Rattle.plane_view.specs.Rectangles.{LiesIn};
ghost use Rattle.plane_view.specs.Reflect.{reflected};
ghost use Rattle.plane_view.specs.Shapes.{IsShape};
ghost use Rattle.malvar.specs.Demosaic.{reach_of};
ghost use Rattle.malvar.specs.Mosaics.{IsMosaic};

use crate::Kind;
use crate::filters::Around;
use plane_view::{Rect, Shape, View, reflect};

/// A row of samples, the rows next to it, and those as far from it as the filters reach. All are equally long.
#[derive(Clone, Copy)]
pub(crate) struct Window<'a> {
    pub(crate) far_up: &'a [u16],
    pub(crate) up: &'a [u16],
    pub(crate) here: &'a [u16],
    pub(crate) down: &'a [u16],
    pub(crate) far_down: &'a [u16],
    /// The column of the first samples.
    pub(crate) left: usize,
    /// How many columns the plane has.
    pub(crate) cols: u32,
    ghost far_up_long: { length far_up.now ≡ length here.now },
    ghost up_long: { length up.now ≡ length here.now },
    ghost down_long: { length down.now ≡ length here.now },
    ghost far_down_long: { length far_down.now ≡ length here.now },
    ghost some_cols: { 4 ≤ cols },
    ghost few_cols: { cols ≤ 8192 },
}

/// The columns of a part of row `i` of a plane of so many rows, which is reflected if it is outside.
fn row_of<'a>(input: &'a View<'_>, rows: u32, i: i64, part: Rect) -> &'a [u16]
    requires size { 4 ≤ rows }
    requires low { negsuc 1 ≤ℤ i }
    requires high { i ≤ℤ pos (rows + 1) }
    requires top { input.now.rect.top ≤ reflected rows i }
    requires bottom { reflected rows i < input.now.rect.bottom }
    requires left { input.now.rect.left ≤ part.left }
    requires order { part.left ≤ part.right }
    requires right { part.right ≤ input.now.rect.right }
    ensures { IsRowPart result.now input.now (reflected rows i) part.left part.right }
{
    input.row_part(reflect(i, rows), part.left, part.right)
}

/// The sum of the samples at two places of a row.
#[inline(always)]
fn sum_of(row: &[u16], left: usize, right: usize) -> u32
    requires left { left < length row.now }
    requires right { right < length row.now }
    ensures sum { result ≡ slice_index row.now left + slice_index row.now right }
    ensures small { result ≤ 131070 }
{
    u32::from(row[left]) + u32::from(row[right])
}

impl<'a> Window<'a> {
    ghost use Rattle.malvar.specs.inner.Around.{IsAround};
    ghost use Rattle.malvar.specs.inner.Rows.{IsWindowOf, Spans, count_of, around_by, around_at};

    /// Row `r` of a plane of shape `whole` and the rows near it, in the columns of a part of the plane that holds them.
    pub(crate) fn of_part(
        input: &'a View<'_>,
        whole: Shape,
        kind: Kind,
        r: u32,
        part: Rect,
    ) -> Window<'a>
        requires whole { IsShape whole }
        requires takes { IsMosaic whole }
        requires planes { input.now.planes ≡ 1 }
        requires part { LiesIn part input.now.rect }
        requires r { r < whole.rows }
        requires top { part.top ≤ r - reach_of kind }
        requires bottom { min (r + 1 + reach_of kind) whole.rows ≤ part.bottom }
        requires order { part.left ≤ part.right }
        ensures rows { IsWindowOf (reach_of kind) result input.now whole.rows r }
        ensures left { result.left ≡ part.left }
        ensures cols { result.cols ≡ whole.cols }
        ensures count { count_of result ≡ part.right - part.left }
    {
        let i = i64::from(r);
        let reach = i64::from(kind.reach());
        Window {
            far_up: row_of(input, whole.rows, i - reach, part),
            up: row_of(input, whole.rows, i - 1, part),
            here: input.row_part(r, part.left, part.right),
            down: row_of(input, whole.rows, i + 1, part),
            far_down: row_of(input, whole.rows, i + reach, part),
            left: part.left as usize,
            cols: whole.cols,
        }
    }

    /// The sums at place `c` of each row, with these places for the ones on its left and on its right.
    #[inline(always)]
    pub(crate) fn around_by(
        &self,
        far_left: usize,
        left: usize,
        c: usize,
        right: usize,
        far_right: usize,
    ) -> Around
        requires far_left { far_left < count_of self.now }
        requires left { left < count_of self.now }
        requires c { c < count_of self.now }
        requires right { right < count_of self.now }
        requires far_right { far_right < count_of self.now }
        ensures sums { result ≡ around_by self.now far_left left c right far_right }
        ensures small { IsAround result }
    {
        Around {
            centre: u32::from(self.here[c]),
            horizontal: sum_of(self.here, left, right),
            vertical: u32::from(self.up[c]) + u32::from(self.down[c]),
            diagonal: sum_of(self.up, left, right) + sum_of(self.down, left, right),
            horizontal_far: sum_of(self.here, far_left, far_right),
            vertical_far: u32::from(self.far_up[c]) + u32::from(self.far_down[c]),
        }
    }

    /// The place of column `i`, which is reflected if it is outside the plane.
    fn place(&self, i: i64) -> usize
        requires low { negsuc 1 ≤ℤ i }
        requires high { i ≤ℤ pos (self.now.cols + 1) }
        requires has { self.now.left ≤ reflected self.now.cols i }
        ensures { result ≡ reflected self.now.cols i - self.now.left }
    {
        reflect(i, self.cols) as usize - self.left
    }

    /// The sums at column `c`, columns outside the plane being reflected.
    pub(crate) fn around_at(&self, kind: Kind, c: usize) -> Around
        requires spans { Spans (reach_of kind) self.now c (c + 1) }
        ensures sums { result ≡ around_at (reach_of kind) self.now c }
        ensures small { IsAround result }
    {
        let i = c as i64;
        let reach = i64::from(kind.reach());
        self.around_by(
            self.place(i - reach),
            self.place(i - 1),
            c - self.left,
            self.place(i + 1),
            self.place(i + reach),
        )
    }
}
