//! A plane cut into parts of equal sides.
ghost use Rattle.std.specs.Prelude.{◌≡◌, ◌<◌, slice_get, Some};
ghost use Rattle.plane_view.specs.Cuts.{part, part_count, parts};
ghost use Rattle.plane_view.specs.Rectangles.{IsNonEmpty, LiesIn, whole_rect};
ghost use Rattle.plane_view.specs.Shapes.{IsShape};

use crate::{Rect, Shape};

impl Shape {
    /// How many parts of this many rows and columns a plane is cut into. Those at the bottom and at the right may have
    /// fewer.
    pub fn part_count(&self, rows: u32, cols: u32) -> u32
        requires shape { IsShape self.now }
        requires rows { 0 < rows }
        requires cols { 0 < cols }
        ensures count { result ≡ part_count self.now rows cols }
        ensures some { 0 < result }
    {
        self.rows.div_ceil(rows) * self.cols.div_ceil(cols)
    }

    /// Part `k`. Parts are numbered row by row.
    pub fn part(&self, rows: u32, cols: u32, k: u32) -> Rect
        requires shape { IsShape self.now }
        requires rows { 0 < rows }
        requires cols { 0 < cols }
        requires within { k < part_count self.now rows cols }
        ensures part { result ≡ part self.now rows cols k }
        ensures found { slice_get (parts self.now rows cols) k ≡ Some result }
        ensures some { IsNonEmpty result }
        ensures inside { LiesIn result (whole_rect self.now.rows self.now.cols) }
    {
        let across = self.cols.div_ceil(cols);
        let top = k / across * rows;
        let left = k % across * cols;
        Rect {
            top,
            left,
            bottom: top.saturating_add(rows).min(self.rows),
            right: left.saturating_add(cols).min(self.cols),
        }
    }
}
