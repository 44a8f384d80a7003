//! Grids of square cells.

ghost use Rattle.std.specs.Prelude.{◌≡◌, ◌<◌, ◌≤◌, ◌^◌, length, slice_get, Some, IfOk, OnOk};
ghost use Rattle.std.specs.List.{All};
ghost use Rattle.plane_view.specs.Cuts.{part, part_count};
ghost use Rattle.plane_view.specs.Shapes.{IsShape};
ghost use Rattle.stage_core.specs.Bases.{MakeUp};
ghost use Rattle.stage_deps.specs.Cells.{cells_at, meeting};
ghost use Rattle.stage_deps.specs.Grids.{grid_cells};

use crate::cells::{hull, meets_within};
use plane_view::{Rect, Shape};
use std::alloc::{AllocError, Global};

/// The square cells of a plane of a shape, numbered row by row. Those at the right and at the bottom are clipped.
#[derive(Clone, Copy, Debug, PartialEq, Eq)]
pub struct Grid {
    /// The shape of the plane.
    pub shape: Shape,
    /// The side of a cell in pixels, 16 to 512.
    pub side: u32,
    ghost limits: { IsShape shape },
    ghost least: { 16 ≤ side },
    ghost most: { side ≤ 512 },
}

impl Grid {
    /// The cells of a side of 16 to 512 pixels.
    pub fn new(shape: Shape, side: u32) -> Grid
        requires shape { IsShape shape }
        requires least { 16 ≤ side }
        requires most { side ≤ 512 }
        ensures shape { result.shape ≡ shape }
        ensures side { result.side ≡ side }
    {
        Grid { shape, side }
    }

    /// How many cells there are.
    pub fn count(&self) -> u32
        ensures count { result ≡ part_count self.now.shape self.now.side self.now.side }
        ensures some { 0 < result }
        ensures most { result ≤ 2 ^ 18 }
    {
        self.shape.part_count(self.side, self.side)
    }

    /// The rectangle of cell `k`.
    pub fn rect(&self, k: u32) -> Rect
        requires { k < part_count self.now.shape self.now.side self.now.side }
        ensures rect { result ≡ part self.now.shape self.now.side self.now.side k }
        ensures cell { slice_get (grid_cells self.now.shape self.now.side) k ≡ Some result }
    {
        self.shape.part(self.side, self.side, k)
    }

    /// The rectangles of all cells. They make up the plane.
    ///
    /// # Errors
    ///
    /// Where there is no memory.
    pub fn cells(&self, alloc: Global) -> Result<Vec<Rect>, AllocError>
        ensures cells { IfOk result (λ cells. cells.items ≡ grid_cells self.now.shape self.now.side) }
        ensures plane { MakeUp (grid_cells self.now.shape self.now.side) self.now.shape }
        ensures few { length (grid_cells self.now.shape self.now.side) ≤ 2 ^ 18 }
    {
        let mut cells = Vec::new(alloc);
        for k in 0..self.count() {
            cells.push(self.rect(k))?;
        }
        Ok(cells)
    }
}

impl Grid {
    /// The numbers, rising, of the cells that meet one of the rectangles, in place of what `numbers` had.
    ///
    /// # Errors
    ///
    /// Where `numbers` has no memory for them.
    pub fn meeting(&self, rects: &[Rect], numbers: &mut Vec<u32>) -> Result<(), AllocError>
        ensures { OnOk result (numbers.new.items ≡ meeting (grid_cells self.now.shape self.now.side) rects.now) }
    {
        numbers.clear();
        let around = hull(rects);
        for k in 0..self.count() {
            if meets_within(&self.rect(k), &around, rects) {
                numbers.push(k)?;
            }
        }
        Ok(())
    }

    /// The rectangles of the cells of these numbers, in place of what `rects` had.
    ///
    /// # Errors
    ///
    /// Where `rects` has no memory for them.
    pub fn rects_of(&self, numbers: &[u32], rects: &mut Vec<Rect>) -> Result<(), AllocError>
        requires { All (λ k. k < length (grid_cells self.now.shape self.now.side)) numbers.now }
        ensures { OnOk result (rects.new.items ≡ cells_at (grid_cells self.now.shape self.now.side) numbers.now) }
    {
        rects.clear();
        for k in numbers {
            rects.push(self.rect(*k))?;
        }
        Ok(())
    }
}
