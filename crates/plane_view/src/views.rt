//! Views: lent parts of planes, for reading.
ghost use Rattle.std.specs.Prelude.{◌≡◌, ℕ, ◌+◌, ◌-◌, ◌*◌, ◌<◌, ◌≤◌, length};
ghost use Rattle.plane_view.specs.Rectangles.{HasPixel, LiesIn, width, area_of};
ghost use Rattle.plane_view.specs.Lent.{Lent, HasRow, HasRowPart, IsRowPart, sample_at, part_of};

use crate::Rect;
use std::marker::Model;

/// A rectangle, a number of planes, and the lent samples of the rectangle's pixels.
///
/// A contract sees it as a `Lent`: the rectangle, the planes and the list of the samples. The samples may be a part of
/// what was lent, whose row length they keep.
#[derive(Drop)]
pub struct View<'a> {
    rect: Rect,
    planes: u32,
    home: Rect,
    samples: &'a [u16],
}

impl<'a> Model for View<'a> {
    ghost use Rattle.std.specs.Prelude.{◌≡◌, ◌*◌, length};
    ghost use Rattle.plane_view.specs.Rectangles.{LiesIn, area_of};
    ghost use Rattle.plane_view.specs.Lent.{Lent, part_of};

    ghost Value = { Lent };

    ghost view = { λ v. part_of (record { rect = v.home; planes = v.planes; samples = v.samples.now }) v.rect };

    ghost invariant = { λ v. LiesIn v.rect v.home × (length v.samples.now ≡ area_of v.home * v.planes) };
}

impl<'a> View<'a> {
    /// The view of all samples of a slice, row by row, the planes of a pixel side by side.
    pub fn new(rect: Rect, planes: u32, samples: &'a [u16]) -> View<'a>
        requires { length samples.now ≡ area_of rect * planes }
        ensures { result ≡ record { rect = rect; planes = planes; samples = samples.now } }
    {
        View {
            rect,
            planes,
            home: rect,
            samples,
        }
    }

    /// The rectangle.
    pub fn rect(&self) -> Rect
        ensures { result ≡ self.now.rect }
    {
        self.rect
    }

    /// The number of planes.
    pub fn planes(&self) -> u32
        ensures { result ≡ self.now.planes }
    {
        self.planes
    }

    /// The sample at row `r`, column `c` of plane `p`.
    pub fn at(&self, r: u32, c: u32, p: u32) -> u16
        requires pixel { HasPixel self.now.rect r c }
        requires plane { p < self.now.planes }
        ensures { result ≡ sample_at self.now r c p }
    {
        let cols = (self.home.right - self.home.left) as usize;
        let pixel = (r - self.home.top) as usize * cols + (c - self.home.left) as usize;
        self.samples[pixel * self.planes as usize + p as usize]
    }

    /// The samples of row `r`, the planes of a pixel side by side.
    pub fn row(&self, r: u32) -> &[u16]
        requires { HasRow self.now.rect r }
        ensures { IsRowPart result.now self.now r self.now.rect.left self.now.rect.right }
    {
        self.row_part(r, self.rect.left, self.rect.right)
    }

    /// The samples of row `r` from column `left` up to column `right`, the planes of a pixel side by side.
    pub fn row_part(&self, r: u32, left: u32, right: u32) -> &[u16]
        requires { HasRowPart self.now.rect r left right }
        ensures { IsRowPart result.now self.now r left right }
    {
        let cols = (self.home.right - self.home.left) as usize;
        let pixel = (r - self.home.top) as usize * cols + (left - self.home.left) as usize;
        let start = pixel * self.planes as usize;
        let len = (right - left) as usize * self.planes as usize;
        &self.samples[start..start + len]
    }

    /// The part of the view that lies in a rectangle. It copies nothing.
    pub fn sub(&self, rect: Rect) -> View<'_>
        requires { LiesIn rect self.now.rect }
        ensures { result ≡ part_of self.now rect }
    {
        View {
            rect,
            planes: self.planes,
            home: self.home,
            samples: self.samples,
        }
    }
}
