//! Tiles: lent parts of planes, for writing.
ghost use Rattle.std.specs.Prelude.{◌≡◌, ℕ, ◌+◌, ◌-◌, ◌*◌, ◌<◌, ◌≤◌, List, length};
ghost use Rattle.std.specs.Borrow.{MutBor};
ghost use Rattle.std.specs.Fn.{FnOnceReturnsAtMut};
ghost use Rattle.plane_view.specs.Rectangles.{HasPixel, LiesIn, width, area_of};
ghost use Rattle.plane_view.specs.Rows.{IsAsLong, HasSamples, WritesRows};
ghost use Rattle.plane_view.specs.Lent.{Lent, HasRow, HasRowPart, lent_of, place_in, sample_at};

use crate::{Rect, View};

/// A rectangle, a number of planes, and the samples of the rectangle's pixels, lent for writing.
///
/// A contract sees all that was lent as `loan`, a `Lent`, and the rectangle that the tile writes, which may be a part
/// of it, as `tile_rect`.
#[derive(Drop)]
pub struct TileMut<'a> {
    rect: Rect,
    planes: u32,
    home: Rect,
    samples: &'a mut [u16],
    ghost inside: { LiesIn rect home },
    ghost long: { length samples.now ≡ area_of home * planes },
}

impl<'a> TileMut<'a> {
    ghost use Rattle.plane_view.specs.Tiles.{loan, tile_rect, lent_name, row_in, SameLoan, PutsSample, CopiesFrom};
    ghost use Rattle.plane_view.specs.Tiles.{KeepsOtherRows};
    ghost use Rattle.plane_view.specs.inner.RowParts.{PutsRowPart};

    /// The tile of all samples of a slice, row by row, the planes of a pixel side by side. When the loan ends, the
    /// slice holds what was written.
    pub fn new(rect: Rect, planes: u32, samples: &'a mut [u16]) -> TileMut<'a>
        requires { length samples.old ≡ area_of rect * planes }
        ensures slice { lent_name result ≡ samples.entry.ghost_name }
        ensures lent { loan result ≡ record { rect = rect; planes = planes; samples = samples.old } }
        ensures rect { tile_rect result ≡ rect }
    {
        TileMut {
            rect,
            planes,
            home: rect,
            samples,
        }
    }

    /// The rectangle.
    pub fn rect(&self) -> Rect
        ensures { result ≡ tile_rect self.now }
    {
        self.rect
    }

    /// The number of planes.
    pub fn planes(&self) -> u32
        ensures { result ≡ (loan self.now).planes }
    {
        self.planes
    }

    /// Writes the sample at row `r`, column `c` of plane `p`.
    pub fn put(&mut self, r: u32, c: u32, p: u32, v: u16)
        requires pixel { HasPixel (tile_rect self.old) r c }
        requires plane { p < (loan self.old).planes }
        ensures loan { SameLoan self.old self.new }
        ensures put { PutsSample (loan self.old) (loan self.new) r c p v }
    {
        let cols = (self.home.right - self.home.left) as usize;
        let pixel = (r - self.home.top) as usize * cols + (c - self.home.left) as usize;
        self.samples[pixel * self.planes as usize + p as usize] = v;
    }

    /// Moves the tile to another rectangle of what was lent: to a part, or back to the whole.
    pub fn focus(&mut self, rect: Rect)
        requires { LiesIn rect (loan self.old).rect }
        ensures slice { lent_name self.new ≡ lent_name self.old }
        ensures loan { loan self.new ≡ loan self.old }
        ensures rect { tile_rect self.new ≡ rect }
    {
        self.rect = rect;
    }

    /// Hands row `r` to `write`: the slice of its samples, the planes of a pixel side by side.
    pub fn write_row<F: FnOnce(&mut [u16])>(&mut self, r: u32, write: F)
        requires row { HasRow (tile_rect self.old) r }
        requires can { (row : MutBor (List ℕ)) → row.now ≡ row_in (loan self.old) (tile_rect self.old) r
            → length row.now ≡ width (tile_rect self.old) * (loan self.old).planes → F.pre write row }
        ensures loan { SameLoan self.old self.new }
        ensures row { FnOnceReturnsAtMut F.FnOnce write (row_in (loan self.old) (tile_rect self.old) r) tt
            (row_in (loan self.new) (tile_rect self.new) r) }
        ensures others { KeepsOtherRows (loan self.old) (loan self.new) (tile_rect self.old) r }
    {
        let Rect { left, right, .. } = self.rect;
        let (start, len) = self.row_part_at(r, left, right);
        let samples = &mut *self.samples;
        write(&mut samples[start..start + len]);
    }

    /// Hands each row to `write`, from the top down: its number, and the slice of its samples.
    pub fn write_rows<F: Fn(u32, &mut [u16])>(&mut self, write: F)
        requires order { (tile_rect self.old).left ≤ (tile_rect self.old).right }
        requires can { (r : ℕ) (row : MutBor (List ℕ)) → HasRow (tile_rect self.old) r
            → IsAsLong (tile_rect self.old) (loan self.old).planes row.now → F.pre write r row }
        ensures loan { SameLoan self.old self.new }
        ensures rows { (f : ℕ → ℕ → ℕ → ℕ) → WritesRows (λ r old new. F.post write r old tt new) (tile_rect self.old)
            (loan self.old).planes f → HasSamples f (loan self.new) (tile_rect self.old) }
    {
        for r in self.rect.top..self.rect.bottom {
            self.write_row(
                r,
                |row: &mut [u16]|
                    requires { (y : MutBor (List ℕ)) → y.now ≡ row.now → F.pre write r y }
                    ensures { (y : MutBor (List ℕ)) × (z : MutBor (List ℕ)) × F.post write r y tt z
                        × (y.now ≡ row.entry.now) × (z.now ≡ row.exit.now) }
                { write(r, row) },
            );
        }
    }

    /// Writes the samples of the pixels that are in both, and leaves the others.
    pub fn copy_from(&mut self, from: &View<'_>)
        requires { from.now.planes ≡ (loan self.old).planes }
        ensures loan { SameLoan self.old self.new }
        ensures copies { CopiesFrom (loan self.old) (loan self.new) from.now (tile_rect self.old) }
    {
        let Some(both) = self.rect.meet(&from.rect()) else {
            return;
        };
        for r in both.top..both.bottom {
            self.copy_row_part(
                r,
                both.left,
                both.right,
                from.row_part(r, both.left, both.right),
            );
        }
    }

    fn copy_row_part(&mut self, r: u32, left: u32, right: u32, samples: &[u16])
        requires pixels { HasRowPart (tile_rect self.old) r left right }
        requires long { length samples.now ≡ (right - left) * (loan self.old).planes }
        ensures loan { SameLoan self.old self.new }
        ensures puts { PutsRowPart (loan self.old) (loan self.new) r left right samples.now }
    {
        let (start, len) = self.row_part_at(r, left, right);
        self.samples[start..start + len].copy_from_slice(samples);
    }

    /// Where the samples of row `r` from column `left` up to column `right` begin, and how many there are.
    fn row_part_at(&self, r: u32, left: u32, right: u32) -> (usize, usize)
        requires { HasRowPart (tile_rect self.now) r left right }
        ensures start { result.0 ≡ place_in (loan self.now).rect (loan self.now).planes r left 0 }
        ensures len { result.1 ≡ (right - left) * (loan self.now).planes }
        ensures within { result.0 + result.1 ≤ length (loan self.now).samples }
    {
        let cols = (self.home.right - self.home.left) as usize;
        let pixel = (r - self.home.top) as usize * cols + (left - self.home.left) as usize;
        let start = pixel * self.planes as usize;
        (start, (right - left) as usize * self.planes as usize)
    }
}

/// Lends a slice to a tile, hands each row of the rectangle to `write`, from the top down, and gives the slice back. It
/// then holds what was written, row by row, the planes of a pixel side by side.
pub fn write_slice<F: Fn(u32, &mut [u16])>(rect: Rect, planes: u32, samples: &mut [u16], write: F)
    requires order { rect.left ≤ rect.right }
    requires long { length samples.old ≡ area_of rect * planes }
    requires can { (r : ℕ) (row : MutBor (List ℕ)) → HasRow rect r → IsAsLong rect planes row.now → F.pre write r row }
    ensures { (f : ℕ → ℕ → ℕ → ℕ) → WritesRows (λ r old new. F.post write r old tt new) rect planes f
        → samples.new ≡ (lent_of rect planes f).samples }
{
    TileMut::new(rect, planes, samples).write_rows(write);
}
