//! Which pixels are bad, and how they are mended.

ghost use Rattle.std.specs.Prelude.{◌≡◌, ℕ, ◌+◌, ◌-◌, ◌*◌, ◌<◌, ◌≤◌, Bool, true, Some, None, IfSome, if◌then◌else◌};
ghost use Rattle.std.specs.Prelude.{length};
ghost use Rattle.plane_view.specs.Lent.{HasRow, HasRowPart, sample_at};
ghost use Rattle.plane_view.specs.Rectangles.{HasPixel, LiesIn, grown, whole_rect, width};
ghost use Rattle.plane_view.specs.Rows.{IsRowOf};
ghost use Rattle.plane_view.specs.Shapes.{IsShape};
ghost use Rattle.stage_core.specs.Planes.{IsPart};
ghost use Rattle.opcode_stages.specs.Mends.{IsSingle, is_good, row_after, col_after, mended_at};
ghost use Rattle.opcode_stages.specs.inner.MendRows.{IsShort, HasNear, IsNextBad};

use crate::steps::{Step, is_green, steps_of};
use plane_view::{Rect, Shape, View};

/// Which pixels of a plane of one sample a pixel are bad.
pub(crate) trait Defects {
    /// Whether the pixel at a row and a column is bad, where these are the samples.
    ghost bad: { Self → (ℕ → ℕ → ℕ → ℕ) → ℕ → ℕ → Bool };

    /// Whether the pixel at row `r`, column `c` is bad.
    fn is_bad(&self, input: &View<'_>, r: u32, c: u32) -> bool
        requires pixel { HasPixel input.now.rect r c }
        requires planes { input.now.planes ≡ 1 }
        ensures { result ≡ bad self.now (sample_at input.now) r c };

    /// The first column of row `r` from `from` on whose pixel is bad, or `to` where there is none before it.
    fn next_bad(&self, input: &View<'_>, r: u32, from: u32, to: u32) -> u32
        requires row_part { HasRowPart input.now.rect r from to }
        requires planes { input.now.planes ≡ 1 }
        ensures { IsNextBad (bad self.now (sample_at input.now) r) from to result };
}

/// The sample of the neighbour after a step from row `r`, column `c`, if it is in the plane and not bad.
fn good_near<D: Defects>(
    defects: &D,
    input: &View<'_>,
    whole: Shape,
    r: u32,
    c: u32,
    step: Step,
) -> Option<u16>
    requires whole { IsShape whole }
    requires planes { input.now.planes ≡ 1 }
    requires near { HasNear input.now.rect whole r c }
    requires short { IsShort step }
    ensures sample { result ≡ (if is_good (D.bad defects.now (sample_at input.now)) whole.rows whole.cols r c step
        then Some (sample_at input.now (row_after r step) (col_after c step) 0) else None) }
    ensures small { IfSome result (λ sample. sample ≤ 65535) }
{
    if !step.stays(whole, r, c) {
        return None;
    }
    let (row, column) = step.from(r, c);
    if defects.is_bad(input, row, column) {
        return None;
    }
    Some(input.at(row, column, 0))
}

/// The sample of the bad pixel at row `r`, column `c`: the mean of its good neighbours, or its own where it has none.
fn mend<D: Defects>(defects: &D, input: &View<'_>, whole: Shape, phase: u8, r: u32, c: u32) -> u16
    requires whole { IsShape whole }
    requires planes { input.now.planes ≡ 1 }
    requires near { HasNear input.now.rect whole r c }
    requires bad { D.bad defects.now (sample_at input.now) r c ≡ true }
    ensures { result ≡ mended_at (D.bad defects.now (sample_at input.now)) phase whole.rows whole.cols
        (sample_at input.now) r c 0 }
{
    let mut sum = 0;
    let mut count = 0;
    for step in steps_of(is_green(phase, r, c)) {
        if let Some(sample) = good_near(defects, input, whole, r, c, step) {
            sum += u32::from(sample);
            count += 1;
        }
    }
    if count == 0 {
        input.at(r, c, 0)
    } else {
        ((2 * sum + count) / (2 * count)) as u16
    }
}

/// Writes row `r` of a rectangle, with its bad pixels mended.
pub(crate) fn fill_row<D: Defects>(
    defects: &D,
    phase: u8,
    input: &View<'_>,
    whole: Shape,
    rect: Rect,
    r: u32,
    out: &mut [u16],
)
    requires whole { IsShape whole }
    requires takes { IsSingle whole }
    requires planes { input.now.planes ≡ 1 }
    requires part { IsPart rect whole }
    requires need { LiesIn (grown rect 2 (whole_rect whole.rows whole.cols)) input.now.rect }
    requires row { HasRow rect r }
    requires out { length out.old ≡ width rect * 1 }
    ensures { IsRowOf (mended_at (D.bad defects.now (sample_at input.now)) phase whole.rows whole.cols
        (sample_at input.now)) rect 1 r out.new }
{
    let Rect { left, right, .. } = rect;
    out.copy_from_slice(input.row_part(r, left, right));
    let mut c = defects.next_bad(input, r, left, right);
    while c < right {
        out[(c - left) as usize] = mend(defects, input, whole, phase, r, c);
        c = defects.next_bad(input, r, c + 1, right);
    }
}
