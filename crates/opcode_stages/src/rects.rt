//! Rectangles of bad pixels.

ghost use Rattle.std.specs.Prelude.{◌≡◌, ◌≤◌};
ghost use Rattle.std.specs.List.{list_any};
ghost use Rattle.plane_view.specs.Rectangles.{has_pixel};
ghost use Rattle.opcode_stages.specs.inner.MendRows.{IsNextBad};

use plane_view::Rect;

/// Whether the pixel at row `r`, column `c` is in one of the rectangles.
pub(crate) fn any_has(rects: &[Rect], r: u32, c: u32) -> bool
    ensures { result ≡ list_any (has_pixel r c) rects.now }
{
    rects.iter().any(|rect| rect.top <= r && r < rect.bottom && rect.left <= c && c < rect.right)
}

/// The first column of row `r` from `from` on that is in one of the rectangles, or `to` where there is none before it.
pub(crate) fn next_in(rects: &[Rect], r: u32, from: u32, to: u32) -> u32
    requires { from ≤ to }
    ensures { IsNextBad (λ c. list_any (has_pixel r c) rects.now) from to result }
{
    let mut next = to;
    for rect in rects {
        let first = rect.left.max(from);
        if rect.top <= r && r < rect.bottom && first < rect.right && first < next {
            next = first;
        }
    }
    next
}
