//! Rectangles, and lent parts of planes: the samples of a rectangle, read through a view or written through a tile.
//!
//! A plane has its samples row by row, the samples of a pixel side by side. No call takes memory.
#![tactic(auto)]

mod cutting;
mod tiles;
mod views;

pub use tiles::{TileMut, write_slice};
pub use views::View;

#[cfg(test)]
mod tests;

ghost use Rattle.std.specs.Prelude.{◌≡◌, ℕ, ◌+◌, ◌-◌, ◌*◌, ◌<◌, ◌≤◌, ◌^◌, ◌↔◌, pos, negsuc, ◌≤ℤ◌, IsTrue, IsNone};
ghost use Rattle.std.specs.Prelude.{IfSome, false};
ghost use Rattle.plane_view.specs.Rectangles.{HasPixel, IsNearPixel, IsNonEmpty, LiesIn, area_of, grown, shifted};
ghost use Rattle.plane_view.specs.Rectangles.{whole_rect};
ghost use Rattle.plane_view.specs.Reflect.{reflected};

/// A half-open rectangle of pixels: rows `top <= r < bottom`, columns `left <= c < right`. It is empty where an edge is
/// not before the opposite one.
#[derive(Clone, Copy, Debug, PartialEq, Eq)]
pub struct Rect {
    pub top: u32,
    pub left: u32,
    pub bottom: u32,
    pub right: u32,
}

impl Rect {
    /// The rectangle of the pixels that are in both, if there is one.
    pub fn meet(&self, other: &Rect) -> Option<Rect>
        ensures none { IsNone result ↔ ((r c : ℕ) → HasPixel self.now r c → HasPixel other.now r c → ⊥) }
        ensures pixels { IfSome result (λ both. (r c : ℕ) → HasPixel both r c
            ↔ (HasPixel self.now r c × HasPixel other.now r c)) }
        ensures some { IfSome result (λ both. IsNonEmpty both) }
        ensures inside { IfSome result (λ both. LiesIn both self.now × LiesIn both other.now) }
    {
        let both = Rect {
            top: self.top.max(other.top),
            left: self.left.max(other.left),
            bottom: self.bottom.min(other.bottom),
            right: self.right.min(other.right),
        };
        if both.is_empty() { None } else { Some(both) }
    }

    /// The rectangle grown by a number of pixels on all sides, and clipped to `whole`: the pixels of `whole` that are
    /// within so many rows and columns of one of its own.
    pub fn grow(&self, by: u32, whole: &Rect) -> Rect
        ensures edges { result ≡ grown self.now by whole.now }
        ensures pixels { IsNonEmpty self.now → (r c : ℕ) → HasPixel result r c
            ↔ (HasPixel whole.now r c × IsNearPixel self.now by r c) }
        ensures inside { LiesIn self.now whole.now → LiesIn result whole.now × LiesIn self.now result }
    {
        Rect {
            top: self.top.saturating_sub(by).max(whole.top),
            left: self.left.saturating_sub(by).max(whole.left),
            bottom: self.bottom.saturating_add(by).min(whole.bottom),
            right: self.right.saturating_add(by).min(whole.right),
        }
    }

    /// The rectangle moved down and to the right.
    pub fn shift(&self, down: u32, right: u32) -> Rect
        requires top { self.now.top + down < 2 ^ 32 }
        requires bottom { self.now.bottom + down < 2 ^ 32 }
        requires left { self.now.left + right < 2 ^ 32 }
        requires right { self.now.right + right < 2 ^ 32 }
        ensures { result ≡ shifted self.now down right }
    {
        Rect {
            top: self.top + down,
            left: self.left + right,
            bottom: self.bottom + down,
            right: self.right + right,
        }
    }

    /// Whether every pixel of the other rectangle is in this one.
    pub fn contains(&self, other: &Rect) -> bool
        ensures pixels { IsTrue result ↔ ((r c : ℕ) → HasPixel other.now r c → HasPixel self.now r c) }
        ensures edges { IsTrue result → IsNonEmpty other.now → LiesIn other.now self.now }
    {
        other.is_empty()
            || (self.top <= other.top
                && other.bottom <= self.bottom
                && self.left <= other.left
                && other.right <= self.right)
    }

    /// The number of its pixels.
    pub fn area(&self) -> u64
        ensures { result ≡ area_of self.now }
    {
        let height = self.bottom.saturating_sub(self.top);
        let width = self.right.saturating_sub(self.left);
        u64::from(height) * u64::from(width)
    }

    fn is_empty(&self) -> bool
        ensures empty { IsTrue result ↔ (IsNonEmpty self.now → ⊥) }
        ensures some { result ≡ false → IsNonEmpty self.now }
    {
        self.bottom <= self.top || self.right <= self.left
    }
}

/// The most rows that a plane has, and the most columns.
pub const MAX_SIDE: u32 = 8192;

/// The most pixels of a frame, and the most samples that are coded together.
pub const MAX_SAMPLES: u32 = 1 << 25;

/// The most planes.
pub const MAX_PLANES: u32 = 3;

/// How many rows, columns and planes there are. A frame's planes have 1 to [`MAX_SIDE`] rows and columns, and 1 to
/// [`MAX_PLANES`] planes: the contracts' word for it is `IsShape`.
#[derive(Clone, Copy, Debug, PartialEq, Eq)]
pub struct Shape {
    pub rows: u32,
    pub cols: u32,
    pub planes: u32,
}

impl Shape {
    /// The rectangle of all pixels.
    pub fn rect(&self) -> Rect
        ensures { result ≡ whole_rect self.now.rows self.now.cols }
    {
        Rect {
            top: 0,
            left: 0,
            bottom: self.rows,
            right: self.cols,
        }
    }
}

/// The row or column of `n` that stands for number `i`, which may be up to 2 outside: -1 stands for 1, and `n` for
/// `n - 2`.
pub fn reflect(i: i64, n: u32) -> u32
    requires size { 4 ≤ n }
    requires low { negsuc 1 ≤ℤ i }
    requires high { i ≤ℤ pos (n + 1) }
    ensures row { result ≡ reflected n i }
    ensures within { result < n }
{
    let n = i64::from(n);
    let inside = if i < 0 {
        -i
    } else if i < n {
        i
    } else {
        2 * n - 2 - i
    };
    inside as u32
}
