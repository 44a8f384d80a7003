//! The black levels of an area.

ghost use Rattle.std.specs.Prelude.{◌≡◌, ℕ, ◌+◌, ◌-◌, ◌*◌, ◌/◌, ◌%◌, ◌<◌, ◌≤◌, ◌↔◌, pos, ◌+ℤ◌, length, slice_index_or};
ghost use Rattle.std.specs.Prelude.{IfOk, IsTrue};
ghost use Rattle.dng_tags.specs.Black.{across_at, black_at, row_by_row};
ghost use Rattle.dng_tags.specs.Facts.{AreDeltas, AreRanged, IsBlackPattern};
ghost use Rattle.tag_rules.specs.Quantities.{AreWithin, IsWithin};
ghost use Rattle.linearise.specs.inner.Blacks.{AreBlacks, IsAreaSize, black_by};

use dng_tags::Levels;
use lists::Items;
use std::alloc::{AllocError, Global};

/// The black level of each place of an area, in 256ths: that of the column in each row of the pattern, and what each
/// row adds.
#[derive(Debug, Drop)]
pub(crate) struct Blacks {
    pub(crate) rows: u32,
    pub(crate) cols: u32,
    /// How many rows the pattern has.
    repeat: u32,
    /// For each row of the pattern, the level of each column of the area.
    across: Items<i32>,
    /// What each row of the area adds.
    down: Items<i32>,
    ghost valid: { AreBlacks rows cols repeat across down },
}

impl Blacks {
    ghost use Rattle.linearise.specs.inner.Held.{SameRow, blacks_in};

    /// The black levels of an area of so many rows and columns.
    pub(crate) fn of_levels(
        alloc: Global,
        levels: &Levels,
        rows: u32,
        cols: u32,
    ) -> Result<Blacks, AllocError>
        requires sides { IsAreaSize rows cols }
        requires pattern { IsBlackPattern levels.now }
        requires delta_h { AreDeltas levels.now.delta_h cols }
        requires delta_v { AreDeltas levels.now.delta_v rows }
        ensures rows { IfOk result (λ blacks. blacks.rows ≡ rows) }
        ensures cols { IfOk result (λ blacks. blacks.cols ≡ cols) }
        ensures blacks { IfOk result (λ blacks. blacks_in blacks ≡ row_by_row rows cols (black_at levels.now)) }
    {
        let across = across_levels(alloc, levels, cols)?;
        let down = down_levels(alloc, &levels.delta_v, rows)?;
        Ok(Blacks {
            rows,
            cols,
            repeat: levels.black_rows,
            across,
            down,
        })
    }

    /// The levels of the columns of row `r` from `left` up to `right`.
    pub(crate) fn row(&self, r: u32, left: u32, right: u32) -> &[i32]
        requires order { left ≤ right }
        requires right { right ≤ self.now.cols }
        ensures long { length result.now ≡ right - left }
        ensures within { AreWithin 33554432 result.now }
        ensures levels { (k : ℕ) → k < right - left → slice_index_or result.now k (pos 0)
            ≡ slice_index_or self.now.across (r % self.now.repeat * self.now.cols + (left + k)) (pos 0) }
    {
        let start = (r % self.repeat * self.cols + left) as usize;
        &self.across.as_slice()[start..start + (right - left) as usize]
    }

    /// What row `r` adds.
    pub(crate) fn down(&self, r: u32) -> i32
        requires { r < self.now.rows }
        ensures value { result ≡ slice_index_or self.now.down r (pos 0) }
        ensures within { IsWithin 16777216 result }
    {
        self.down.as_slice()[r as usize]
    }

    /// Whether two areas of as many rows and columns have the same levels.
    pub(crate) fn same(&self, other: &Blacks) -> bool
        requires rows { self.now.rows ≡ other.now.rows }
        requires cols { self.now.cols ≡ other.now.cols }
        ensures { IsTrue result ↔ (blacks_in self.now ≡ blacks_in other.now) }
    {
        self.is_held_alike(other) || self.same_rows(other)
    }

    /// Whether two areas are held by the same numbers; else they may still have the same levels.
    fn is_held_alike(&self, other: &Blacks) -> bool
        ensures repeat { IsTrue result → self.now.repeat ≡ other.now.repeat }
        ensures across { IsTrue result → self.now.across ≡ other.now.across }
        ensures down { IsTrue result → self.now.down ≡ other.now.down }
    {
        self.repeat == other.repeat && self.across == other.across && self.down == other.down
    }

    fn same_rows(&self, other: &Blacks) -> bool
        requires rows { self.now.rows ≡ other.now.rows }
        requires cols { self.now.cols ≡ other.now.cols }
        ensures { IsTrue result ↔ ((r : ℕ) → r < self.now.rows → SameRow self.now other.now r) }
    {
        for r in 0..self.rows {
            if !self.same_row(other, r) {
                return false;
            }
        }
        true
    }

    fn same_row(&self, other: &Blacks, r: u32) -> bool
        requires rows { self.now.rows ≡ other.now.rows }
        requires cols { self.now.cols ≡ other.now.cols }
        requires row { r < self.now.rows }
        ensures { IsTrue result ↔ SameRow self.now other.now r }
    {
        same_sums(
            self.row(r, 0, self.cols),
            self.down(r),
            other.row(r, 0, other.cols),
            other.down(r),
        )
    }
}

/// Whether the numbers of two lists, each plus one of its own, are the same.
fn same_sums(xs: &[i32], x: i32, ys: &[i32], y: i32) -> bool
    requires long { length xs.now ≡ length ys.now }
    requires xs { AreWithin 33554432 xs.now }
    requires x { IsWithin 16777216 x }
    requires ys { AreWithin 33554432 ys.now }
    requires y { IsWithin 16777216 y }
    ensures { IsTrue result ↔ ((k : ℕ) → k < length xs.now → slice_index_or xs.now k (pos 0) +ℤ x
        ≡ slice_index_or ys.now k (pos 0) +ℤ y) }
{
    for k in 0..xs.len() {
        if !same_sum(xs[k], x, ys[k], y) {
            return false;
        }
    }
    true
}

/// Whether two numbers plus one of their own are the same.
fn same_sum(x: i32, more_x: i32, y: i32, more_y: i32) -> bool
    requires x { IsWithin 33554432 x }
    requires more_x { IsWithin 16777216 more_x }
    requires y { IsWithin 33554432 y }
    requires more_y { IsWithin 16777216 more_y }
    ensures { IsTrue result ↔ (x +ℤ more_x ≡ y +ℤ more_y) }
{
    let one = sum(x, more_x);
    let other = sum(y, more_y);
    one == other
}

fn sum(across: i32, down: i32) -> i32
    requires across { IsWithin 33554432 across }
    requires down { IsWithin 16777216 down }
    ensures { result ≡ across +ℤ down }
{
    across + down
}

/// For each row of the pattern, the level of each column of the area.
fn across_levels(alloc: Global, levels: &Levels, cols: u32) -> Result<Items<i32>, AllocError>
    requires some_cols { 1 ≤ cols }
    requires cols { cols ≤ 8192 }
    requires pattern { IsBlackPattern levels.now }
    requires delta_h { AreDeltas levels.now.delta_h cols }
    ensures long { IfOk result (λ across. length across ≡ levels.now.black_rows * cols) }
    ensures within { IfOk result (λ across. AreWithin 33554432 across) }
    ensures levels { IfOk result (λ across. (k : ℕ) → k < length across → slice_index_or across k (pos 0)
        ≡ across_at levels.now (k / cols) (k % cols)) }
{
    let mut across = vec![in alloc; 0; (levels.black_rows * cols) as usize]?;
    fill_across(levels, cols, across.as_mut_slice());
    Ok(Items::from_vec(across))
}

/// What each row of the area adds.
fn down_levels(alloc: Global, deltas: &Items<i32>, rows: u32) -> Result<Items<i32>, AllocError>
    requires { AreWithin 16777216 deltas.now }
    ensures long { IfOk result (λ down. length down ≡ rows) }
    ensures within { IfOk result (λ down. AreWithin 16777216 down) }
    ensures levels { IfOk result (λ down. (k : ℕ) → k < length down → slice_index_or down k (pos 0)
        ≡ slice_index_or deltas.now k (pos 0)) }
{
    let mut down = vec![in alloc; 0; rows as usize]?;
    fill_down(deltas, down.as_mut_slice());
    Ok(Items::from_vec(down))
}

/// Writes, for each row of the pattern, the level of each column.
fn fill_across(levels: &Levels, cols: u32, out: &mut [i32])
    requires some_cols { 1 ≤ cols }
    requires cols { cols ≤ 8192 }
    requires pattern { IsBlackPattern levels.now }
    requires delta_h { AreDeltas levels.now.delta_h cols }
    requires long { length out.old ≡ levels.now.black_rows * cols }
    ensures within { AreWithin 33554432 out.new }
    ensures levels { (k : ℕ) → k < length out.new → slice_index_or out.new k (pos 0) ≡ across_at levels.now (k / cols)
        (k % cols) }
{
    let cols = cols as usize;
    for k in 0..out.len() {
        out[k] = across_of(levels, k / cols, k % cols);
    }
}

/// The level of a row of the pattern in a column of the area.
fn across_of(levels: &Levels, i: usize, c: usize) -> i32
    requires pattern { IsBlackPattern levels.now }
    requires delta_h { AreWithin 16777216 levels.now.delta_h }
    requires row { i < levels.now.black_rows }
    ensures value { result ≡ across_at levels.now i c }
    ensures within { IsWithin 33554432 result }
{
    let cols = levels.black_cols as usize;
    pattern_level(levels.black.as_slice(), i * cols + c % cols)
        + delta_at(levels.delta_h.as_slice(), c)
}

fn pattern_level(black: &[i32], at: usize) -> i32
    requires at { at < length black.now }
    requires within { AreWithin 16777216 black.now }
    ensures value { result ≡ slice_index_or black.now at (pos 0) }
    ensures within { IsWithin 16777216 result }
{
    black[at]
}

/// What a row or a column adds: nothing where there are no deltas.
fn delta_at(deltas: &[i32], at: usize) -> i32
    requires { AreWithin 16777216 deltas.now }
    ensures value { result ≡ slice_index_or deltas.now at (pos 0) }
    ensures within { IsWithin 16777216 result }
{
    if at < deltas.len() { deltas[at] } else { 0 }
}

/// Writes what each row adds.
fn fill_down(deltas: &Items<i32>, out: &mut [i32])
    requires { AreWithin 16777216 deltas.now }
    ensures within { AreWithin 16777216 out.new }
    ensures levels { (k : ℕ) → k < length out.new → slice_index_or out.new k (pos 0) ≡ slice_index_or deltas.now k
        (pos 0) }
{
    for k in 0..out.len() {
        out[k] = delta_at(deltas.as_slice(), k);
    }
}
