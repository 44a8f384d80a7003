//! The greatest black level of an area, and how far the white level is above it.

ghost use Rattle.std.specs.Prelude.{◌≡◌, ◌+◌, ◌*◌, ◌%◌, ◌≤◌, ◌<◌, ◌⊎◌, pos, neg_ℤ, ◌≤ℤ◌, length, slice_index_or};
ghost use Rattle.dng_tags.specs.Black.{across_at, greatest_black, span_of};
ghost use Rattle.dng_tags.specs.Facts.{AreDeltas, AreRanged, IsBlackPattern};
ghost use Rattle.dng_tags.specs.inner.Span.{FallsBefore, FallsOn, IsGreatest, IsGreatestBlack};

use crate::record::Levels;
use lists::Items;

/// How far the white level is above the greatest black level of an active area, in 256ths.
#[tactic(auto, unfolding(crate::specs::Black::span_of))]
pub fn span(levels: &Levels, rows: u32, cols: u32) -> i64
    requires some_rows { 1 ≤ rows }
    requires rows { rows ≤ 8192 }
    requires some_cols { 1 ≤ cols }
    requires cols { cols ≤ 8192 }
    requires ranged { AreRanged levels.now rows cols }
    ensures { result ≡ span_of levels.now rows cols }
{
    i64::from(256 * levels.white) - greatest_black(levels, rows, cols)
}

/// The greatest black level of an active area of this many rows and columns, in 256ths.
#[tactic(auto, using(crate::proofs::SpanLemmas::black_more, crate::proofs::SpanLemmas::black_first, crate::proofs::SpanLemmas::greatest_black_is))]
pub fn greatest_black(levels: &Levels, rows: u32, cols: u32) -> i64
    requires some_rows { 1 ≤ rows }
    requires rows { rows ≤ 8192 }
    requires some_cols { 1 ≤ cols }
    requires cols { cols ≤ 8192 }
    requires ranged { AreRanged levels.now rows cols }
    ensures value { result ≡ greatest_black levels.now rows cols }
    ensures low { neg_ℤ (pos 268435456) ≤ℤ result }
    ensures high { result ≤ℤ pos 268435456 }
{
    let mut most = greatest_in_rows(levels, 0, rows, cols);
    for i in 1..levels.black_rows.min(rows) {
        most = most.max(greatest_in_rows(levels, i, rows, cols));
    }
    most
}

/// The greatest black level of the rows that fall on one row of the pattern.
#[tactic(auto, using(crate::proofs::SpanLemmas::greatest_more, crate::proofs::SpanLemmas::greatest_first, crate::proofs::SpanLemmas::rows_greatest))]
fn greatest_in_rows(levels: &Levels, i: u32, rows: u32, cols: u32) -> i64
    requires rows { rows ≤ 8192 }
    requires some_cols { 1 ≤ cols }
    requires cols { cols ≤ 8192 }
    requires ranged { AreRanged levels.now rows cols }
    requires first { i < rows }
    requires place { i < levels.now.black_rows }
    ensures greatest { IsGreatestBlack (FallsOn rows levels.now.black_rows i) levels.now cols result }
    ensures low { neg_ℤ (pos 268435456) ≤ℤ result }
    ensures high { result ≤ℤ pos 268435456 }
{
    let down = greatest_delta(&levels.delta_v, i, levels.black_rows, rows);
    let mut most = greatest_of_place(levels, i, 0, cols);
    for j in 1..levels.black_cols.min(cols) {
        most = most.max(greatest_of_place(levels, i, j, cols));
    }
    most + i64::from(down)
}

/// The greatest of the pattern's black level at a place and what the columns add that fall on it.
fn greatest_of_place(levels: &Levels, i: u32, j: u32, cols: u32) -> i64
    requires pattern { IsBlackPattern levels.now }
    requires deltas { AreDeltas levels.now.delta_h cols }
    requires cols { cols ≤ 8192 }
    requires first { j < cols }
    requires row { i < levels.now.black_rows }
    requires col { j < levels.now.black_cols }
    ensures greatest { IsGreatest (FallsOn cols levels.now.black_cols j) (across_at levels.now i) result }
    ensures low { neg_ℤ (pos 134217728) ≤ℤ result }
    ensures high { result ≤ℤ pos 134217728 }
{
    let black = black_of_place(levels, i, j);
    let across = greatest_delta(&levels.delta_h, j, levels.black_cols, cols);
    i64::from(black) + i64::from(across)
}

/// The pattern's black level at a place.
fn black_of_place(levels: &Levels, i: u32, j: u32) -> i32
    requires pattern { IsBlackPattern levels.now }
    requires row { i < levels.now.black_rows }
    requires col { j < levels.now.black_cols }
    ensures value { result ≡ slice_index_or levels.now.black (i * levels.now.black_cols + j) (pos 0) }
    ensures low { neg_ℤ (pos 16777216) ≤ℤ result }
    ensures high { result ≤ℤ pos 16777216 }
{
    levels.black.as_slice()[(i * levels.black_cols + j) as usize]
}

/// The greatest of the numbers at the places that are `first` modulo `step`; 0 where there are none.
fn greatest_delta(deltas: &Items<i32>, first: u32, step: u32, count: u32) -> i32
    requires place { first < step }
    requires some { first < count }
    requires deltas { AreDeltas deltas.now count }
    ensures greatest { IsGreatest (FallsOn count step first) (λ k. slice_index_or deltas.now k (pos 0)) result }
    ensures low { neg_ℤ (pos 16777216) ≤ℤ result }
    ensures high { result ≤ℤ pos 16777216 }
{
    greatest_on(deltas.as_slice(), first, step, count)
}

fn greatest_on(deltas: &[i32], first: u32, step: u32, count: u32) -> i32
    requires place { first < step }
    requires some { first < count }
    requires deltas { AreDeltas deltas.now count }
    ensures greatest { IsGreatest (FallsOn count step first) (λ k. slice_index_or deltas.now k (pos 0)) result }
    ensures low { neg_ℤ (pos 16777216) ≤ℤ result }
    ensures high { result ≤ℤ pos 16777216 }
{
    if deltas.is_empty() {
        return 0;
    }
    let mut at = first as usize;
    for k in 0..deltas.len() {
        at = greater_on(deltas, first, step, at, k);
    }
    deltas[at]
}

/// Where the greater number stands, at a place or at `k` if that falls on `first` modulo `step`.
fn greater_on(deltas: &[i32], first: u32, step: u32, at: usize, k: usize) -> usize
    requires some { 0 < step }
    requires at { at < length deltas.now }
    requires k { k < length deltas.now }
    ensures which { (result ≡ at) ⊎ ((result ≡ k) × (k % step ≡ first)) }
    ensures at_most { slice_index_or deltas.now at (pos 0) ≤ℤ slice_index_or deltas.now result (pos 0) }
    ensures k_most { k % step ≡ first
        → slice_index_or deltas.now k (pos 0) ≤ℤ slice_index_or deltas.now result (pos 0) }
{
    if k % step as usize == first as usize && deltas[at] < deltas[k] {
        k
    } else {
        at
    }
}
