//! Levels under settings.

ghost use Rattle.std.specs.Prelude.{◌≡◌, ◌*◌, ◌≤◌, ◌^◌, pos, neg_ℤ, ◌≤ℤ◌, ◌<ℤ◌, [], ◌∷◌, IfOk};
ghost use Rattle.dng_tags.specs.Black.{black_at, greatest_black, row_by_row, span_of};
ghost use Rattle.dng_tags.specs.Facts.{AreRanged};
ghost use Rattle.linearise.specs.inner.Blacks.{IsAreaSize};
ghost use Rattle.linearise.specs.inner.Held.{blacks_in};
ghost use Rattle.linearise.specs.Settings.{under, white_under, with_black};

use crate::blacks::Blacks;
use dng_tags::{Levels, greatest_black};
use lists::Items;
use std::alloc::{AllocError, Global};

/// How far the white level of an area is above its greatest black level, in 256ths.
#[tactic(auto, using(crate::proofs::UnderSettings::span_under))]
pub(crate) fn span(
    levels: &Levels,
    rows: u32,
    cols: u32,
    black: Option<u16>,
    white: Option<u16>,
) -> i64
    requires sides { IsAreaSize rows cols }
    requires ranged { AreRanged levels.now rows cols }
    ensures value { result ≡ span_of (under levels.now black white) rows cols }
    ensures most { result <ℤ pos (2 ^ 29) }
{
    let white = white_of(levels, white);
    let black = greatest_of(levels, rows, cols, black);
    i64::from(256 * white) - black
}

/// The white level: that of the settings, if there is one.
fn white_of(levels: &Levels, white: Option<u16>) -> u32
    requires { levels.now.white ≤ 65535 }
    ensures value { result ≡ white_under levels.now white }
    ensures most { result ≤ 65535 }
{
    match white {
        Some(white) => u32::from(white),
        None => levels.white,
    }
}

/// The greatest black level of an area in 256ths: that of the settings, if there is one.
#[tactic(auto, using(crate::proofs::UnderSettings::greatest_even))]
fn greatest_of(levels: &Levels, rows: u32, cols: u32, black: Option<u16>) -> i64
    requires sides { IsAreaSize rows cols }
    requires ranged { AreRanged levels.now rows cols }
    ensures value { result ≡ greatest_black (with_black levels.now black) rows cols }
    ensures low { neg_ℤ (pos 268435456) ≤ℤ result }
    ensures high { result ≤ℤ pos 268435456 }
{
    match black {
        Some(black) => i64::from(black) * 256,
        None => greatest_black(levels, rows, cols),
    }
}

/// The black levels of an area: that of the settings everywhere, if there is one.
pub(crate) fn blacks_of(
    alloc: Global,
    levels: &Levels,
    rows: u32,
    cols: u32,
    black: Option<u16>,
) -> Result<Blacks, AllocError>
    requires sides { IsAreaSize rows cols }
    requires ranged { AreRanged levels.now rows cols }
    ensures rows { IfOk result (λ blacks. blacks.rows ≡ rows) }
    ensures cols { IfOk result (λ blacks. blacks.cols ≡ cols) }
    ensures blacks { IfOk result (λ blacks. blacks_in blacks
        ≡ row_by_row rows cols (black_at (with_black levels.now black))) }
{
    match black {
        Some(black) => {
            let even = even_levels(alloc, black)?;
            Blacks::of_levels(alloc, &even, rows, cols)
        }
        None => Blacks::of_levels(alloc, levels, rows, cols),
    }
}

/// Levels that have one black level, a whole number, everywhere.
fn even_levels(alloc: Global, black: u16) -> Result<Levels, AllocError>
    ensures rows { IfOk result (λ levels. levels.black_rows ≡ 1) }
    ensures cols { IfOk result (λ levels. levels.black_cols ≡ 1) }
    ensures black { IfOk result (λ levels. levels.black ≡ pos (256 * black) ∷ []) }
    ensures delta_h { IfOk result (λ levels. levels.delta_h ≡ []) }
    ensures delta_v { IfOk result (λ levels. levels.delta_v ≡ []) }
{
    Ok(Levels {
        table: Items::from_vec(Vec::new(alloc)),
        black_rows: 1,
        black_cols: 1,
        black: Items::from_slice(alloc, &[i32::from(black) * 256])?,
        delta_h: Items::from_vec(Vec::new(alloc)),
        delta_v: Items::from_vec(Vec::new(alloc)),
        white: 1,
    })
}
