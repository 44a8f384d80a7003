//! The groups of the active area, of the size at demosaicing and of the default crop.

ghost use Rattle.std.specs.Prelude.{◌≡◌, ◌≤◌, ◌^◌, ℕ, pos, neg_ℤ, ◌+ℤ◌, ◌≤ℤ◌, ◌<ℤ◌, length, unwrap_or, IfOk, IfSome};
ghost use Rattle.std.specs.Prelude.{IsTrue};
ghost use Rattle.std.specs.Int.{int_div_euclid};
ghost use Rattle.plane_view.specs.Rectangles.{IsNonEmpty, LiesIn, height, whole_rect, width};
ghost use Rattle.plane_view.specs.Samples.{held_within};
ghost use Rattle.tiff_dirs.specs.Numbers.{IsOf32Bits};
ghost use Rattle.dng_tags.specs.Area.{active_of, crop_of, crop_rect, extent_in, extent_of, has_pixels};
ghost use Rattle.dng_tags.specs.Area.{large_enough, rect_in, rest_of};
ghost use Rattle.dng_tags.specs.Facts.{IsRawShape};
ghost use Rattle.dng_tags.specs.inner.Area.{IsBelow};
ghost use Rattle.tag_rules.specs.Tags.{are_fractions, rule_of};

use plane_view::{Rect, Shape};
use tag_rules::{Directories, Fractions, FrameFault, Tag, Whole};

/// A place or a size in whole pixels.
#[derive(Clone, Copy, Debug, PartialEq, Eq)]
pub struct Extent {
    pub across: i64,
    pub down: i64,
}

/// The fewest rows or columns of a plane that is demosaiced.
const MIN_SIDE: u32 = 4;

/// The active area in the plane that list 1 leaves, which is the whole plane where the tag is absent.
///
/// # Errors
///
/// `Active`, and what reading the tag is refused for.
#[tactic(auto, unfolding(crate::specs::Area::active_of))]
pub fn read_active(dirs: &Directories<'_>, shape: Shape) -> Result<Rect, FrameFault>
    ensures answer { result ≡ active_of dirs.now shape }
    ensures some { IfOk result IsNonEmpty }
    ensures inside { IfOk result (λ active. LiesIn active (whole_rect shape.rows shape.cols)) }
{
    let active = match dirs.whole(Tag::ActiveArea)? {
        Some(edges) => read_rect(&edges),
        None => shape.rect(),
    };
    if !has_pixels(active) || shape.rows < active.bottom || shape.cols < active.right {
        return Err(FrameFault::Active);
    }
    Ok(active)
}

/// Top, left, bottom, right.
fn read_rect(edges: &Whole<'_>) -> Rect
    requires { 4 ≤ length edges.now }
    ensures { result ≡ rect_in edges.now }
{
    Rect {
        top: edges.at(0),
        left: edges.at(1),
        bottom: edges.at(2),
        right: edges.at(3),
    }
}

/// Whether a rectangle has a pixel.
fn has_pixels(rect: Rect) -> bool
    ensures { result ≡ has_pixels rect }
{
    rect.top < rect.bottom && rect.left < rect.right
}

/// A plane that is large enough to be demosaiced.
///
/// # Errors
///
/// `Size`.
#[tactic(auto, unfolding(crate::specs::Area::large_enough))]
pub fn check_large_enough(shape: Shape) -> Result<Shape, FrameFault>
    ensures answer { result ≡ large_enough shape }
    ensures rows { IfOk result (λ _. 4 ≤ shape.rows) }
    ensures cols { IfOk result (λ _. 4 ≤ shape.cols) }
{
    if shape.rows < MIN_SIDE || shape.cols < MIN_SIDE {
        return Err(FrameFault::Size);
    }
    Ok(shape)
}

/// The default crop of a plane, which is the whole plane where its tags are absent.
///
/// # Errors
///
/// `Crop`, and what reading the tags is refused for.
#[tactic(auto, unfolding(crate::specs::Area::crop_of))]
pub fn read_crop(dirs: &Directories<'_>, rows: u32, cols: u32) -> Result<Rect, FrameFault>
    requires rows { rows ≤ 8192 }
    requires cols { cols ≤ 8192 }
    ensures answer { result ≡ crop_of dirs.now rows cols }
    ensures some { IfOk result IsNonEmpty }
    ensures inside { IfOk result (λ crop. LiesIn crop (whole_rect rows cols)) }
{
    let corner = Extent { across: 0, down: 0 };
    let origin = extent_or(read_extent(dirs, Tag::DefaultCropOrigin)?, corner);
    let rest = rest_of(rows, cols, origin);
    let size = extent_or(read_extent(dirs, Tag::DefaultCropSize)?, rest);
    let crop = crop_rect(rows, cols, origin, size);
    if !has_pixels(crop) {
        return Err(FrameFault::Crop);
    }
    Ok(crop)
}

/// A place or a size that was found, or its default.
fn extent_or(found: Option<Extent>, default: Extent) -> Extent
    ensures value { result ≡ unwrap_or found default }
    ensures below { (limit : ℕ) → IfSome found (IsBelow limit) → IsBelow limit default → IsBelow limit result }
{
    match found {
        Some(extent) => extent,
        None => default,
    }
}

/// A pair of numbers under a tag, rounded down, if the tag is there.
#[tactic(auto, unfolding(crate::specs::Area::extent_of))]
fn read_extent(dirs: &Directories<'_>, tag: Tag) -> Result<Option<Extent>, FrameFault>
    requires kinds { IsTrue (are_fractions (rule_of tag).kinds) }
    requires two { 2 ≤ (rule_of tag).fewest }
    ensures answer { result ≡ extent_of dirs.now tag }
    ensures below { IfOk result (λ found. IfSome found (IsBelow (2 ^ 33))) }
    ensures far_below { IfOk result (λ found. IfSome found (IsBelow (2 ^ 34))) }
{
    match dirs.fractions(tag)? {
        Some(pair) => Ok(Some(rounded_down(&pair)?)),
        None => Ok(None),
    }
}

/// A pair of fractions rounded down, across and down.
fn rounded_down(pair: &Fractions<'_>) -> Result<Extent, FrameFault>
    requires { 2 ≤ length pair.now }
    ensures answer { result ≡ extent_in pair.now }
    ensures below { IfOk result (IsBelow (2 ^ 33)) }
    ensures far_below { IfOk result (IsBelow (2 ^ 34)) }
{
    let (x, x_over) = pair.at(0);
    let (y, y_over) = pair.at(1);
    if x_over <= 0 || y_over <= 0 {
        return Err(FrameFault::Crop);
    }
    let across = quotient(x, x_over);
    let down = quotient(y, y_over);
    Ok(Extent { across, down })
}

/// A fraction rounded down.
#[tactic(auto, using(crate::proofs::AreaLemmas::quotient_low, crate::proofs::AreaLemmas::quotient_high))]
fn quotient(numerator: i64, denominator: i64) -> i64
    requires numerator { IsOf32Bits numerator }
    requires denominator { IsOf32Bits denominator }
    requires positive { pos 0 <ℤ denominator }
    ensures value { result ≡ int_div_euclid numerator denominator }
    ensures low { neg_ℤ (pos (2 ^ 33)) ≤ℤ result }
    ensures high { result ≤ℤ pos (2 ^ 33) }
{
    numerator.div_euclid(denominator)
}

/// What a plane has from an origin on.
fn rest_of(rows: u32, cols: u32, origin: Extent) -> Extent
    requires rows { rows ≤ 8192 }
    requires cols { cols ≤ 8192 }
    requires origin { IsBelow (2 ^ 33) origin }
    ensures value { result ≡ rest_of rows cols origin }
    ensures below { IsBelow (2 ^ 34) result }
{
    let across = i64::from(cols) - origin.across;
    let down = i64::from(rows) - origin.down;
    Extent { across, down }
}

/// The pixels of a plane that a crop has.
fn crop_rect(rows: u32, cols: u32, origin: Extent, size: Extent) -> Rect
    requires origin { IsBelow (2 ^ 33) origin }
    requires size { IsBelow (2 ^ 34) size }
    ensures value { result ≡ crop_rect rows cols origin size }
    ensures bottom { result.bottom ≤ rows }
    ensures right { result.right ≤ cols }
{
    let (top, bottom) = edges(rows, origin.down, size.down);
    let (left, right) = edges(cols, origin.across, size.across);
    Rect {
        top,
        left,
        bottom,
        right,
    }
}

/// Where a part of a length begins and ends.
fn edges(length: u32, from: i64, size: i64) -> (u32, u32)
    requires from_low { neg_ℤ (pos (2 ^ 33)) ≤ℤ from }
    requires from_high { from ≤ℤ pos (2 ^ 33) }
    requires size_low { neg_ℤ (pos (2 ^ 34)) ≤ℤ size }
    requires size_high { size ≤ℤ pos (2 ^ 34) }
    ensures first { result.0 ≡ held_within length from }
    ensures last { result.1 ≡ held_within length (from +ℤ size) }
    ensures within { result.1 ≤ length }
{
    let end = from + size;
    (held_within(length, from), held_within(length, end))
}

/// An edge held within a length.
fn held_within(length: u32, edge: i64) -> u32
    ensures value { result ≡ held_within length edge }
    ensures within { result ≤ length }
{
    edge.max(0).min(i64::from(length)) as u32
}
