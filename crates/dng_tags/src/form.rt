//! The second group: what kind of image it is.

ghost use Rattle.std.specs.Prelude.{◌≡◌, ◌≤◌, IfOk, IsTrue};
ghost use Rattle.plane_view.specs.Shapes.{max_side};
ghost use Rattle.dng_tags.specs.Facts.{IsRawShape};
ghost use Rattle.dng_tags.specs.Form.{depth_of, form_of, format_of, lossless_of, photometric_of, samples_per_pixel_of};
ghost use Rattle.dng_tags.specs.Form.{shape_of, side_of};
ghost use Rattle.tag_rules.specs.Tags.{are_whole, rule_of};

use plane_view::{MAX_SAMPLES, MAX_SIDE, Shape};
use tag_rules::{Directories, FrameFault, Tag};

/// The value of PhotometricInterpretation for a colour filter array.
const COLOUR_FILTER_ARRAY: u32 = 32803;

/// The values of Compression: none, and lossless JPEG.
const NONE: u32 = 1;

const LOSSLESS_JPEG: u32 = 7;

/// The value of SampleFormat for unsigned whole numbers.
const UNSIGNED: u32 = 1;

/// What kind of image it is.
#[derive(Clone, Copy, Debug, PartialEq, Eq)]
pub struct Form {
    pub lossless: bool,
    /// The bits of a sample, 8 to 16.
    pub depth: u32,
    pub shape: Shape,
}

/// What kind of image it is.
///
/// # Errors
///
/// `Photometric`, `Compression`, `Samples`, `Depth`, `Format`, `Size`, and what reading the tags is refused for.
#[tactic(auto, unfolding(crate::specs::Form::form_of))]
pub fn read_form(dirs: &Directories<'_>) -> Result<Form, FrameFault>
    ensures answer { result ≡ form_of dirs.now }
    ensures depth { IfOk result (λ form. (8 ≤ form.depth) × (form.depth ≤ 16)) }
    ensures shape { IfOk result (λ form. IsRawShape form.shape) }
{
    check_photometric(dirs)?;
    let lossless = read_lossless(dirs)?;
    check_samples(dirs)?;
    let depth = read_depth(dirs)?;
    check_format(dirs)?;
    let shape = read_shape(dirs)?;
    Ok(Form {
        lossless,
        depth,
        shape,
    })
}

/// The samples of a colour filter array.
#[tactic(auto, unfolding(crate::specs::Form::photometric_of))]
fn check_photometric(dirs: &Directories<'_>) -> Result<u32, FrameFault>
    ensures { result ≡ photometric_of dirs.now }
{
    let v = dirs.required_number(Tag::PhotometricInterpretation)?;
    if v != COLOUR_FILTER_ARRAY {
        return Err(FrameFault::Photometric { v });
    }
    Ok(v)
}

/// Whether the segments are lossless JPEG streams.
#[tactic(auto, unfolding(crate::specs::Form::lossless_of))]
fn read_lossless(dirs: &Directories<'_>) -> Result<bool, FrameFault>
    ensures { result ≡ lossless_of dirs.now }
{
    let v = dirs.number_or(Tag::Compression, NONE)?;
    if v != NONE && v != LOSSLESS_JPEG {
        return Err(FrameFault::Compression { v });
    }
    Ok(v == LOSSLESS_JPEG)
}

/// One sample a pixel.
#[tactic(auto, unfolding(crate::specs::Form::samples_per_pixel_of))]
fn check_samples(dirs: &Directories<'_>) -> Result<u32, FrameFault>
    ensures { result ≡ samples_per_pixel_of dirs.now }
{
    let v = dirs.number_or(Tag::SamplesPerPixel, 1)?;
    if v != 1 {
        return Err(FrameFault::Samples { v });
    }
    Ok(v)
}

/// The bits of a sample.
#[tactic(auto, unfolding(crate::specs::Form::depth_of))]
fn read_depth(dirs: &Directories<'_>) -> Result<u32, FrameFault>
    ensures answer { result ≡ depth_of dirs.now }
    ensures range { IfOk result (λ depth. (8 ≤ depth) × (depth ≤ 16)) }
{
    let v = dirs.number_or(Tag::BitsPerSample, 1)?;
    if !(8..=16).contains(&v) {
        return Err(FrameFault::Depth { v });
    }
    Ok(v)
}

/// Unsigned whole numbers.
#[tactic(auto, unfolding(crate::specs::Form::format_of))]
fn check_format(dirs: &Directories<'_>) -> Result<u32, FrameFault>
    ensures { result ≡ format_of dirs.now }
{
    let v = dirs.number_or(Tag::SampleFormat, UNSIGNED)?;
    if v != UNSIGNED {
        return Err(FrameFault::Format { v });
    }
    Ok(v)
}

/// The rows and columns.
#[tactic(auto, unfolding(crate::specs::Form::shape_of))]
fn read_shape(dirs: &Directories<'_>) -> Result<Shape, FrameFault>
    ensures answer { result ≡ shape_of dirs.now }
    ensures range { IfOk result (λ shape. IsRawShape shape) }
{
    let cols = read_side(dirs, Tag::ImageWidth)?;
    let rows = read_side(dirs, Tag::ImageLength)?;
    if u64::from(rows) * u64::from(cols) > u64::from(MAX_SAMPLES) {
        return Err(FrameFault::Size);
    }
    Ok(Shape {
        rows,
        cols,
        planes: 1,
    })
}

/// The rows or the columns.
#[tactic(auto, unfolding(crate::specs::Form::side_of))]
fn read_side(dirs: &Directories<'_>, tag: Tag) -> Result<u32, FrameFault>
    requires whole { IsTrue (are_whole (rule_of tag).kinds) }
    requires some { 1 ≤ (rule_of tag).fewest }
    ensures answer { result ≡ side_of dirs.now tag }
    ensures range { IfOk result (λ side. (1 ≤ side) × (side ≤ max_side)) }
{
    let side = dirs.required_number(tag)?;
    if !(1..=MAX_SIDE).contains(&side) {
        return Err(FrameFault::Size);
    }
    Ok(side)
}
