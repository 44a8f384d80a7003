//! The file of a made frame.

ghost use Rattle.std.specs.Prelude.{◌≡◌, ◌≤◌, ◌*◌, ◌^◌, [], ◌∷◌, IfOk, length};
ghost use Rattle.frame_make.specs.Made.{bytes_under, compression_of, depth_of, fields_of, longs, made_bytes, shorts};

use crate::Make;
use crate::strips::made_strip;
use lists::Items;
use std::alloc::{AllocError, Global};
use tiff_dirs::Order;
use tiff_write::{Field, file_bytes};

/// The file of a frame of w columns and h rows, whose sample at row r, column c is
/// `(number + 37 * r + 101 * c + r * c) % 4096`: a directory of 11 entries behind the header, in the order II, and one
/// strip. It has at most 2^28 bytes, and is accepted (`made_is_accepted`).
///
/// # Errors
///
/// `AllocError` when out of memory.
#[tactic(auto, unfolding(crate::specs::Made::made_bytes))]
pub fn make_frame(
    alloc: Global,
    number: u32,
    w: u32,
    h: u32,
    kind: Make,
) -> Result<Vec<u8>, AllocError>
    requires some_cols { 4 ≤ w }
    requires cols { w ≤ 8192 }
    requires some_rows { 4 ≤ h }
    requires rows { h ≤ 8192 }
    requires area { w * h ≤ 2 ^ 25 }
    ensures bytes { IfOk result (λ bytes. bytes.items ≡ made_bytes number w h kind) }
    ensures short { IfOk result (λ bytes. length bytes.items ≤ 2 ^ 28) }
{
    let strip = made_strip(alloc, number, w, h, kind)?;
    let strip_length = u32::try_from(strip.len()).map_err(|_| AllocError)?;
    let fields = made_fields(alloc, w as u16, h as u16, kind, strip_length)?;
    file_bytes(alloc, Order::Little, &[Items::from_vec(fields)], &strip)
}

/// The entries of the directory.
#[tactic(auto, unfolding(crate::specs::Made::fields_of))]
fn made_fields(
    alloc: Global,
    w: u16,
    h: u16,
    kind: Make,
    strip_length: u32,
) -> Result<Vec<Field>, AllocError>
    ensures { IfOk result (λ fields. fields.items ≡ fields_of w h (depth_of kind) (compression_of kind) strip_length) }
{
    let mut fields = image_fields(alloc, w, h, kind)?;
    fields.append(&mut strip_fields(alloc, strip_length)?)?;
    fields.append(&mut camera_fields(alloc)?)?;
    Ok(fields)
}

/// The size and the form of the image.
fn image_fields(alloc: Global, w: u16, h: u16, kind: Make) -> Result<Vec<Field>, AllocError>
    ensures { IfOk result (λ fields. fields.items
        ≡ shorts 256 (w ∷ []) ∷ shorts 257 (h ∷ []) ∷ shorts 258 (depth_of kind ∷ [])
        ∷ shorts 259 (compression_of kind ∷ [])
        ∷ shorts 262 (32803 ∷ []) ∷ []) }
{
    let fields = vec![in alloc;
        Field::shorts(alloc, 256, &[w])?,
        Field::shorts(alloc, 257, &[h])?,
        Field::shorts(alloc, 258, &[depth(kind)])?,
        Field::shorts(alloc, 259, &[compression(kind)])?,
        Field::shorts(alloc, 262, &[32803])?,
    ]?;
    Ok(fields)
}

/// Where the strip is, and how many bytes it has.
fn strip_fields(alloc: Global, strip_length: u32) -> Result<Vec<Field>, AllocError>
    ensures { IfOk result (λ fields. fields.items ≡ longs 273 (146 ∷ []) ∷ longs 279 (strip_length ∷ []) ∷ []) }
{
    let fields = vec![in alloc;
        Field::longs(alloc, 273, &[146])?,
        Field::longs(alloc, 279, &[strip_length])?,
    ]?;
    Ok(fields)
}

/// The pattern, the version and the white level.
fn camera_fields(alloc: Global) -> Result<Vec<Field>, AllocError>
    ensures { IfOk result (λ fields. fields.items
        ≡ shorts 33421 (2 ∷ 2 ∷ []) ∷ bytes_under 33422 (0 ∷ 1 ∷ 1 ∷ 2 ∷ []) ∷ bytes_under 50706 (1 ∷ 4 ∷ 0 ∷ 0 ∷ [])
        ∷ shorts 50717 (4095 ∷ []) ∷ []) }
{
    let fields = vec![in alloc;
        Field::shorts(alloc, 33421, &[2, 2])?,
        Field::bytes(alloc, 33422, &[0, 1, 1, 2])?,
        Field::bytes(alloc, 50706, &[1, 4, 0, 0])?,
        Field::shorts(alloc, 50717, &[4095])?,
    ]?;
    Ok(fields)
}

/// The bits of a sample, as the directory tells them.
fn depth(kind: Make) -> u16
    ensures { result ≡ depth_of kind }
{
    match kind {
        Make::Plain16 => 16,
        Make::Packed12 | Make::Lossless => 12,
    }
}

/// The number of the compression.
fn compression(kind: Make) -> u16
    ensures { result ≡ compression_of kind }
{
    match kind {
        Make::Plain16 | Make::Packed12 => 1,
        Make::Lossless => 7,
    }
}
