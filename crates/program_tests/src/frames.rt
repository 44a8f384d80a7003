//! Frames that are developed and frames that are refused.

ghost use Rattle.std.specs.Prelude.{◌≡◌, ◌≤◌, ◌⊎◌};

use super::outside::{flat_file, frame_replies, is_refused, one_pixel, ran, replies};
use developer::Status;
use ljpeg_predict::{EncodeFault, encode};
use std::alloc::{AllocError, Global};
use std::test::Fail;
use test_frames::{TestFrame, bright_red, flat, forward_identity, patch, plain};
use tiff_dirs::Order;
use tiff_write::{Field, Place};

/// The reply to a region of one pixel of the flat frame as a tag image file.
fn one_pixel_as_tiff() -> &'static [u8] {
    b"image 186\n\x49\x49\x2A\x00\x08\x00\x00\x00\x0C\x00\
      \x00\x01\x04\x00\x01\x00\x00\x00\x01\x00\x00\x00\x01\x01\x04\x00\x01\x00\x00\x00\x01\x00\x00\x00\
      \x02\x01\x03\x00\x03\x00\x00\x00\x9E\x00\x00\x00\x03\x01\x03\x00\x01\x00\x00\x00\x01\x00\x00\x00\
      \x06\x01\x03\x00\x01\x00\x00\x00\x02\x00\x00\x00\x11\x01\x04\x00\x01\x00\x00\x00\xB4\x00\x00\x00\
      \x15\x01\x03\x00\x01\x00\x00\x00\x03\x00\x00\x00\x16\x01\x04\x00\x01\x00\x00\x00\x01\x00\x00\x00\
      \x17\x01\x04\x00\x01\x00\x00\x00\x06\x00\x00\x00\x1A\x01\x05\x00\x01\x00\x00\x00\xA4\x00\x00\x00\
      \x1B\x01\x05\x00\x01\x00\x00\x00\xAC\x00\x00\x00\x28\x01\x03\x00\x01\x00\x00\x00\x02\x00\x00\x00\
      \x00\x00\x00\x00\x10\x00\x10\x00\x10\x00\
      \x48\x00\x00\x00\x01\x00\x00\x00\x48\x00\x00\x00\x01\x00\x00\x00\
      \x34\x12\x34\x12\x34\x12"
}

/// The samples of a row of the bright-red frame, as they end a tag image file.
fn bright_samples() -> &'static [u8] {
    b"\x40\x06\x20\x03\xB0\x04\x20\x03\x00\x00\x00\x00\x00\x00\x00\x00\x00\x00"
}

/// The replies to two regions of the bright-red frame.
pub fn bright_pixels() -> &'static [u8] {
    b"image 31\nP6\n3 1\n65535\n\x06\x40\x03\x20\x04\xB0\x03\x20\x00\x00\x00\x00\x00\x00\x00\x00\x00\x00\
      image 19\nP6\n1 1\n65535\n\x01\x90\x00\x00\x00\x00"
}

/// The reply to the region of the bright red in its row.
pub fn bright_row() -> &'static [u8] {
    b"image 31\nP6\n3 1\n65535\n\x06\x40\x03\x20\x04\xB0\x03\x20\x00\x00\x00\x00\x00\x00\x00\x00\x00\x00"
}

/// Whether the flat frame with other bytes from a place on is refused with a line.
fn patched_is_refused(
    alloc: Global,
    at: usize,
    new: &[u8],
    line: &[u8],
) -> Result<bool, AllocError> {
    let mut file = flat_file(alloc)?;
    patch(&mut file, at, new);
    is_refused(alloc, &file, line)
}

#[test]
fn regions(rt: HostRuntime) -> Result<(), Fail> {
    let alloc = rt.alloc();
    assert!(rt; frame_replies(alloc, flat(alloc)?, b"region 0 0 1 1 ppm\n", one_pixel())?);
    let regions = b"region 4 4 3 1 ppm\nregion 5 5 1 1 ppm\n";
    assert!(rt; frame_replies(alloc, bright_red(alloc)?, regions, bright_pixels())?);
    Ok(())
}

/// Whether a row of the bright-red frame as a tag image file begins with its line and ends with its samples.
fn bright_row_as_tiff(alloc: Global) -> Result<bool, AllocError> {
    let bright = bright_red(alloc)?.bytes(alloc, Order::Little)?;
    let (_, written) = ran(alloc, &bright, b"region 4 4 3 1 tiff\n")?;
    Ok(written.starts_with(b"image 198\n") && written.ends_with(bright_samples()))
}

#[test]
fn tag_image_files(rt: HostRuntime) -> Result<(), Fail> {
    let alloc = rt.alloc();
    assert!(rt;
        frame_replies(
            alloc,
            flat(alloc)?,
            b"region 0 0 1 1 tiff\n",
            one_pixel_as_tiff()
        )?
    );
    assert!(rt; bright_row_as_tiff(alloc)?);
    Ok(())
}

/// Whether the flat frame without its last byte is refused.
fn cut_is_refused(alloc: Global) -> Result<bool, AllocError> {
    let mut cut = flat_file(alloc)?;
    cut.pop();
    is_refused(alloc, &cut, b"refused Outside 0\n")
}

#[test]
fn frames_are_refused(rt: HostRuntime) -> Result<(), Fail> {
    let alloc = rt.alloc();
    assert!(rt; cut_is_refused(alloc)?);
    assert!(rt; is_refused(alloc, b"", b"refused NotTiff\n")?);
    for (at, new, line) in [
        (
            4,
            b"\xF0\xFF\xFF\xFF".as_slice(),
            b"refused BadDirectory 4294967280\n".as_slice(),
        ),
        (
            8,
            b"\xFF\xFF".as_slice(),
            b"refused BadDirectory 8\n".as_slice(),
        ),
    ] {
        assert!(rt; patched_is_refused(alloc, at, new, line)?, "at {at}");
    }
    Ok(())
}

/// An entry of 16-bit numbers in place of the flat frame's, and the line that it is refused with.
type Refusal = (u16, &'static [u16], &'static [u8]);

fn refusals() -> [Refusal; 7] {
    [
        (254, &[1], b"refused NoRaw\n"),
        (262, &[34892], b"refused Photometric 34892\n"),
        (259, &[8], b"refused Compression 8\n"),
        (259, &[7], b"refused Segment 0 Jpeg NoStart\n"),
        (258, &[32], b"refused Depth 32\n"),
        (256, &[9000], b"refused Size\n"),
        (278, &[0], b"refused Layout\n"),
    ]
}

/// Whether the flat frame with another entry is refused with a line.
fn entry_is_refused(alloc: Global, field: Field, line: &[u8]) -> Result<bool, AllocError> {
    let frame = flat(alloc)?.with(field)?;
    is_refused(alloc, &frame.bytes(alloc, Order::Little)?, line)
}

#[test]
fn entries_are_refused_by_name(rt: HostRuntime) -> Result<(), Fail> {
    let alloc = rt.alloc();
    for (tag, numbers, line) in refusals() {
        let field = Field::shorts(alloc, tag, numbers)?;
        assert!(rt; entry_is_refused(alloc, field, line)?, "{tag}");
    }
    let short = Field::longs(alloc, 279, &[31])?;
    assert!(rt; entry_is_refused(alloc, short, b"refused Segment 0 Short 32 31\n")?);
    Ok(())
}

/// Whether the region of one pixel of a flat frame has the flat frame's reply.
fn is_flat(alloc: Global, frame: TestFrame, order: Order) -> Result<bool, AllocError> {
    let file = frame.bytes(alloc, order)?;
    replies(alloc, &file, b"region 0 0 1 1 ppm\n", one_pixel())
}

#[test]
fn a_frame_is_read_where_it_stands(rt: HostRuntime) -> Result<(), Fail> {
    let alloc = rt.alloc();
    assert!(rt; is_flat(alloc, flat(alloc)?, Order::Big)?);
    assert!(rt; is_flat(alloc, flat(alloc)?.in_sub_directory(alloc)?, Order::Little)?);
    let twice = flat(alloc)?.and(Field::shorts(alloc, 256, &[9])?)?;
    assert!(rt; is_flat(alloc, twice, Order::Little)?);
    Ok(())
}

/// The bright-red frame in strips of so many rows, from these places and of these lengths.
fn in_strips(
    alloc: Global,
    rows: u16,
    places: &[u32],
    lengths: &[u32],
) -> Result<TestFrame, AllocError> {
    let mut offsets = Vec::new(alloc);
    for place in places {
        offsets.push(Place::Data(*place))?;
    }
    bright_red(alloc)?
        .with(Field::shorts(alloc, 278, &[rows])?)?
        .with(Field::places(alloc, 273, &offsets)?)?
        .with(Field::longs(alloc, 279, lengths)?)
}

/// The bright-red frame as one tile of 16 by 16, whose padding is 65535.
fn in_a_tile(alloc: Global) -> Result<TestFrame, AllocError> {
    let mut samples = [65535; 256];
    for row in 0..8 {
        samples[16 * row..16 * row + 8].fill(0);
    }
    samples[16 * 4 + 4] = 1600;
    bright_red(alloc)?
        .with_samples(alloc, &samples)?
        .with(Field::shorts(alloc, 322, &[16])?)?
        .with(Field::shorts(alloc, 323, &[16])?)?
        .with(Field::places(alloc, 324, &[Place::Data(0)])?)?
        .with(Field::longs(alloc, 325, &[512])?)
}

/// The replies to two regions, which see the lower half of the bright-red frame twice.
fn lower_half_twice() -> &'static [u8] {
    b"image 19\nP6\n1 1\n65535\n\x06\x40\x03\x20\x04\xB0image 19\nP6\n1 1\n65535\n\x06\x40\x03\x20\x04\xB0"
}

#[test]
fn segments_make_up_the_frame(rt: HostRuntime) -> Result<(), Fail> {
    let alloc = rt.alloc();
    let script = b"region 4 4 3 1 ppm\nregion 5 5 1 1 ppm\n";
    let strips = in_strips(alloc, 3, &[0, 48, 96], &[48, 48, 32])?;
    assert!(rt; frame_replies(alloc, strips, script, bright_pixels())?);
    assert!(rt; frame_replies(alloc, in_a_tile(alloc)?, script, bright_pixels())?);
    let twice = in_strips(alloc, 4, &[64, 64], &[64, 64])?;
    let script = b"region 4 0 1 1 ppm\nregion 4 4 1 1 ppm\n";
    assert!(rt; frame_replies(alloc, twice, script, lower_half_twice())?);
    Ok(())
}

/// A stream of samples of 16 bits, each 4660, in lines of `cols`, by a predictor.
fn flat_stream(alloc: Global, count: usize, cols: u32, predictor: u8) -> Result<Vec<u8>, AllocError>
    requires count { (count ≡ 8) ⊎ (count ≡ 16) }
    requires cols { (cols ≡ 2) ⊎ (cols ≡ 4) }
    requires some { 1 ≤ predictor }
    requires seven { predictor ≤ 7 }
{
    let samples = vec![in alloc; 4660; count]?;
    let mut stream = Vec::new(alloc);
    match encode(&samples, cols, 16, predictor, &mut stream) {
        Ok(()) => Ok(stream),
        Err(EncodeFault::Memory) => Err(AllocError),
    }
}

/// The flat frame with a strip that is a lossless stream.
fn with_stream(alloc: Global, stream: &[u8]) -> Result<TestFrame, AllocError> {
    flat(alloc)?
        .with(Field::shorts(alloc, 259, &[7])?)?
        .with_strip(alloc, stream)
}

/// The flat frame with a strip that is a stream by a predictor.
fn predicted(alloc: Global, predictor: u8) -> Result<TestFrame, AllocError>
    requires some { 1 ≤ predictor }
    requires seven { predictor ≤ 7 }
{
    let stream = flat_stream(alloc, 16, 4, predictor)?;
    with_stream(alloc, &stream)
}

/// A stream of 4 lines, 2 samples a line and 2 components, which spells 4660 sixteen times: the code word 0 is for
/// category 0, and 10 for category 15.
fn stream_of_two_components() -> &'static [u8] {
    b"\xFF\xD8\xFF\xC3\x00\x0E\x10\x00\x04\x00\x02\x02\x01\x11\x00\x02\x11\x00\
      \xFF\xC4\x00\x15\x00\x01\x01\x00\x00\x00\x00\x00\x00\x00\x00\x00\x00\x00\x00\x00\x00\x00\x0F\
      \xFF\xDA\x00\x0A\x02\x01\x00\x02\x00\x01\x00\x00\x89\x19\xC4\x8C\xC0\x00\xFF\xD9"
}

/// The flat frame in two lossless tiles of 4 rows and 2 columns, the second of which may be damaged.
fn in_two_streams(alloc: Global, damaged: bool) -> Result<TestFrame, AllocError> {
    let stream = flat_stream(alloc, 8, 2, 1)?;
    if stream.is_empty() || stream.len() > 65_535 {
        return flat(alloc);
    }
    let mut both = stream.as_slice().to_vec(alloc)?;
    both.push(if damaged { 0 } else { 0xFF })?;
    both.extend_from_slice(&stream[1..])?;
    let length = stream.len() as u32;
    with_stream(alloc, &both)?
        .with(Field::shorts(alloc, 322, &[2])?)?
        .with(Field::shorts(alloc, 323, &[4])?)?
        .with(Field::places(alloc, 324, &[Place::Data(0), Place::Data(length)])?)?
        .with(Field::longs(alloc, 325, &[length, length])?)
}

/// Whether a frame whose second tile is no stream is refused.
fn damaged_is_refused(alloc: Global) -> Result<bool, AllocError> {
    let damaged = in_two_streams(alloc, true)?.bytes(alloc, Order::Little)?;
    is_refused(alloc, &damaged, b"refused Segment 1 Jpeg NoStart\n")
}

#[test]
fn lossless_frames(rt: HostRuntime) -> Result<(), Fail> {
    let alloc = rt.alloc();
    for predictor in 1..8 {
        assert!(rt;
            is_flat(alloc, predicted(alloc, predictor)?, Order::Little)?,
            "{predictor}"
        );
    }
    let frame = with_stream(alloc, stream_of_two_components())?;
    assert!(rt; is_flat(alloc, frame, Order::Big)?);
    assert!(rt; is_flat(alloc, in_two_streams(alloc, false)?, Order::Little)?);
    assert!(rt; damaged_is_refused(alloc)?);
    Ok(())
}

/// Whether the first pixel of a flat frame of 4 by 4 samples of 16 bits, with one or two entries more, is this one.
fn develops(
    alloc: Global,
    sample: u16,
    field: Field,
    other: Option<Field>,
    pixel: &[u8],
) -> Result<bool, AllocError> {
    let mut frame = plain(alloc, 4, 4, &[sample; 16])?.with(field)?;
    if let Some(other) = other {
        frame = frame.with(other)?;
    }
    let file = frame.bytes(alloc, Order::Little)?;
    let (status, bytes) = ran(alloc, &file, b"region 0 0 1 1 ppm\n")?;
    Ok(status == Status::Done && bytes.as_slice().ends_with(pixel))
}

#[test]
fn stages_are_those_of_the_frame(rt: HostRuntime) -> Result<(), Fail> {
    let alloc = rt.alloc();
    let white = Field::shorts(alloc, 50717, &[4095])?;
    let black = Field::shorts(alloc, 50714, &[256])?;
    let linear = develops(alloc, 2048, white, Some(black), b"\x77\x7F\x77\x7F\x77\x7F")?;
    assert!(rt; linear);
    let neutral = Field::rationals(alloc, 50728, &[(1, 2), (1, 1), (2, 3)])?;
    assert!(rt; develops(alloc, 30_000, neutral, None, b"\xEA\x60\x75\x30\xAF\xC8")?);
    let forward = forward_identity(alloc)?;
    assert!(rt; develops(alloc, 1000, forward, None, b"\x04\x02\x03\xCB\x04\xE0")?);
    Ok(())
}

/// The bright-red frame with two entries more.
fn bright_with(alloc: Global, field: Field, other: Field) -> Result<TestFrame, AllocError> {
    bright_red(alloc)?.with(field)?.with(other)
}

#[test]
fn areas_are_those_of_the_frame(rt: HostRuntime) -> Result<(), Fail> {
    let alloc = rt.alloc();
    let area = Field::shorts(alloc, 50829, &[1, 0, 8, 8])?;
    let active = bright_with(alloc, area, Field::bytes(alloc, 33422, &[1, 2, 0, 1])?)?;
    assert!(rt; frame_replies(alloc, active, b"region 4 3 3 1 ppm\n", bright_row())?);
    let origin = Field::shorts(alloc, 50719, &[3, 2])?;
    let cropped = bright_with(alloc, origin, Field::shorts(alloc, 50720, &[4, 4])?)?;
    assert!(rt; frame_replies(alloc, cropped, b"region 1 2 3 1 ppm\n", bright_row())?);
    Ok(())
}
