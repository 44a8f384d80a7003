//! Frames with opcode lists.

use super::frames::{bright_pixels, bright_row};
use super::outside::{frame_replies, is_refused, one_pixel};
use std::alloc::{AllocError, Global};
use std::test::Fail;
use test_frames::{TestFrame, bright_red, undefined};
use tiff_dirs::Order;
use tiff_write::Field;

/// A list of one opcode, a WarpRectilinear, which isn't run: its flags say whether it may be passed over.
fn warp(flags: u8) -> [u8; 20] {
    [
        0, 0, 0, 1, 0, 0, 0, 1, 1, 3, 0, 0, 0, 0, 0, flags, 0, 0, 0, 0,
    ]
}

/// A list of one opcode, a TrimBounds.
fn trim(top: u8, left: u8, bottom: u8, right: u8) -> [u8; 36] {
    [
        0, 0, 0, 1, 0, 0, 0, 6, 1, 3, 0, 0, 0, 0, 0, 0, 0, 0, 0, 16, 0, 0, 0, top, 0, 0, 0, left,
        0, 0, 0, bottom, 0, 0, 0, right,
    ]
}

/// A list of one opcode, a FixBadPixelsConstant of 1600 over a plane whose first pixel is red.
fn mend_1600() -> [u8; 28] {
    [
        0, 0, 0, 1, 0, 0, 0, 4, 1, 3, 0, 0, 0, 0, 0, 0, 0, 0, 0, 8, 0, 0, 6, 64, 0, 0, 0, 0,
    ]
}

/// A list of one opcode, a MapTable of the one entry 4660 over 8 rows and 8 columns.
fn all_4660() -> [u8; 58] {
    [
        0, 0, 0, 1, 0, 0, 0, 7, 1, 3, 0, 0, 0, 0, 0, 0, 0, 0, 0, 38, 0, 0, 0, 0, 0, 0, 0, 0, 0, 0,
        0, 8, 0, 0, 0, 8, 0, 0, 0, 0, 0, 0, 0, 1, 0, 0, 0, 1, 0, 0, 0, 1, 0, 0, 0, 1, 18, 52,
    ]
}

/// The bright-red frame with an opcode list under a tag.
fn with_list(alloc: Global, tag: u16, list: &[u8]) -> Result<TestFrame, AllocError> {
    bright_red(alloc)?.with(undefined(alloc, tag, list)?)
}

/// Whether a script over such a frame has these replies.
fn list_replies(
    alloc: Global,
    tag: u16,
    list: &[u8],
    script: &[u8],
    want: &[u8],
) -> Result<bool, AllocError> {
    frame_replies(alloc, with_list(alloc, tag, list)?, script, want)
}

/// Whether such a frame is refused by a line.
fn is_refused_by(alloc: Global, tag: u16, list: &[u8], line: &[u8]) -> Result<bool, AllocError> {
    let file = with_list(alloc, tag, list)?.bytes(alloc, Order::Little)?;
    is_refused(alloc, &file, line)
}

#[test]
fn lists_are_run(rt: HostRuntime) -> Result<(), Fail> {
    let alloc = rt.alloc();
    let trimmed = b"region 4 3 3 1 ppm\n";
    assert!(rt; list_replies(alloc, 51009, &trim(1, 0, 8, 8), trimmed, bright_row())?);
    let regions = b"region 4 4 3 1 ppm\nregion 5 5 1 1 ppm\n";
    assert!(rt; list_replies(alloc, 51022, &warp(1), regions, bright_pixels())?);
    let pixel = b"region 4 4 1 1 ppm\n";
    let black = b"image 19\nP6\n1 1\n65535\n\0\0\0\0\0\0";
    assert!(rt; list_replies(alloc, 51008, &mend_1600(), pixel, black)?);
    assert!(rt; list_replies(alloc, 51009, &all_4660(), pixel, one_pixel())?);
    Ok(())
}

/// The pattern is that of the active area, so a trim of list 1 leaves it.
#[test]
fn list_1_leaves_the_pattern(rt: HostRuntime) -> Result<(), Fail> {
    let alloc = rt.alloc();
    let pattern = Field::bytes(alloc, 33422, &[1, 2, 0, 1])?;
    let frame = with_list(alloc, 51008, &trim(1, 0, 8, 8))?.with(pattern)?;
    assert!(rt; frame_replies(alloc, frame, b"region 4 3 3 1 ppm\n", bright_row())?);
    Ok(())
}

#[test]
fn lists_are_refused(rt: HostRuntime) -> Result<(), Fail> {
    let alloc = rt.alloc();
    assert!(rt; is_refused_by(alloc, 51022, &warp(0), b"refused Opcode 3 Unknown 0 1\n")?);
    assert!(rt; is_refused_by(alloc, 51009, &trim(0, 0, 9, 8), b"refused Trim 2 0\n")?);
    assert!(rt; is_refused_by(alloc, 51009, &[255; 4], b"refused Opcode 2 TooMany\n")?);
    Ok(())
}
