//! Tests of the lines of a script.

use super::outside::{Outside, flat_file, frame_replies, one_pixel, ran, replies};
use developer::Status;
use std::alloc::{AllocError, Global};
use std::test::Fail;
use test_frames::{bright_red, forward_identity, plain};
use tiff_dirs::Order;

fn accepted_lines() -> [&'static [u8]; 5] {
    [
        b"region 0 0 1 1 ppm",
        b"  region  0 0   1 1 ppm  \n",
        b"region 0 0 1 1 ppm\r\n",
        b"region 0000000003 3 1 1 ppm\n",
        b"region 3 3 1 1 ppm\n",
    ]
}

/// Lines over the flat frame, and their replies.
fn lines_and_replies() -> [(&'static [u8], &'static [u8]); 24] {
    [
        (b"region 0 0 1 1 ppm\r\r\n", b"no region\n"),
        (b"region 00000000003 3 1 1 ppm\n", b"no region\n"),
        (b"region 4 0 1 1 ppm\n", b"no region\n"),
        (b"region 0 4 1 1 ppm\n", b"no region\n"),
        (b"region 1 0 4 1 ppm\n", b"no region\n"),
        (b"region 0 1 1 4 ppm\n", b"no region\n"),
        (b"region 0 0 5 1 ppm\n", b"no region\n"),
        (b"region 4294967295 0 1 1 ppm\n", b"no region\n"),
        (b"region 4294967296 0 1 1 ppm\n", b"no region\n"),
        (b"region 0 0 0 1 ppm\n", b"no region\n"),
        (b"region 0 0 1 0 ppm\n", b"no region\n"),
        (b"region 0 0 1 1 TIFF\n", b"no region\n"),
        (b"region 0 0 1 1\n", b"no word\n"),
        (b"region 0 0 1 1 ppm ppm\n", b"no word\n"),
        (b"region\t0 0 1 1 ppm\n", b"no word\n"),
        (b"stat 1\n", b"no word\n"),
        (b"\n", b"no word\n"),
        (b"set hue 1\n", b"no key\n"),
        (b"set white 0\n", b"no value\n"),
        (b"set tone knots 0 0 0 5 65535 9\n", b"no value\n"),
        (b"set matrix forward2\n", b"no matrix\n"),
        (b"set black 65535\n", b"no levels\n"),
        (b"set black 65534\n", b"ok\n"),
        (b"stat\n", b"stat 0 0 0 268435456\n"),
    ]
}

#[test]
fn lines(rt: HostRuntime) -> Result<(), Fail> {
    let alloc = rt.alloc();
    let file = flat_file(alloc)?;
    for line in accepted_lines() {
        assert!(rt; replies(alloc, &file, line, one_pixel())?, "{line:?}");
    }
    for (line, reply) in lines_and_replies() {
        assert!(rt; replies(alloc, &file, line, reply)?, "{line:?}");
    }
    Ok(())
}

/// Refused lines leave nothing behind: in one script they get the replies that each gets alone, and no cell was made.
#[test]
fn refused_lines_in_one_script(rt: HostRuntime) -> Result<(), Fail> {
    let alloc = rt.alloc();
    let script =
        b"set black 65535\nset white 0\nset matrix forward2\nset hue 1\nstat 1\nregion 0 0 1 0 ppm\n\
        region 0 0 5 1 ppm\nstat\n";
    let want =
        b"no levels\nno value\nno matrix\nno key\nno word\nno region\nno region\nstat 0 0 0 268435456\n";
    assert!(rt; replies(alloc, &flat_file(alloc)?, script, want)?);
    Ok(())
}

#[test]
fn long_lines(rt: HostRuntime) -> Result<(), Fail> {
    let alloc = rt.alloc();
    let file = flat_file(alloc)?;
    let mut script = b"region 0 0 1 1 ppm".to_vec(alloc)?;
    script.resize(4096, b' ')?;
    assert!(rt; replies(alloc, &file, &script, one_pixel())?);
    script.push(b' ')?;
    assert!(rt; replies(alloc, &file, &script, b"no line\n")?);
    Ok(())
}

#[test]
fn long_scripts(rt: HostRuntime) -> Result<(), Fail> {
    let alloc = rt.alloc();
    let file = flat_file(alloc)?;
    let mut script = vec![in alloc; b'x'; 1 << 24]?;
    assert!(rt; replies(alloc, &file, &script, b"no line\n")?);
    script.push(b'x')?;
    let (status, written) = ran(alloc, &file, &script)?;
    assert!(rt; status == Status::ScriptTooLong && written.is_empty());
    Ok(())
}

/// The reply to a region of the frame of samples 1000 with the identity as its first forward matrix, then that to a
/// change to no matrix, and to the region again.
fn two_matrices() -> &'static [u8] {
    b"image 19\nP6\n1 1\n65535\n\x04\x02\x03\xCB\x04\xE0ok\nimage 19\nP6\n1 1\n65535\n\x03\xE8\x03\xE8\x03\xE8"
}

#[test]
fn changes_are_seen(rt: HostRuntime) -> Result<(), Fail> {
    let alloc = rt.alloc();
    let forward = forward_identity(alloc)?;
    let frame = plain(alloc, 4, 4, &[1000; 16])?.with(forward)?;
    let script = b"region 0 0 1 1 ppm\nset matrix camera\nregion 0 0 1 1 ppm\n";
    assert!(rt; frame_replies(alloc, frame, script, two_matrices())?);
    Ok(())
}

/// What the flat frame's pixel becomes after some lines that write nothing but their replies.
fn pixel_after(alloc: Global, lines: &[u8], pixel: &[u8]) -> Result<bool, AllocError> {
    let mut script = lines.to_vec(alloc)?;
    script.extend_from_slice(b"region 0 0 1 1 ppm\n")?;
    let (status, bytes) = ran(alloc, &flat_file(alloc)?, &script)?;
    Ok(status == Status::Done && bytes.ends_with(pixel))
}

/// A refused change leaves the settings as they were: the gains that were set before it are still there.
#[test]
fn refused_changes_change_nothing(rt: HostRuntime) -> Result<(), Fail> {
    let alloc = rt.alloc();
    let twice = b"\x24\x68\x24\x68\x24\x68";
    assert!(rt; pixel_after(alloc, b"set exposure 2048\n", twice)?);
    assert!(rt; pixel_after(alloc, b"set exposure 2048\nset black 65535\n", twice)?);
    assert!(rt; pixel_after(alloc, b"set exposure 2048\nset matrix forward1\n", twice)?);
    assert!(rt; pixel_after(alloc, b"set exposure 2048\nset exposure 65537\n", twice)?);
    assert!(rt;
        pixel_after(
            alloc,
            b"set exposure 2048\nset exposure 1024\n",
            b"\x12\x34\x12\x34\x12\x34"
        )?
    );
    Ok(())
}

/// The reply to a change to means, and to the region of the bright red in its row: a half of it at the site to the
/// right.
fn bright_row_by_means() -> &'static [u8] {
    b"ok\nimage 31\nP6\n3 1\n65535\n\x06\x40\0\0\0\0\x03\x20\0\0\0\0\0\0\0\0\0\0"
}

/// Gains of 2, 1 and 3/2; and a white level of a half, which makes 4660 * 65535 / 32768, that is 9319.9.
#[test]
fn further_keys_are_seen(rt: HostRuntime) -> Result<(), Fail> {
    let alloc = rt.alloc();
    assert!(rt;
        pixel_after(
            alloc,
            b"set wb 8192 4096 6144\n",
            b"\x24\x68\x12\x34\x1B\x4E"
        )?
    );
    assert!(rt; pixel_after(alloc, b"set white 32768\n", b"\x24\x68\x24\x68\x24\x68")?);
    let script = b"set demosaic bilinear\nregion 4 4 3 1 ppm\n";
    assert!(rt; frame_replies(alloc, bright_red(alloc)?, script, bright_row_by_means())?);
    Ok(())
}

/// A frame of 20 columns and 40 rows, no two rows of which are alike.
fn rising_frame(alloc: Global) -> Result<Vec<u8>, AllocError> {
    let mut samples = Vec::new(alloc);
    for i in 0..800u16 {
        samples.push(i * 80)?;
    }
    plain(alloc, 20, 40, &samples)?.bytes(alloc, Order::Little)
}

/// The reply to a script over that frame, with cells of a side.
fn in_cells(alloc: Global, side: &str, script: &[u8]) -> Result<Vec<u8>, AllocError> {
    let mut outside = Outside::new(alloc, &rising_frame(alloc)?, script)?;
    let _status = outside.run(alloc, &["f.dng", "--cell", side])?;
    outside.out.bytes().to_vec(alloc)
}

/// The whole frame is written alike in three bands, two of which are whole rows of cells, and in one; so is each of its
/// rows by itself.
#[test]
fn bands_make_up_a_region(rt: HostRuntime) -> Result<(), Fail> {
    let alloc = rt.alloc();
    let whole = in_cells(alloc, "512", b"region 0 0 20 40 ppm\n")?;
    assert_eq!(rt; whole.len(), 11 + 15 + 4800);
    assert!(rt; in_cells(alloc, "16", b"region 0 0 20 40 ppm\n")? == whole);
    let row = in_cells(alloc, "16", b"region 0 16 20 1 ppm\n")?;
    assert_eq!(rt; row.get(10 + 14..), whole.get(26 + 16 * 120..26 + 17 * 120));
    Ok(())
}
