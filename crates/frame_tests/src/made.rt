//! A frame's first bytes, typed from the tables of TIFF 6.0 and DNG 1.6, a packed row computed by hand, and small
//! frames that are read back.

use super::fetching::{Formula, read_back};
use dng_tags::FrameFault;
use frame_make::{Make, make_frame};
use std::alloc::{AllocError, Global};
use std::test::Fail;

/// The directory of 16 by 16 samples of 16 bits, and the first two samples of number 5.
const HEAD: [u8; 150] = [
    0x49, 0x49, 0x2A, 0x00, 0x08, 0x00, 0x00, 0x00, 0x0B, 0x00, // header, 11 entries
    0x00, 0x01, 0x03, 0x00, 0x01, 0x00, 0x00, 0x00, 0x10, 0x00, 0x00, 0x00, // ImageWidth
    0x01, 0x01, 0x03, 0x00, 0x01, 0x00, 0x00, 0x00, 0x10, 0x00, 0x00, 0x00, // ImageLength
    0x02, 0x01, 0x03, 0x00, 0x01, 0x00, 0x00, 0x00, 0x10, 0x00, 0x00, 0x00, // BitsPerSample
    0x03, 0x01, 0x03, 0x00, 0x01, 0x00, 0x00, 0x00, 0x01, 0x00, 0x00, 0x00, // Compression
    0x06, 0x01, 0x03, 0x00, 0x01, 0x00, 0x00, 0x00, 0x23, 0x80, 0x00, 0x00, // PhotometricInterpretation
    0x11, 0x01, 0x04, 0x00, 0x01, 0x00, 0x00, 0x00, 0x92, 0x00, 0x00, 0x00, // StripOffsets
    0x17, 0x01, 0x04, 0x00, 0x01, 0x00, 0x00, 0x00, 0x00, 0x02, 0x00, 0x00, // StripByteCounts
    0x8D, 0x82, 0x03, 0x00, 0x02, 0x00, 0x00, 0x00, 0x02, 0x00, 0x02, 0x00, // CFARepeatPatternDim
    0x8E, 0x82, 0x01, 0x00, 0x04, 0x00, 0x00, 0x00, 0x00, 0x01, 0x01, 0x02, // CFAPattern
    0x12, 0xC6, 0x01, 0x00, 0x04, 0x00, 0x00, 0x00, 0x01, 0x04, 0x00, 0x00, // DNGVersion
    0x1D, 0xC6, 0x03, 0x00, 0x01, 0x00, 0x00, 0x00, 0xFF, 0x0F, 0x00, 0x00, // WhiteLevel
    0x00, 0x00, 0x00, 0x00, // no further directory
    0x05, 0x00, 0x6A, 0x00, // 5, 5 + 101
];

/// The first row of five samples of number 4090, packed: FFA, 05F, 0C4, 129, 18E, and four zero bits.
const ROW: [u8; 8] = [0xFF, 0xA0, 0x5F, 0x0C, 0x41, 0x29, 0x18, 0xE0];

/// Whether the 16 by 16 frame begins so and has 146 and 512 bytes.
fn begins_so(alloc: Global) -> Result<bool, AllocError> {
    let file = make_frame(alloc, 5, 16, 16, Make::Plain16)?;
    Ok(file.len() == 658 && file.as_slice().starts_with(&HEAD))
}

/// Whether the packed frame of five columns and four rows has this row behind its directory, and 146 and 32 bytes.
fn has_row(alloc: Global) -> Result<bool, AllocError> {
    let file = make_frame(alloc, 4090, 5, 4, Make::Packed12)?;
    Ok(file.len() == 178 && file.as_slice().get(146..154) == Some(&ROW))
}

#[test]
fn has_these_bytes(rt: HostRuntime) -> Result<(), Fail> {
    assert!(rt; begins_so(rt.alloc())?);
    assert!(rt; has_row(rt.alloc())?);
    Ok(())
}

/// The number of the frames that are read back: the greatest.
const NUMBER: u32 = u32::MAX;

/// What reading back a made frame of seven columns and five rows gives: how many samples, and how many are wrong.
fn made_back(alloc: Global, kind: Make) -> Result<(u64, u32), FrameFault> {
    match make_frame(alloc, NUMBER, 7, 5, kind) {
        Ok(file) => read_back(alloc, &file, Formula::Made { number: NUMBER }),
        Err(_) => Err(FrameFault::Memory),
    }
}

#[test]
fn reads_back(rt: HostRuntime) {
    for kind in [Make::Plain16, Make::Packed12, Make::Lossless] {
        assert_eq!(rt; made_back(rt.alloc(), kind), Ok((35, 0)));
    }
}
