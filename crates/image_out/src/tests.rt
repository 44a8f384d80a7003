//! Heads, reply lines and samples as bytes, and the piece that is written next.

use super::{Piece, TIFF_HEAD, pixel_bytes, pixmap_head, reply_line, tiff_head};
use dev_settings::Format;
use std::alloc::AllocError;

#[test]
fn writes_heads(rt: HostRuntime) {
    for (w, h, want) in [
        (1, 1, "P6\n1 1\n65535\n"),
        (3, 1, "P6\n3 1\n65535\n"),
        (8192, 4096, "P6\n8192 4096\n65535\n"),
    ] {
        assert_eq!(rt; pixmap_head(w, h).as_bytes(), want.as_bytes(), "{w} by {h}");
    }
    for (n, want) in [
        (19, "image 19\n"),
        (0, "image 0\n"),
        (18_446_744_073_709_551_615, "image 18446744073709551615\n"),
    ] {
        assert_eq!(rt; reply_line(n).as_bytes(), want.as_bytes(), "{n}");
    }
}

/// The head of a tag image file of one pixel, in parts: the header and the count of entries, the entries, and what
/// stands behind them.
const ONE_PIXEL: [&[u8]; 16] = [
    b"\x49\x49\x2a\x00\x08\x00\x00\x00\x0c\x00",
    b"\x00\x01\x04\x00\x01\x00\x00\x00\x01\x00\x00\x00",
    b"\x01\x01\x04\x00\x01\x00\x00\x00\x01\x00\x00\x00",
    b"\x02\x01\x03\x00\x03\x00\x00\x00\x9e\x00\x00\x00",
    b"\x03\x01\x03\x00\x01\x00\x00\x00\x01\x00\x00\x00",
    b"\x06\x01\x03\x00\x01\x00\x00\x00\x02\x00\x00\x00",
    b"\x11\x01\x04\x00\x01\x00\x00\x00\xb4\x00\x00\x00",
    b"\x15\x01\x03\x00\x01\x00\x00\x00\x03\x00\x00\x00",
    b"\x16\x01\x04\x00\x01\x00\x00\x00\x01\x00\x00\x00",
    b"\x17\x01\x04\x00\x01\x00\x00\x00\x06\x00\x00\x00",
    b"\x1a\x01\x05\x00\x01\x00\x00\x00\xa4\x00\x00\x00",
    b"\x1b\x01\x05\x00\x01\x00\x00\x00\xac\x00\x00\x00",
    b"\x28\x01\x03\x00\x01\x00\x00\x00\x02\x00\x00\x00",
    b"\x00\x00\x00\x00\x10\x00\x10\x00\x10\x00",
    b"\x48\x00\x00\x00\x01\x00\x00\x00",
    b"\x48\x00\x00\x00\x01\x00\x00\x00",
];

/// Whether bytes are these parts, one after the other.
fn is_in_parts(bytes: &[u8], parts: &[&[u8]]) -> bool {
    let mut rest = bytes;
    for part in parts {
        if rest.len() < part.len() || &rest[..part.len()] != *part {
            return false;
        }
        rest = &rest[part.len()..];
    }
    rest.is_empty()
}

#[test]
fn writes_the_head_of_a_tag_image_file(rt: HostRuntime) {
    let mut out = [7; TIFF_HEAD];
    tiff_head(1, 1, &mut out);
    assert!(rt; is_in_parts(&out, &ONE_PIXEL));
}

#[test]
fn writes_the_size_of_a_tag_image_file(rt: HostRuntime) {
    let mut out = [7; TIFF_HEAD];
    tiff_head(8192, 4080, &mut out);
    for (at, want) in [
        (18, b"\x00\x20\x00\x00"),
        (30, b"\xf0\x0f\x00\x00"),
        (102, b"\xf0\x0f\x00\x00"),
        // 200,540,160 bytes of pixels
        (114, b"\x00\x00\xf4\x0b"),
    ] {
        assert_eq!(rt; &out[at..at + 4], want.as_slice(), "{at}");
    }
}

#[test]
fn writes_pixels(rt: HostRuntime) {
    let mut out = [7; 6];
    for (samples, format, want) in [
        (
            [0x0640, 0x0320, 0x04b0],
            Format::Ppm,
            [0x06, 0x40, 0x03, 0x20, 0x04, 0xb0],
        ),
        (
            [0x0640, 0x0320, 0x04b0],
            Format::Tiff,
            [0x40, 0x06, 0x20, 0x03, 0xb0, 0x04],
        ),
        (
            [0, 65535, 0x1234],
            Format::Ppm,
            [0, 0, 0xff, 0xff, 0x12, 0x34],
        ),
        (
            [0, 65535, 0x1234],
            Format::Tiff,
            [0, 0, 0xff, 0xff, 0x34, 0x12],
        ),
    ] {
        pixel_bytes(&samples, format, &mut out);
        assert_eq!(rt; out, want);
    }
    pixel_bytes(&[], Format::Ppm, &mut []);
    pixel_bytes(&[], Format::Tiff, &mut []);
}

#[test]
fn puts_an_image_in_one_piece(rt: HostRuntime) -> Result<(), AllocError> {
    let mut piece = Piece::new(rt.alloc())?;
    assert!(rt; piece.is_empty());
    piece.push_line(&reply_line(19));
    piece.push_line(&pixmap_head(1, 1));
    piece.push_samples(&[0x0640, 0x0320, 0x04b0], Format::Ppm);
    let want = b"image 19\nP6\n1 1\n65535\n\x06\x40\x03\x20\x04\xb0";
    assert_eq!(rt; piece.as_bytes(), want.as_slice());
    piece.clear();
    assert!(rt; piece.is_empty());
    Ok(())
}

#[test]
fn is_full_at_64_kib(rt: HostRuntime) -> Result<(), AllocError> {
    let mut piece = Piece::new(rt.alloc())?;
    let row = [0xabcd; 512];
    for _ in 0..64 {
        assert!(rt; !piece.is_full());
        piece.push_samples(&row, Format::Ppm);
    }
    assert!(rt; piece.is_full());
    assert_eq!(rt; piece.len(), 65536);
    piece.push(b"x");
    assert!(rt; piece.is_full());
    assert_eq!(rt; piece.as_bytes().last(), Some(&b'x'));
    Ok(())
}
