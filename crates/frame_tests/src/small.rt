//! The bytes of the small frames that tests take, worked out by hand from TIFF 6.0, section 2: an entry has 12 bytes,
//! the first of them at 10, its value at the eighth; nine entries end at 118, and the strip follows at 122.

use std::test::Fail;
use test_frames::{bright_red, flat, patch};
use tiff_dirs::Order;
use tiff_write::Field;

/// The flat frame. Each line of 12 bytes is an entry.
const FLAT: [u8; 154] = [
    0x49, 0x49, 0x2A, 0x00, 0x08, 0x00, 0x00, 0x00, 0x09, 0x00, 0x00, 0x01, 0x03, 0x00, 0x01, 0x00,
    0x00, 0x00, 0x04, 0x00, 0x00, 0x00, 0x01, 0x01, 0x03, 0x00, 0x01, 0x00, 0x00, 0x00, 0x04, 0x00,
    0x00, 0x00, 0x02, 0x01, 0x03, 0x00, 0x01, 0x00, 0x00, 0x00, 0x10, 0x00, 0x00, 0x00, 0x06, 0x01,
    0x03, 0x00, 0x01, 0x00, 0x00, 0x00, 0x23, 0x80, 0x00, 0x00, 0x11, 0x01, 0x04, 0x00, 0x01, 0x00,
    0x00, 0x00, 0x7A, 0x00, 0x00, 0x00, 0x17, 0x01, 0x04, 0x00, 0x01, 0x00, 0x00, 0x00, 0x20, 0x00,
    0x00, 0x00, 0x8D, 0x82, 0x03, 0x00, 0x02, 0x00, 0x00, 0x00, 0x02, 0x00, 0x02, 0x00, 0x8E, 0x82,
    0x01, 0x00, 0x04, 0x00, 0x00, 0x00, 0x00, 0x01, 0x01, 0x02, 0x12, 0xC6, 0x01, 0x00, 0x04, 0x00,
    0x00, 0x00, 0x01, 0x04, 0x00, 0x00, 0x00, 0x00, 0x00, 0x00, 0x34, 0x12, 0x34, 0x12, 0x34, 0x12,
    0x34, 0x12, 0x34, 0x12, 0x34, 0x12, 0x34, 0x12, 0x34, 0x12, 0x34, 0x12, 0x34, 0x12, 0x34, 0x12,
    0x34, 0x12, 0x34, 0x12, 0x34, 0x12, 0x34, 0x12, 0x34, 0x12,
];

fn is_flat(file: &[u8]) -> bool {
    file == FLAT.as_slice()
}

/// Whether a file has so many bytes, and each of these pieces at its offset.
fn has(file: &[u8], len: usize, pieces: &[(usize, &[u8])]) -> bool {
    file.len() == len
        && pieces.iter().all(|(at, piece)| *at <= file.len() && file[*at..].starts_with(piece))
}

#[test]
fn writes_the_flat_frame(rt: HostRuntime) -> Result<(), Fail> {
    let alloc = rt.alloc();
    assert!(rt; is_flat(&flat(alloc)?.bytes(alloc, Order::Little)?));
    let big = flat(alloc)?.bytes(alloc, Order::Big)?;
    assert!(rt;
        has(
            &big,
            154,
            &[
                (0, b"MM\0*\0\0\0\x08\0\x09\x01\0\0\x03\0\0\0\x01\0\x04\0\0"),
                (58, b"\x01\x11\0\x04\0\0\0\x01\0\0\0\x7A"),
                (
                    82,
                    b"\x82\x8D\0\x03\0\0\0\x02\0\x02\0\x02\x82\x8E\0\x01\0\0\0\x04\0\x01\x01\x02"
                ),
                (152, b"\x12\x34"),
            ]
        )
    );
    Ok(())
}

#[test]
fn writes_the_bright_red_frame(rt: HostRuntime) -> Result<(), Fail> {
    let alloc = rt.alloc();
    let bytes = bright_red(alloc)?.bytes(alloc, Order::Little)?;
    assert!(rt;
        has(
            &bytes,
            250,
            &[
                (18, &[8]),
                (30, &[8]),
                (78, &[128]),
                (192, &[0, 0, 0x40, 6, 0, 0])
            ]
        )
    );
    Ok(())
}

#[test]
fn changes_entries(rt: HostRuntime) -> Result<(), Fail> {
    let alloc = rt.alloc();
    let deep = flat(alloc)?.with(Field::shorts(alloc, 258, &[12])?)?;
    let mut bytes = deep.bytes(alloc, Order::Little)?;
    assert!(rt; !is_flat(&bytes));
    patch(bytes.as_mut_slice(), 42, &[16]);
    patch(bytes.as_mut_slice(), 153, &[0, 0]);
    assert!(rt; is_flat(&bytes));
    let longer = flat(alloc)?.with(Field::longs(alloc, 300, &[7])?)?;
    let entry = b"\x2C\x01\x04\0\x01\0\0\0\x07\0\0\0\0\0\0\0\x34\x12";
    assert!(rt;
        has(
            &longer.bytes(alloc, Order::Little)?,
            166,
            &[(8, &[10]), (66, &[134]), (118, entry)]
        )
    );
    let twice = flat(alloc)?.and(Field::shorts(alloc, 256, &[9])?)?;
    assert!(rt;
        has(
            &twice.bytes(alloc, Order::Little)?,
            166,
            &[(18, &[4]), (118, &[0, 1, 3, 0, 1, 0, 0, 0, 9])]
        )
    );
    let narrow = flat(alloc)?.without(256);
    assert!(rt;
        has(
            &narrow.bytes(alloc, Order::Little)?,
            142,
            &[(8, &[8, 0, 1, 1]), (54, &[110])]
        )
    );
    Ok(())
}

#[test]
fn changes_strips_and_directories(rt: HostRuntime) -> Result<(), Fail> {
    let alloc = rt.alloc();
    let other = flat(alloc)?.with_samples(alloc, &[1000])?;
    assert!(rt;
        has(
            &other.bytes(alloc, Order::Little)?,
            124,
            &[(78, &[2]), (122, &[0xE8, 3])]
        )
    );
    let coded = flat(alloc)?.with_strip(alloc, &[0xFF, 0xD8, 0xFF])?;
    assert!(rt;
        has(
            &coded.bytes(alloc, Order::Big)?,
            125,
            &[(81, &[3]), (122, &[0xFF, 0xD8, 0xFF])]
        )
    );
    // directory 0 has 42 bytes; the raw one has eight entries from 52 on, and ends at 152
    let inner = flat(alloc)?.in_sub_directory(alloc)?;
    assert!(rt;
        has(
            &inner.bytes(alloc, Order::Little)?,
            184,
            &[
                (8, &[3, 0, 254, 0, 4, 0, 1, 0, 0, 0, 1]),
                (22, &[0x4A, 1, 4, 0, 1, 0, 0, 0, 50]),
                (50, &[8, 0, 0, 1]),
                (108, &[152]),
                (152, &[0x34, 0x12]),
            ]
        )
    );
    Ok(())
}
