//! Rows that were packed by a script of Python's strings of binary digits, with ones after the last sample of a row.

use super::*;
use std::test::Fail;
use tiff_dirs::Order;

/// Two rows of five samples, and the bytes that spell them.
struct Case {
    depth: u32,
    order: Order,
    bytes: &'static [u8],
    samples: [u16; 10],
}

const CASES: [Case; 10] = [
    Case {
        depth: 8,
        order: Order::Little,
        bytes: &[0xff, 0x85, 0x33, 0xa7, 0x00, 0x0d, 0x01, 0xd0, 0x26, 0x80],
        samples: [255, 133, 51, 167, 0, 13, 1, 208, 38, 128],
    },
    Case {
        depth: 9,
        order: Order::Big,
        bytes: &[
            0xff, 0xd1, 0xbc, 0xbc, 0xc0, 0x07, 0x6a, 0x80, 0x68, 0x95, 0x78, 0x07,
        ],
        samples: [511, 326, 485, 460, 0, 213, 1, 324, 343, 256],
    },
    Case {
        depth: 10,
        order: Order::Little,
        bytes: &[
            0xff, 0xcb, 0xdf, 0xbf, 0x3d, 0x00, 0x3f, 0x69, 0x80, 0x11, 0x1d, 0x9d, 0x80, 0x3f,
        ],
        samples: [1023, 189, 1007, 829, 0, 422, 1, 71, 413, 512],
    },
    Case {
        depth: 11,
        order: Order::Big,
        bytes: &[
            0xff, 0xec, 0x2e, 0x07, 0x48, 0x90, 0x01, 0x83, 0x60, 0x04, 0xf1, 0x05, 0xf8, 0x01,
        ],
        samples: [2047, 779, 1038, 1161, 0, 1051, 1, 482, 95, 1024],
    },
    Case {
        depth: 12,
        order: Order::Little,
        bytes: &[
            0xff, 0xf7, 0x07, 0x79, 0xa1, 0xca, 0x00, 0x0f, 0x99, 0xf0, 0x01, 0x46, 0x1a, 0xbf,
            0x80, 0x0f,
        ],
        samples: [4095, 1799, 1946, 458, 0, 2463, 1, 1121, 2751, 2048],
    },
    Case {
        depth: 13,
        order: Order::Big,
        bytes: &[
            0xff, 0xfc, 0x61, 0x77, 0x68, 0xa0, 0x70, 0x00, 0x7f, 0xcf, 0xc0, 0x00, 0x50, 0x07,
            0xb6, 0xd8, 0x00, 0x7f,
        ],
        samples: [8191, 4485, 7092, 2567, 0, 6648, 1, 2051, 7021, 4096],
    },
    Case {
        depth: 14,
        order: Order::Little,
        bytes: &[
            0xff, 0xfc, 0xee, 0x41, 0xa8, 0x98, 0xc1, 0x00, 0x03, 0x58, 0x38, 0x00, 0x12, 0x97,
            0x8e, 0xb2, 0x80, 0x03,
        ],
        samples: [16383, 3812, 1698, 6337, 0, 5646, 1, 2654, 3762, 8192],
    },
    Case {
        depth: 15,
        order: Order::Big,
        bytes: &[
            0xff, 0xff, 0x42, 0xe7, 0x37, 0x7f, 0x51, 0x80, 0x00, 0x1f, 0x54, 0x04, 0x00, 0x07,
            0xa4, 0x4d, 0x56, 0x28, 0x00, 0x1f,
        ],
        samples: [32767, 20665, 26351, 29976, 0, 10754, 1, 29833, 21858, 16384],
    },
    Case {
        depth: 16,
        order: Order::Little,
        bytes: &[
            0xff, 0xff, 0x9a, 0x37, 0xc0, 0x2f, 0x62, 0xaa, 0x00, 0x00, 0xfd, 0x2b, 0x01, 0x00,
            0xb1, 0x16, 0xe5, 0x0d, 0x00, 0x80,
        ],
        samples: [65535, 14234, 12224, 43618, 0, 11261, 1, 5809, 3557, 32768],
    },
    Case {
        depth: 16,
        order: Order::Big,
        bytes: &[
            0xff, 0xff, 0x06, 0x38, 0x50, 0x29, 0x0c, 0x2d, 0x00, 0x00, 0x9f, 0xca, 0x00, 0x01,
            0xd6, 0x84, 0x8c, 0xd2, 0x80, 0x00,
        ],
        samples: [65535, 1592, 20521, 3117, 0, 40906, 1, 54916, 36050, 32768],
    },
];

#[test]
fn unpacks_two_rows(rt: HostRuntime) {
    for case in &CASES {
        let depth = case.depth;
        assert!(rt; 8 <= depth && depth <= 16);
        let mut out = [7; 10];
        let outcome = unpack(case.bytes, depth, case.order, 2, 5, &mut out);
        assert_eq!(rt; outcome, Ok(()), "depth {depth}");
        assert_eq!(rt; out, case.samples, "depth {depth}");
    }
}

#[test]
fn tells_what_is_short(rt: HostRuntime) -> Result<(), Fail> {
    let mut out = [7; 2];
    let short = Short { needed: 3, had: 2 };
    assert_eq!(rt;
        unpack(&[0xab, 0xcd], 12, Order::Little, 1, 2, &mut out),
        Err(short)
    );
    assert_eq!(rt; out, [7, 7]);
    assert_eq!(rt;
        unpack(&[0xab, 0xcd, 0xef], 12, Order::Little, 1, 2, &mut out),
        Ok(())
    );
    assert_eq!(rt; out, [0xabc, 0xdef]);
    assert_eq!(rt;
        unpack(&[0xab, 0xcd, 0xef, 0x01], 12, Order::Big, 1, 2, &mut out),
        Ok(())
    );
    assert_eq!(rt; out, [0xabc, 0xdef]);
    assert_eq!(rt; unpack(&[], 12, Order::Big, 0, 2, &mut []), Ok(()));
    let text = format!(in rt.alloc(); "{short}")?;
    assert_eq!(rt; text.as_str(), "the samples take 3 bytes, and there are 2");
    Ok(())
}
