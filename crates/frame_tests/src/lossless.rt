//! Lossless streams, as they are decoded and encoded.

use ljpeg_predict::{JpegFault, decode, encode};
use std::alloc::{AllocError, Global};
use std::test::Fail;

/// A stream in three parts, how many samples are wanted, and what it answers.
#[derive(Drop)]
struct Case {
    head: &'static [u8],
    predictor: u8,
    data: &'static [u8],
    wanted: usize,
    answer: Result<&'static [u16], JpegFault>,
}

/// The bytes of a stream: its head, and unless that is all of it, the predictor, the scan header's other two bytes and
/// the data.
fn stream(alloc: Global, case: &Case) -> Result<Vec<u8>, AllocError> {
    let mut bytes = Vec::new(alloc);
    bytes.extend_from_slice(case.head)?;
    if case.predictor > 0 {
        bytes.push(case.predictor)?;
        bytes.extend_from_slice(&[0, 0])?;
        bytes.extend_from_slice(case.data)?;
    }
    Ok(bytes)
}

/// 2 lines of 2 samples of 12 bits. The code 0 stands for category 0, and 10 for category 1.
static SQUARE: [u8; 45] = [
    0xff, 0xd8, 0xff, 0xc3, 0, 11, 12, 0, 2, 0, 2, 1, 1, 0x11, 0, 0xff, 0xc4, 0, 21, 0, 1, 1, 0, 0,
    0, 0, 0, 0, 0, 0, 0, 0, 0, 0, 0, 0, 0, 1, 0xff, 0xda, 0, 8, 1, 1, 0,
];

/// One sample of 16 bits. The code 0 stands for category 16.
static ONE: [u8; 44] = [
    0xff, 0xd8, 0xff, 0xc3, 0, 11, 16, 0, 1, 0, 1, 1, 1, 0x11, 0, 0xff, 0xc4, 0, 20, 0, 1, 0, 0, 0,
    0, 0, 0, 0, 0, 0, 0, 0, 0, 0, 0, 0, 16, 0xff, 0xda, 0, 8, 1, 1, 0,
];

/// One line of 2 samples of 2 components, with the table of `SQUARE`.
static PAIRS: [u8; 50] = [
    0xff, 0xd8, 0xff, 0xc3, 0, 14, 12, 0, 1, 0, 2, 2, 1, 0x11, 0, 2, 0x11, 0, 0xff, 0xc4, 0, 21, 0,
    1, 1, 0, 0, 0, 0, 0, 0, 0, 0, 0, 0, 0, 0, 0, 0, 0, 1, 0xff, 0xda, 0, 10, 2, 1, 0, 2, 0,
];

/// 3 lines of 3 samples of 12 bits. The code 0 stands for category 0, 10 for category 1 and 11 for category 2.
static NINE: [u8; 46] = [
    0xff, 0xd8, 0xff, 0xc3, 0, 11, 12, 0, 3, 0, 3, 1, 1, 0x11, 0, 0xff, 0xc4, 0, 22, 0, 1, 2, 0, 0,
    0, 0, 0, 0, 0, 0, 0, 0, 0, 0, 0, 0, 0, 1, 2, 0xff, 0xda, 0, 8, 1, 1, 0,
];

/// The differences 3, -1, 2, -2, 1, -3, 2, 0 and -1 by the codes of `NINE`.
static NINE_DATA: [u8; 4] = [0xf9, 0xdb, 0x73, 0x93];

fn square(data: &'static [u8], answer: Result<&'static [u16], JpegFault>) -> Case {
    Case {
        head: &SQUARE,
        predictor: 1,
        data,
        wanted: 4,
        answer,
    }
}

fn nine(predictor: u8, samples: &'static [u16]) -> Case {
    Case {
        head: &NINE,
        predictor,
        data: &NINE_DATA,
        wanted: 9,
        answer: Ok(samples),
    }
}

fn pairs(wanted: usize, answer: Result<&'static [u16], JpegFault>) -> Case {
    Case {
        head: &PAIRS,
        predictor: 1,
        data: &[0xa3],
        wanted,
        answer,
    }
}

fn refused(head: &'static [u8], fault: JpegFault) -> Case {
    Case {
        head,
        predictor: 0,
        data: &[],
        wanted: 1,
        answer: Err(fault),
    }
}

fn samples() -> [Case; 15] {
    [
        square(&[0x0f], Ok(&[2048, 2048, 2048, 2048])),
        square(&[0xa3], Ok(&[2049, 2049, 2049, 2049])),
        square(&[0x53], Ok(&[2048, 2049, 2048, 2048])),
        square(&[0xc0], Err(JpegFault::NoCode)),
        square(&[], Err(JpegFault::Ended)),
        Case {
            head: &ONE,
            predictor: 1,
            data: &[0x7f],
            wanted: 1,
            answer: Ok(&[0]),
        },
        pairs(4, Ok(&[2049, 2048, 2049, 2048])),
        pairs(5, Err(JpegFault::Size { has: 4 })),
        nine(1, &[2051, 2050, 2052, 2049, 2050, 2047, 2051, 2051, 2050]),
        nine(2, &[2051, 2050, 2052, 2049, 2051, 2049, 2051, 2051, 2048]),
        nine(3, &[2051, 2050, 2052, 2049, 2052, 2047, 2051, 2049, 2051]),
        nine(4, &[2051, 2050, 2052, 2049, 2049, 2048, 2051, 2051, 2049]),
        nine(5, &[2051, 2050, 2052, 2049, 2049, 2047, 2051, 2051, 2049]),
        nine(6, &[2051, 2050, 2052, 2049, 2050, 2049, 2051, 2051, 2048]),
        nine(7, &[2051, 2050, 2052, 2049, 2050, 2048, 2051, 2050, 2048]),
    ]
}

static OVERFULL: [u8; 26] = [
    0xff, 0xd8, 0xff, 0xc4, 0, 22, 0, 3, 0, 0, 0, 0, 0, 0, 0, 0, 0, 0, 0, 0, 0, 0, 0, 0, 1, 2,
];

static NO_VALUES: [u8; 23] = [
    0xff, 0xd8, 0xff, 0xc4, 0, 19, 0, 1, 0, 0, 0, 0, 0, 0, 0, 0, 0, 0, 0, 0, 0, 0, 0,
];

/// A frame header of 17 bits.
static DEEP: [u8; 15] = [0xff, 0xd8, 0xff, 0xc3, 0, 11, 17, 0, 2, 0, 2, 1, 1, 0x11, 0];

/// A frame header of 5 components.
static FIVE: [u8; 27] = [
    0xff, 0xd8, 0xff, 0xc3, 0, 23, 12, 0, 1, 0, 2, 5, 1, 0x11, 0, 2, 0x11, 0, 3, 0x11, 0, 4, 0x11,
    0, 5, 0x11, 0,
];

/// A frame header of a component with two samples across.
static WIDE: [u8; 15] = [0xff, 0xd8, 0xff, 0xc3, 0, 11, 12, 0, 2, 0, 2, 1, 1, 0x21, 0];

/// A scan with no table before it.
static UNTOLD: [u8; 25] = [
    0xff, 0xd8, 0xff, 0xc3, 0, 11, 12, 0, 2, 0, 2, 1, 1, 0x11, 0, 0xff, 0xda, 0, 8, 1, 1, 0, 1, 0,
    0,
];

/// `SQUARE` with predictor 1 and a point transform of 1.
static SHIFTED: [u8; 48] = [
    0xff, 0xd8, 0xff, 0xc3, 0, 11, 12, 0, 2, 0, 2, 1, 1, 0x11, 0, 0xff, 0xc4, 0, 21, 0, 1, 1, 0, 0,
    0, 0, 0, 0, 0, 0, 0, 0, 0, 0, 0, 0, 0, 1, 0xff, 0xda, 0, 8, 1, 1, 0, 1, 0, 1,
];

fn refusals() -> [Case; 17] {
    [
        refused(&[0xff], JpegFault::NoStart),
        refused(&[0xff, 0xd8], JpegFault::Ended),
        refused(&[0xff, 0xd8, 0xff, 0xff, 0xff], JpegFault::Ended),
        refused(&[0xff, 0xd8, 0], JpegFault::Marker { byte: 0 }),
        refused(&[0xff, 0xd8, 0xff, 0xd8], JpegFault::Marker { byte: 216 }),
        refused(
            &[0xff, 0xd8, 0xff, 0xc0],
            JpegFault::NotLossless { marker: 192 },
        ),
        refused(&[0xff, 0xd8, 0xff, 0xc3, 0, 1], JpegFault::HeaderLength),
        refused(
            &[0xff, 0xd8, 0xff, 0xda, 0, 8],
            JpegFault::Marker { byte: 218 },
        ),
        refused(&[0xff, 0xd8, 0xff, 0xdd, 0, 4, 0, 1], JpegFault::Restart),
        refused(&OVERFULL, JpegFault::Table),
        refused(&NO_VALUES, JpegFault::HeaderLength),
        refused(&DEEP, JpegFault::Precision),
        refused(&FIVE, JpegFault::Components),
        refused(&WIDE, JpegFault::Sampling),
        refused(&UNTOLD, JpegFault::NoTable),
        Case {
            predictor: 8,
            ..refused(&SQUARE, JpegFault::Predictor)
        },
        refused(&SHIFTED, JpegFault::PointTransform),
    ]
}

/// Whether a stream answers what it should.
fn answers(alloc: Global, case: &Case) -> Result<bool, AllocError> {
    let mut samples = [0; 9];
    let bytes = stream(alloc, case)?;
    if case.wanted == 0 || case.wanted > 9 {
        return Ok(false);
    }
    let out = &mut samples[..case.wanted];
    let answer = decode(&bytes, out);
    Ok(match (answer, case.answer) {
        (Ok(()), Ok(expected)) => &*out == expected,
        (Err(found), Err(expected)) => found == expected,
        _ => false,
    })
}

#[test]
fn answers_streams(rt: HostRuntime) -> Result<(), Fail> {
    for (place, case) in samples().iter().enumerate() {
        assert!(rt; answers(rt.alloc(), case)?, "samples, {place}");
    }
    for (place, case) in refusals().iter().enumerate() {
        assert!(rt; answers(rt.alloc(), case)?, "refusals, {place}");
    }
    Ok(())
}

/// The encoder's stream of 2048 four times, in lines of 2, with 12 bits and predictor 1.
static FLAT: [u8; 67] = [
    0xff, 0xd8, 0xff, 0xc3, 0, 11, 12, 0, 2, 0, 2, 1, 1, 0x11, 0, 0xff, 0xc4, 0, 36, 0, 0, 0, 0,
    14, 3, 0, 0, 0, 0, 0, 0, 0, 0, 0, 0, 0, 0, 1, 2, 3, 4, 5, 6, 7, 8, 9, 10, 11, 12, 13, 14, 15,
    16, 0xff, 0xda, 0, 8, 1, 1, 0, 1, 0, 0, 0, 0, 0xff, 0xd9,
];

#[test]
fn encodes_samples(rt: HostRuntime) -> Result<(), Fail> {
    let samples = [2048; 4];
    let mut stream = Vec::new(rt.alloc());
    assert_eq!(rt; encode(&samples, 2, 12, 1, &mut stream), Ok(()));
    assert_eq!(rt; stream.as_slice(), FLAT.as_slice());
    let mut decoded = [0; 4];
    assert_eq!(rt; decode(&stream, &mut decoded), Ok(()));
    assert_eq!(rt; decoded, samples);
    Ok(())
}
