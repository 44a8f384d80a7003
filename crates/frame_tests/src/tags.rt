//! Flat frames of 4 by 4 with changed entries: what is refused, and what the record has. The expected numbers were
//! worked out by hand from the rules of each tag.

use dng_tags::{Frame, FrameFault, MAX_BYTES, SegmentFault, read_frame};
use lists::Items;
use ljpeg_predict::JpegFault;
use opcode_list::OpcodeFault;
use std::alloc::{AllocError, Global};
use std::test::Fail;
use strip_unpack::Short;
use test_frames::{TestFrame, bright_red, flat, undefined};
use text_line::Line;
use tiff_dirs::Order;
use tiff_write::{Field, Value};

/// What an entry tells in place of what the flat frame has there.
#[derive(Clone, Copy)]
enum Told {
    Bytes(&'static [u8]),
    Undefined(&'static [u8]),
    Shorts(&'static [u16]),
    Longs(&'static [u32]),
    Fractions(&'static [(u32, u32)]),
    Signed(&'static [(i32, i32)]),
    // A type and a count, with a value of 4 bytes.
    Odd(u16, u32),
    // No entry.
    Gone,
}

use FrameFault as F;
use Told::{Bytes, Fractions, Gone, Longs, Odd, Shorts, Signed, Undefined};

impl Told {
    fn field(self, alloc: Global, tag: u16) -> Result<Field, AllocError> {
        match self {
            Bytes(bytes) => Field::bytes(alloc, tag, bytes),
            Undefined(bytes) => undefined(alloc, tag, bytes),
            Shorts(numbers) => Field::shorts(alloc, tag, numbers),
            Longs(numbers) => Field::longs(alloc, tag, numbers),
            Fractions(fractions) => Field::rationals(alloc, tag, fractions),
            Signed(fractions) => Field::signed_rationals(alloc, tag, fractions),
            Odd(kind, count) => Ok(Field {
                tag,
                kind,
                count,
                value: Value::Longs(Items::from_slice(alloc, &[0])?),
            }),
            Gone => Field::bytes(alloc, tag, &[]),
        }
    }
}

/// Changes of entries, and the refusal of the frame.
type Row = (&'static [(u16, Told)], FrameFault);

static FIRST_STEPS: [Row; 34] = [
    (&[(50706, Gone)], F::NotDng),
    (&[(50706, Bytes(&[1, 4, 0]))], F::BadEntry { tag: 50706 }),
    (&[(50706, Bytes(&[1, 7, 0, 0]))], F::Newer),
    (&[(50707, Bytes(&[2, 0, 0, 0]))], F::Newer),
    (&[(50707, Bytes(&[1, 7, 0, 0]))], F::Newer),
    (
        &[(50707, Shorts(&[1, 4, 0, 0]))],
        F::BadEntry { tag: 50707 },
    ),
    (&[(254, Longs(&[1]))], F::NoRaw),
    (&[(254, Longs(&[1])), (330, Longs(&[8]))], F::NoRaw),
    (&[(254, Longs(&[1, 0]))], F::BadEntry { tag: 254 }),
    (
        &[(254, Longs(&[1])), (330, Longs(&[u32::MAX]))],
        F::BadDirectory { at: u32::MAX },
    ),
    (
        &[(254, Longs(&[1])), (330, Longs(&[]))],
        F::BadEntry { tag: 330 },
    ),
    (
        &[(254, Longs(&[1])), (330, Odd(4, u32::MAX))],
        F::BadEntry { tag: 330 },
    ),
    (&[(262, Gone)], F::BadEntry { tag: 262 }),
    (&[(262, Longs(&[32803]))], F::BadEntry { tag: 262 }),
    (&[(262, Shorts(&[34892]))], F::Photometric { v: 34892 }),
    (&[(259, Shorts(&[8]))], F::Compression { v: 8 }),
    (&[(277, Shorts(&[3]))], F::Samples { v: 3 }),
    (&[(258, Shorts(&[32]))], F::Depth { v: 32 }),
    (&[(258, Shorts(&[7]))], F::Depth { v: 7 }),
    (&[(258, Gone)], F::Depth { v: 1 }),
    (&[(258, Odd(3, u32::MAX))], F::BadEntry { tag: 258 }),
    (&[(258, Odd(14, 1))], F::BadEntry { tag: 258 }),
    (&[(339, Shorts(&[2]))], F::Format { v: 2 }),
    (&[(256, Gone)], F::BadEntry { tag: 256 }),
    (&[(256, Odd(11, 1))], F::FloatTag { tag: 256 }),
    (&[(256, Shorts(&[9000])), (257, Gone)], F::Size),
    (&[(256, Shorts(&[0]))], F::Size),
    (&[(257, Shorts(&[8193]))], F::Size),
    (&[(256, Shorts(&[8192])), (257, Shorts(&[8192]))], F::Size),
    (&[(50829, Shorts(&[0, 0, 4, 5]))], F::Active),
    (&[(50829, Shorts(&[2, 0, 2, 4]))], F::Active),
    (&[(50829, Shorts(&[0, 0, 4]))], F::Active),
    (&[(50829, Bytes(&[0, 0, 4, 4]))], F::BadEntry { tag: 50829 }),
    (&[(50829, Shorts(&[0, 0, 3, 4]))], F::Size),
];

static SEGMENTS: [Row; 24] = [
    (&[(278, Shorts(&[0]))], F::Layout),
    (&[(278, Shorts(&[4, 4]))], F::Layout),
    (&[(278, Bytes(&[4]))], F::BadEntry { tag: 278 }),
    (&[(278, Shorts(&[2]))], F::Layout),
    (
        &[(273, Gone), (278, Shorts(&[0]))],
        F::BadEntry { tag: 273 },
    ),
    (&[(279, Gone)], F::BadEntry { tag: 279 }),
    (&[(322, Odd(12, 1))], F::FloatTag { tag: 322 }),
    (&[(322, Shorts(&[0]))], F::Layout),
    (&[(322, Shorts(&[16385]))], F::Layout),
    (&[(322, Shorts(&[16]))], F::BadEntry { tag: 323 }),
    (
        &[(322, Shorts(&[16])), (323, Shorts(&[16]))],
        F::BadEntry { tag: 324 },
    ),
    (
        &[
            (322, Shorts(&[16])),
            (323, Shorts(&[16])),
            (324, Shorts(&[0])),
        ],
        F::BadEntry { tag: 324 },
    ),
    (
        &[
            (322, Shorts(&[16])),
            (323, Shorts(&[16])),
            (324, Longs(&[0])),
        ],
        F::BadEntry { tag: 325 },
    ),
    (
        &[
            (322, Shorts(&[16384])),
            (323, Shorts(&[16384])),
            (324, Longs(&[0])),
            (325, Longs(&[0])),
        ],
        F::Layout,
    ),
    (
        &[
            (322, Shorts(&[2])),
            (323, Shorts(&[4])),
            (324, Longs(&[0])),
            (325, Longs(&[0, 0])),
        ],
        F::Layout,
    ),
    (&[(273, Longs(&[u32::MAX]))], F::Outside { segment: 0 }),
    (
        &[
            (278, Shorts(&[2])),
            (273, Longs(&[8, 999])),
            (279, Longs(&[9, 9])),
        ],
        F::Outside { segment: 1 },
    ),
    (&[(33421, Gone)], F::BadEntry { tag: 33421 }),
    (&[(33421, Shorts(&[3, 2]))], F::Cfa),
    (&[(33421, Shorts(&[2]))], F::Cfa),
    (&[(33422, Bytes(&[0, 0, 0, 0]))], F::Cfa),
    (
        &[(33422, Shorts(&[0, 1, 1, 2]))],
        F::BadEntry { tag: 33422 },
    ),
    (&[(50710, Bytes(&[0, 1, 3]))], F::Cfa),
    (&[(50711, Shorts(&[2]))], F::Cfa),
];

// Opcode lists of a count and whole opcodes: an ID, a DNG version, flags, how many bytes of parameters, the parameters.

const EMPTY_LIST: &[u8] = &[0, 0, 0, 0];

const WARP: &[u8] = &[0, 0, 0, 1, 0, 0, 0, 1, 1, 3, 0, 0, 0, 0, 0, 0, 0, 0, 0, 0];

/// A TrimBounds of rows 0 to 5 and columns 0 to 4, behind an optional WarpRectilinear.
const LOW_TRIM: &[u8] = &[
    0, 0, 0, 2, 0, 0, 0, 1, 1, 3, 0, 0, 0, 0, 0, 1, 0, 0, 0, 0, 0, 0, 0, 6, 1, 3, 0, 0, 0, 0, 0, 0,
    0, 0, 0, 16, 0, 0, 0, 0, 0, 0, 0, 0, 0, 0, 0, 5, 0, 0, 0, 4,
];

/// A TrimBounds of rows 0 to 3 and columns 0 to 4, twice: the second finds three rows.
const SMALL_TRIMS: &[u8] = &[
    0, 0, 0, 2, 0, 0, 0, 6, 1, 3, 0, 0, 0, 0, 0, 0, 0, 0, 0, 16, 0, 0, 0, 0, 0, 0, 0, 0, 0, 0, 0,
    3, 0, 0, 0, 4, 0, 0, 0, 6, 1, 3, 0, 0, 0, 0, 0, 0, 0, 0, 0, 16, 0, 0, 0, 0, 0, 0, 0, 0, 0, 0,
    0, 3, 0, 0, 0, 4,
];

static OPCODE_LISTS: [Row; 11] = [
    (&[(51008, Odd(11, 1))], F::FloatTag { tag: 51008 }),
    (&[(51009, Bytes(EMPTY_LIST))], F::BadEntry { tag: 51009 }),
    (
        &[(51022, Undefined(&[]))],
        F::Opcode {
            list: 3,
            fault: OpcodeFault::Truncated { index: 0 },
        },
    ),
    (
        &[(51009, Undefined(&[255, 255, 255, 255]))],
        F::Opcode {
            list: 2,
            fault: OpcodeFault::TooMany,
        },
    ),
    (
        &[(51022, Undefined(WARP))],
        F::Opcode {
            list: 3,
            fault: OpcodeFault::Unknown { index: 0, id: 1 },
        },
    ),
    (
        &[(51008, Undefined(LOW_TRIM))],
        F::Trim { list: 1, index: 1 },
    ),
    (
        &[(51009, Undefined(LOW_TRIM))],
        F::Trim { list: 2, index: 1 },
    ),
    (
        &[(51022, Undefined(LOW_TRIM))],
        F::Trim { list: 3, index: 1 },
    ),
    // The active area is the whole of what list 1 leaves.
    (&[(51008, Undefined(SMALL_TRIMS))], F::Size),
    (&[(51009, Undefined(SMALL_TRIMS))], F::Size),
    // List 3 comes behind the size, and before the crop.
    (
        &[(51022, Undefined(SMALL_TRIMS)), (50719, Shorts(&[0, 3]))],
        F::Crop,
    ),
];

static LEVELS_AND_CROP: [Row; 24] = [
    (&[(50712, Shorts(&[]))], F::Levels),
    (&[(50712, Longs(&[5]))], F::BadEntry { tag: 50712 }),
    (&[(50713, Shorts(&[0, 1]))], F::Levels),
    (&[(50713, Shorts(&[1, 9]))], F::Levels),
    (&[(50714, Fractions(&[(1, 0)]))], F::Levels),
    (&[(50714, Shorts(&[65535]))], F::Levels),
    (&[(50714, Longs(&[65537]))], F::Levels),
    (&[(50714, Shorts(&[1, 1]))], F::Levels),
    (&[(50714, Signed(&[(1, 1)]))], F::BadEntry { tag: 50714 }),
    (
        &[(50713, Shorts(&[2, 1])), (50714, Shorts(&[0, 65535]))],
        F::Levels,
    ),
    (&[(50715, Signed(&[(0, 1); 3]))], F::Levels),
    (
        &[(50715, Signed(&[(0, 1), (0, 1), (0, 1), (0, -1)]))],
        F::Levels,
    ),
    (
        &[(50715, Signed(&[(0, 1), (0, 1), (0, 1), (65535, 1)]))],
        F::Levels,
    ),
    (
        &[(50716, Signed(&[(0, 1), (0, 1), (0, 1), (65535, 1)]))],
        F::Levels,
    ),
    (&[(50716, Shorts(&[0; 4]))], F::BadEntry { tag: 50716 }),
    (&[(50717, Shorts(&[0]))], F::Levels),
    (&[(50717, Longs(&[65536]))], F::Levels),
    (&[(50719, Fractions(&[(0, 0), (0, 1)]))], F::Crop),
    (&[(50719, Shorts(&[4, 0]))], F::Crop),
    (&[(50719, Shorts(&[0]))], F::Crop),
    (&[(50719, Signed(&[(0, 1); 2]))], F::BadEntry { tag: 50719 }),
    (&[(50720, Shorts(&[0, 0]))], F::Crop),
    (&[(50720, Fractions(&[(9, 10), (4, 1)]))], F::Crop),
    (
        &[(50719, Shorts(&[4, 0])), (50720, Odd(11, 2))],
        F::FloatTag { tag: 50720 },
    ),
];

static COLOURS: [Row; 14] = [
    (&[(50721, Signed(&[(1, 1); 8]))], F::Colour { tag: 50721 }),
    (&[(50721, Signed(&[(1, 0); 9]))], F::Colour { tag: 50721 }),
    (&[(50721, Signed(&[(1, -1); 9]))], F::Colour { tag: 50721 }),
    (&[(50722, Signed(&[(17, 1); 9]))], F::Colour { tag: 50722 }),
    (
        &[(50722, Fractions(&[(1, 1); 9]))],
        F::BadEntry { tag: 50722 },
    ),
    (&[(50723, Signed(&[(1, 1); 9]))], F::Colour { tag: 50723 }),
    (
        &[(50724, Signed(&[(1, 1); 9])), (50723, Odd(11, 9))],
        F::FloatTag { tag: 50723 },
    ),
    (
        &[(50727, Fractions(&[(1, 1), (0, 1), (1, 1)]))],
        F::Colour { tag: 50727 },
    ),
    (
        &[(50728, Fractions(&[(0, 1), (1, 1), (1, 1)]))],
        F::Colour { tag: 50728 },
    ),
    (
        &[(50728, Fractions(&[(1, 1), (1, 1), (1, 0)]))],
        F::Colour { tag: 50728 },
    ),
    (&[(50728, Shorts(&[1, 1]))], F::Colour { tag: 50728 }),
    (&[(50728, Shorts(&[1, 257, 1]))], F::Colour { tag: 50728 }),
    (&[(50964, Signed(&[(-17, 1); 9]))], F::Colour { tag: 50964 }),
    (&[(50965, Signed(&[(1, 1)]))], F::Colour { tag: 50965 }),
];

fn first_steps() -> &'static [Row] {
    &FIRST_STEPS
}

fn opcode_lists() -> &'static [Row] {
    &OPCODE_LISTS
}

fn segments_and_pattern() -> &'static [Row] {
    &SEGMENTS
}

fn levels_and_crop() -> &'static [Row] {
    &LEVELS_AND_CROP
}

fn colours() -> &'static [Row] {
    &COLOURS
}

/// The flat frame with these changes.
fn changed(alloc: Global, changes: &[(u16, Told)], order: Order) -> Result<Vec<u8>, AllocError> {
    let mut frame = flat(alloc)?;
    for (tag, told) in changes {
        frame = match told {
            Gone => frame.without(*tag),
            _ => frame.with(told.field(alloc, *tag)?)?,
        };
    }
    frame.bytes(alloc, order)
}

/// The record of a file, or its refusal.
fn read(alloc: Global, bytes: &[u8]) -> Result<Frame, FrameFault> {
    if bytes.len() as u64 > MAX_BYTES {
        return Err(F::TooLong);
    }
    read_frame(alloc, bytes)
}

/// Whether a file is refused for this.
fn is_refused(answer: Result<Frame, FrameFault>, want: FrameFault) -> bool {
    match answer {
        Ok(_) => false,
        Err(fault) => fault == want,
    }
}

/// The first row that is refused otherwise than it says.
fn first_wrong(alloc: Global, rows: &[Row]) -> Result<Option<usize>, AllocError> {
    for (i, row) in rows.iter().enumerate() {
        let bytes = changed(alloc, row.0, Order::Little)?;
        if !is_refused(read(alloc, &bytes), row.1) {
            return Ok(Some(i));
        }
    }
    Ok(None)
}

#[test]
fn refuses(rt: HostRuntime) -> Result<(), Fail> {
    let alloc = rt.alloc();
    for rows in [
        first_steps(),
        segments_and_pattern(),
        opcode_lists(),
        levels_and_crop(),
        colours(),
    ] {
        assert_eq!(rt; first_wrong(alloc, rows)?, None);
    }
    assert!(rt; is_refused(read(alloc, b""), F::NotTiff));
    let cut = b"II*\0\x08\0\0\0\x01\0";
    assert!(rt; is_refused(read(alloc, cut), F::BadDirectory { at: 8 }));
    Ok(())
}

/// The gains, the first black level, the white level and the crop's edges.
type Values = ([u32; 3], Option<i32>, u32, [u32; 4]);

fn values_of(frame: &Frame) -> Values {
    let crop = frame.crop;
    (
        frame.colour.gains,
        frame.levels.black.get(0).copied(),
        frame.levels.white,
        [crop.top, crop.left, crop.bottom, crop.right],
    )
}

/// Entries, and what of the record they change. Absent entries are the defaults.
static RECORDS: [(&[(u16, Told)], Values); 6] = [
    (&[], ([4096; 3], Some(0), 65535, [0, 0, 4, 4])),
    (
        &[(50728, Fractions(&[(1, 2), (1, 1), (2, 3)]))],
        ([8192, 4096, 6144], Some(0), 65535, [0, 0, 4, 4]),
    ),
    (
        &[(50714, Fractions(&[(1, 512)])), (50717, Shorts(&[4095, 9]))],
        ([4096; 3], Some(1), 4095, [0, 0, 4, 4]),
    ),
    (
        &[(258, Shorts(&[12])), (50719, Fractions(&[(3, 2), (0, 1)]))],
        ([4096; 3], Some(0), 4095, [0, 1, 4, 4]),
    ),
    (
        &[(50719, Shorts(&[1, 2])), (50720, Shorts(&[2, 9]))],
        ([4096; 3], Some(0), 65535, [2, 1, 4, 3]),
    ),
    (
        &[(50707, Bytes(&[1, 3, 0, 0])), (50706, Bytes(&[1, 7, 0, 0]))],
        ([4096; 3], Some(0), 65535, [0, 0, 4, 4]),
    ),
];

fn records() -> &'static [(&'static [(u16, Told)], Values)] {
    &RECORDS
}

#[test]
fn reads_records(rt: HostRuntime) -> Result<(), Fail> {
    let alloc = rt.alloc();
    for (changes, want) in records() {
        for order in [Order::Little, Order::Big] {
            let bytes = changed(alloc, changes, order)?;
            let frame = read(alloc, &bytes)?;
            assert_eq!(rt; values_of(&frame), *want);
            assert_eq!(rt; frame.order, order);
        }
    }
    Ok(())
}

/// The offsets, rows and coded sizes of a frame's segments.
fn segments_are(frame: &Frame, want: &[[u32; 7]]) -> bool {
    frame.segments.len() == want.len()
        && frame.segments.as_slice().iter().zip(want).all(|(segment, want)| {
            let rect = segment.rect;
            [
                segment.length,
                rect.top,
                rect.left,
                rect.bottom,
                rect.right,
                segment.full_rows,
                segment.full_cols,
            ] == *want
        })
}

/// Whether the flat frame with these changes has these segments.
fn is_cut(alloc: Global, changes: &[(u16, Told)], want: &[[u32; 7]]) -> Result<bool, AllocError> {
    let bytes = changed(alloc, changes, Order::Little)?;
    match read(alloc, &bytes) {
        Ok(frame) => Ok(segments_are(&frame, want)),
        Err(_) => Ok(false),
    }
}

#[test]
fn cuts_images(rt: HostRuntime) -> Result<(), Fail> {
    let alloc = rt.alloc();
    let strips = [
        (278, Shorts(&[3])),
        (273, Longs(&[8, 9])),
        (279, Longs(&[24, 8])),
    ];
    let want = [[24, 0, 0, 3, 4, 3, 4], [8, 3, 0, 4, 4, 1, 4]];
    assert!(rt; is_cut(alloc, &strips, &want)?);
    let tiles = [
        (322, Shorts(&[3])),
        (323, Shorts(&[16])),
        (324, Longs(&[8, 9])),
        (325, Longs(&[1, 2])),
    ];
    let want = [[1, 0, 0, 4, 3, 16, 3], [2, 0, 3, 4, 4, 16, 3]];
    assert!(rt; is_cut(alloc, &tiles, &want)?);
    Ok(())
}

/// Whether a frame is read, and has as many rows and columns as `side`.
fn has_side(alloc: Global, frame: TestFrame, order: Order, side: u32) -> Result<bool, AllocError> {
    let bytes = frame.bytes(alloc, order)?;
    match read(alloc, &bytes) {
        Ok(frame) => Ok(frame.shape.rows == side && frame.shape.cols == side),
        Err(_) => Ok(false),
    }
}

#[test]
fn finds_the_raw_directory(rt: HostRuntime) -> Result<(), Fail> {
    let alloc = rt.alloc();
    assert!(rt; has_side(alloc, flat(alloc)?, Order::Little, 4)?);
    let inner = flat(alloc)?.in_sub_directory(alloc)?;
    assert!(rt; has_side(alloc, inner, Order::Big, 4)?);
    let twice = flat(alloc)?.and(Field::shorts(alloc, 256, &[9])?)?;
    assert!(rt; has_side(alloc, twice, Order::Little, 4)?);
    assert!(rt; has_side(alloc, bright_red(alloc)?, Order::Little, 8)?);
    Ok(())
}

/// Whether a fault says this.
fn says(fault: FrameFault, want: &[u8]) -> bool {
    let mut line = Line::new();
    fault.say(&mut line);
    line.as_bytes() == want
}

/// The faults of a segment whose bytes are too few, and of one whose stream is damaged.
const SHORT: SegmentFault = SegmentFault::Short(Short {
    needed: 32,
    had: 31,
});

const NO_START: SegmentFault = SegmentFault::Jpeg(JpegFault::NoStart);

const BASELINE: SegmentFault = SegmentFault::Jpeg(JpegFault::NotLossless { marker: 192 });

/// The faults of an opcode that isn't known, and of one with bad parameters.
const UNKNOWN: OpcodeFault = OpcodeFault::Unknown { index: 0, id: 1 };

const BAD_PARAMS: OpcodeFault = OpcodeFault::BadParams {
    index: 15,
    id: u32::MAX,
};

/// Faults, and what each says.
static TEXTS: [(FrameFault, &[u8]); 9] = [
    (F::Newer, b"Newer"),
    (F::Compression { v: 8 }, b"Compression 8"),
    (
        F::BadDirectory { at: 4_294_967_280 },
        b"BadDirectory 4294967280",
    ),
    (
        F::Segment {
            segment: 0,
            why: SHORT,
        },
        b"Segment 0 Short 32 31",
    ),
    (
        F::Opcode {
            list: 3,
            fault: UNKNOWN,
        },
        b"Opcode 3 Unknown 0 1",
    ),
    (
        F::Opcode {
            list: 1,
            fault: BAD_PARAMS,
        },
        b"Opcode 1 BadParams 15 4294967295",
    ),
    (F::Trim { list: 2, index: 0 }, b"Trim 2 0"),
    (
        F::Segment {
            segment: 7,
            why: NO_START,
        },
        b"Segment 7 Jpeg NoStart",
    ),
    (
        F::Segment {
            segment: 65535,
            why: BASELINE,
        },
        b"Segment 65535 Jpeg NotLossless 192",
    ),
];

fn texts() -> &'static [(FrameFault, &'static [u8])] {
    &TEXTS
}

#[test]
fn tells_faults(rt: HostRuntime) {
    for (fault, want) in texts() {
        assert!(rt; says(*fault, want));
    }
}
