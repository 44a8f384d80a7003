//! Linear values of a small plane, computed from the formula by tools/linear_values.py, parts of it against the whole,
//! and equal stages.

ghost use Rattle.std.specs.Prelude.{◌⊎◌, IsTrue};
ghost use Rattle.dng_tags.specs.Facts.{AreDeltas, AreRanged, IsBlackPattern};
ghost use Rattle.tag_rules.specs.Quantities.{AreWithin};

use super::trial::{is_shape, makes, parts};
use dng_tags::Levels;
use linearise::{Linearise, LineariseFault};
use lists::Items;
use plane_view::{Rect, Shape};
use stage_core::Stage;
use std::alloc::{AllocError, Global};

/// Levels of an area of 4 rows and 5 columns, and settings.
#[derive(Clone, Copy)]
struct Case<'a> {
    table: &'a [u16],
    black_rows: u32,
    black_cols: u32,
    black: &'a [i32],
    delta_h: &'a [i32],
    delta_v: &'a [i32],
    white: u32,
    black_setting: Option<u16>,
    white_setting: Option<u16>,
}

/// An area of 4 rows and 5 columns in a raw image.
const AREA: Rect = Rect {
    top: 3,
    left: 2,
    bottom: 7,
    right: 7,
};

const SHAPE: Shape = Shape {
    rows: 4,
    cols: 5,
    planes: 1,
};

const SAMPLES: [u16; 20] = [
    0, 255, 256, 2048, 4095, 1, 257, 300, 1000, 65535, 511, 512, 513, 2, 3, 1023, 3000, 4094, 4,
    40000,
];

const LEVEL_256: [i32; 1] = [65536];

const BAYER: [i32; 4] = [65536, 66000, 64000, 65537];

const ACROSS: [i32; 5] = [0, -300, 256, 7, -1];

const DOWN: [i32; 4] = [512, 0, -513, 100];

const THREE_BY_TWO: [i32; 6] = [0, 256, 512, 768, 1024, -1280];

const ONE_TO_FOUR: [i32; 4] = [1, 2, 3, 4];

const ONE_TO_FIVE: [i32; 5] = [1, 2, 3, 4, 5];

const LOWEST: [i32; 1] = [-16777216];

const TABLE: [u16; 5] = [7, 100, 2000, 1, 3900];

const SHORT_TABLE: [u16; 2] = [5, 6];

const NINES: [i32; 4] = [9, 9, 9, 9];

const LEVEL_100: [i32; 1] = [25600];

const LEVEL_0: [i32; 1] = [0];

const BELOW_256: [i32; 1] = [65535];

const LEVEL_3000: [i32; 1] = [768000];

/// One black level everywhere.
fn plain(black: &[i32], white: u32) -> Case<'_> {
    Case {
        table: &[],
        black_rows: 1,
        black_cols: 1,
        black,
        delta_h: &[],
        delta_v: &[],
        white,
        black_setting: None,
        white_setting: None,
    }
}

/// A pattern of 2 by 2, and what columns and rows add.
fn bayer() -> Case<'static> {
    Case {
        table: &[],
        black_rows: 2,
        black_cols: 2,
        black: &BAYER,
        delta_h: &ACROSS,
        delta_v: &DOWN,
        white: 4095,
        black_setting: None,
        white_setting: None,
    }
}

/// A case of the table, by its number.
fn numbered(i: u32) -> Case<'static> {
    match i {
        0 => plain(&LEVEL_256, 4095),
        1 => bayer(),
        2 => Case {
            black_rows: 3,
            black_cols: 2,
            delta_v: &ONE_TO_FOUR,
            ..plain(&THREE_BY_TWO, 1000)
        },
        3 => Case {
            delta_h: &ONE_TO_FIVE,
            ..plain(&LOWEST, 65535)
        },
        4 => Case {
            table: &TABLE,
            ..plain(&LEVEL_100, 4000)
        },
        5 => Case {
            black_setting: Some(128),
            ..bayer()
        },
        6 => Case {
            white_setting: Some(3000),
            ..bayer()
        },
        7 => Case {
            table: &SHORT_TABLE,
            delta_v: &NINES,
            black_setting: Some(3),
            white_setting: Some(8),
            ..plain(&LEVEL_0, 4095)
        },
        8 => Case {
            white_setting: Some(30),
            ..plain(&LEVEL_0, 65535)
        },
        _ => plain(&BELOW_256, 256),
    }
}

/// The linear values of the samples.
fn wanted(i: u32) -> [u16; 20] {
    match i {
        0 => [
            0, 0, 0, 30591, 65535, 0, 17, 751, 12701, 65535, 4353, 4370, 4387, 0, 0, 13093, 46842,
            65518, 0, 65535,
        ],
        1 => [
            0, 0, 0, 30556, 65535, 0, 37, 837, 12713, 65535, 4392, 4398, 4409, 0, 0, 13202, 46903,
            65535, 0, 65535,
        ],
        2 => [
            0, 16713, 16844, 65535, 65535, 0, 16712, 19608, 65535, 65535, 33359, 34017, 33491, 460,
            0, 65535, 65535, 65535, 196, 65535,
        ],
        3 => [
            32768, 32895, 32896, 33792, 34815, 32768, 32896, 32918, 33268, 65535, 33023, 33024,
            33024, 32769, 32769, 33279, 34268, 34815, 32770, 52768,
        ],
        4 => [
            0, 63855, 63855, 63855, 63855, 0, 63855, 63855, 63855, 63855, 63855, 63855, 63855,
            31927, 0, 63855, 63855, 63855, 63855, 63855,
        ],
        5 => [
            0, 2098, 2115, 31718, 65535, 0, 2131, 2841, 14405, 65535, 6327, 6344, 6360, 0, 0,
            14785, 47446, 65518, 0, 65535,
        ],
        6 => [
            0, 0, 0, 42767, 65535, 0, 52, 1172, 17793, 65535, 6147, 6155, 6171, 0, 0, 18478, 65535,
            65535, 0, 65535,
        ],
        7 => [
            26214, 39321, 39321, 39321, 39321, 39321, 39321, 39321, 39321, 39321, 39321, 39321,
            39321, 39321, 39321, 39321, 39321, 39321, 39321, 39321,
        ],
        8 => [
            0, 65535, 65535, 65535, 65535, 2185, 65535, 65535, 65535, 65535, 65535, 65535, 65535,
            4369, 6554, 65535, 65535, 65535, 8738, 65535,
        ],
        _ => [
            0, 0, 65535, 65535, 65535, 0, 65535, 65535, 65535, 65535, 65535, 65535, 65535, 0, 0,
            65535, 65535, 65535, 0, 65535,
        ],
    }
}

fn levels_of(alloc: Global, case: &Case<'_>) -> Result<Levels, AllocError> {
    Ok(Levels {
        table: Items::from_slice(alloc, case.table)?,
        black_rows: case.black_rows,
        black_cols: case.black_cols,
        black: Items::from_slice(alloc, case.black)?,
        delta_h: Items::from_slice(alloc, case.delta_h)?,
        delta_v: Items::from_slice(alloc, case.delta_v)?,
        white: case.white,
    })
}

fn are_within(levels: &[i32]) -> bool
    ensures { IsTrue result → AreWithin 16777216 levels.now }
{
    for level in levels {
        if *level < -16777216 || *level > 16777216 {
            return false;
        }
    }
    true
}

/// Whether there are none, or as many as are counted, each in its range.
fn are_deltas(deltas: &[i32], count: u32) -> bool
    ensures { IsTrue result → AreDeltas deltas.now count }
{
    if !deltas.is_empty() && deltas.len() != count as usize {
        return false;
    }
    are_within(deltas)
}

/// Whether the black levels are those of a pattern.
fn is_pattern(levels: &Levels) -> bool
    ensures { IsTrue result → IsBlackPattern levels.now }
{
    if levels.black_rows < 1 || levels.black_rows > 8 {
        return false;
    }
    if levels.black_cols < 1 || levels.black_cols > 8 {
        return false;
    }
    if levels.black.len() != (levels.black_rows * levels.black_cols) as usize {
        return false;
    }
    are_within(levels.black.as_slice())
}

/// Whether levels are ones of an area of so many rows and columns.
fn are_ranged(levels: &Levels, rows: u32, cols: u32) -> bool
    ensures { IsTrue result → AreRanged levels.now rows cols }
{
    if levels.table.len() > 65536 || levels.white < 1 || levels.white > 65535 {
        return false;
    }
    if !is_pattern(levels) {
        return false;
    }
    if !are_deltas(levels.delta_h.as_slice(), cols) {
        return false;
    }
    are_deltas(levels.delta_v.as_slice(), rows)
}

/// The stage of a case. `Memory` where its levels aren't ranged, too.
fn stage_of(alloc: Global, case: &Case<'_>) -> Result<Linearise, LineariseFault> {
    let Ok(levels) = levels_of(alloc, case) else {
        return Err(LineariseFault::Memory);
    };
    if !are_ranged(&levels, 4, 5) {
        return Err(LineariseFault::Memory);
    }
    Linearise::new(alloc, &levels, AREA, case.black_setting, case.white_setting)
}

/// Whether the linear values of a case are those that are wanted.
fn has_values(alloc: Global, i: u32) -> bool {
    let Ok(stage) = stage_of(alloc, &numbered(i)) else {
        return false;
    };
    makes(&stage, &SAMPLES, SHAPE, SHAPE.rect(), &wanted(i))
}

#[test]
fn small_plane(rt: HostRuntime) {
    for i in 0..10 {
        assert!(rt; has_values(rt.alloc(), i), "case {i}");
    }
}

/// How many rectangles of the plane are the parts of the whole.
fn parts_of(alloc: Global, i: u32) -> u32 {
    let Ok(stage) = stage_of(alloc, &numbered(i)) else {
        return 0;
    };
    parts(&stage, &SAMPLES, SHAPE, SHAPE)
}

/// Every rectangle is the part of the whole that lies there: 4 * 5 / 2 by 5 * 6 / 2 of them.
#[test]
fn parts_of_a_plane(rt: HostRuntime) {
    for i in 1..3 {
        assert_eq!(rt; parts_of(rt.alloc(), i), 150, "case {i}");
    }
}

/// Whether two cases give equal stages; `None` where one gives none.
fn are_equal(alloc: Global, one: &Case<'_>, other: &Case<'_>) -> Option<bool> {
    let (Ok(one), Ok(other)) = (stage_of(alloc, one), stage_of(alloc, other)) else {
        return None;
    };
    Some(one == other)
}

const FOUR_ALIKE: [i32; 4] = [65536, 65536, 65536, 65536];

const BY_COLUMNS: [i32; 2] = [65536, 65792];

const ADDED_256: [i32; 5] = [0, 256, 0, 256, 0];

/// Other patterns and deltas with the same levels are equal; other spans, levels and tables are not.
#[test]
fn equal_stages(rt: HostRuntime) {
    let one = plain(&LEVEL_256, 4095);
    let four = Case {
        black_rows: 2,
        black_cols: 2,
        ..plain(&FOUR_ALIKE, 4095)
    };
    let columns = Case {
        black_cols: 2,
        ..plain(&BY_COLUMNS, 4095)
    };
    let added = Case {
        delta_h: &ADDED_256,
        ..one
    };
    let brighter = Case { white: 4094, ..one };
    let set = Case {
        black_setting: Some(256),
        ..bayer()
    };
    let tabled = Case {
        table: &TABLE,
        ..one
    };
    assert_eq!(rt; are_equal(rt.alloc(), &one, &four), Some(true));
    assert_eq!(rt; are_equal(rt.alloc(), &columns, &added), Some(true));
    assert_eq!(rt; are_equal(rt.alloc(), &one, &set), Some(true));
    assert_eq!(rt; are_equal(rt.alloc(), &one, &brighter), Some(false));
    assert_eq!(rt; are_equal(rt.alloc(), &one, &added), Some(false));
    assert_eq!(rt; are_equal(rt.alloc(), &one, &tabled), Some(false));
}

/// Whether a case is refused for its levels.
fn is_refused(alloc: Global, case: &Case<'_>) -> bool {
    matches!(stage_of(alloc, case), Err(LineariseFault::Levels))
}

#[test]
fn refused_levels(rt: HostRuntime) {
    assert!(rt; is_refused(rt.alloc(), &plain(&LEVEL_3000, 3000)));
    assert!(rt; stage_of(rt.alloc(), &plain(&LEVEL_3000, 3001)).is_ok());
    assert!(rt;
        is_refused(
            rt.alloc(),
            &Case {
                delta_v: &ONE_TO_FOUR,
                ..plain(&BELOW_256, 256)
            }
        )
    );
    assert!(rt;
        is_refused(
            rt.alloc(),
            &Case {
                black_setting: Some(4095),
                ..bayer()
            }
        )
    );
}

/// The shapes that are taken.
fn takes(alloc: Global, rows: u32, cols: u32, planes: u32) -> Option<bool> {
    let Ok(stage) = stage_of(alloc, &bayer()) else {
        return None;
    };
    let shape = Shape { rows, cols, planes };
    if !is_shape(shape) {
        return None;
    }
    Some(stage.shape(shape) == Some(shape))
}

#[test]
fn shapes(rt: HostRuntime) {
    for (rows, cols, planes, taken) in [
        (4, 5, 1, true),
        (4, 5, 3, false),
        (5, 4, 1, false),
        (4, 6, 1, false),
    ] {
        assert_eq!(rt; takes(rt.alloc(), rows, cols, planes), Some(taken));
    }
}
