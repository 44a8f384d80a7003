//! Rows of planes, computed by hand, and rectangles of planes against the whole.

ghost use Rattle.std.specs.Prelude.{◌≡◌};
ghost use Rattle.std.specs.Bool.{Decides};
ghost use Rattle.opcode_stages.specs.Crops.{cropped_to};
ghost use Rattle.opcode_stages.specs.MendStages.{constant_of, phase_of};

use super::trial::{makes, parts, rect, shape};
use opcode_stages::{Crop, FixConstant, FixList, MapTable};
use plane_view::Rect;
use stage_core::Stage;
use std::alloc::Global;
use std::test::Fail;

/// Whether two mendings of a number are equal: exactly where the number and the phase are.
fn same_constants(a: &FixConstant, b: &FixConstant) -> bool
    ensures { Decides result ((constant_of a.now ≡ constant_of b.now) × (phase_of a.now ≡ phase_of b.now)) }
{
    a == b
}

/// Whether two mendings of listed pixels are equal: exactly where the lists are, as they were given.
fn same_lists(a: &FixList, b: &FixList) -> bool
    ensures { Decides result (a.now ≡ b.now) }
{
    a == b
}

/// A plane of 4 rows and 5 columns, whose sample at row r, column c is 10 r + c.
const TENS: [u16; 20] = [
    0, 1, 2, 3, 4, 10, 11, 12, 13, 14, 20, 21, 22, 23, 24, 30, 31, 32, 33, 34,
];

/// Crops of that plane: the samples, and each of their rectangles by itself. A rectangle that goes past the plane is
/// refused.
#[test]
fn crops(rt: HostRuntime) {
    let plane = shape(4, 5, 1);
    for (top, left, bottom, right, want, count) in [
        (0, 0, 4, 5, TENS.as_slice(), 150),
        (1, 2, 4, 5, &[12, 13, 14, 22, 23, 24, 32, 33, 34], 36),
        (3, 0, 4, 2, &[30, 31], 3),
    ] {
        let crop = Crop::new(rect(top, left, bottom, right));
        let made = shape(bottom - top, right - left, 1);
        assert!(rt;
            makes(&crop, &TENS, plane, made.rect(), want),
            "row {top}, column {left}"
        );
        assert_eq!(rt; parts(&crop, &TENS, plane, made), count);
    }
    let pixels = [7, 8, 9, 17, 18, 19];
    let right = Crop::new(rect(0, 1, 1, 2));
    assert!(rt;
        makes(
            &right,
            &pixels,
            shape(1, 2, 3),
            rect(0, 0, 1, 1),
            &[17, 18, 19]
        )
    );
    assert!(rt; right.shape(shape(1, 1, 3)).is_none());
    assert!(rt; Crop::new(rect(1, 2, 5, 5)).shape(plane).is_none());
    assert!(rt; Crop::new(rect(1, 2, 4, 6)).shape(plane).is_none());
    assert!(rt; !same_crops(&right, &Crop::new(rect(0, 0, 1, 2))));
    assert!(rt; same_crops(&right, &Crop::new(rect(0, 1, 1, 2))));
}

/// Whether two crops are equal: exactly where their rectangles are.
fn same_crops(a: &Crop, b: &Crop) -> bool
    ensures { Decides result (cropped_to a.now ≡ cropped_to b.now) }
{
    a == b
}

/// Whether two maps are equal: exactly where what they change and their tables are.
fn same_maps(a: &MapTable, b: &MapTable) -> bool
    ensures { Decides result (a.now ≡ b.now) }
{
    a == b
}

/// The map of a rectangle, in the second number of planes from the first one on, on each so many rows and columns.
fn map(
    alloc: Global,
    rect: Rect,
    planes: (u32, u32),
    pitches: (u32, u32),
    table: &[u16],
) -> Result<MapTable, Fail> {
    if pitches.0 == 0 || pitches.1 == 0 || table.is_empty() || table.len() > 65_536 {
        return Err(Fail::from("a map"));
    }
    Ok(MapTable::new(alloc, rect, planes.0, planes.1, pitches.0, pitches.1, table)?)
}

/// The plane of 4 by 4 that holds 0 in its first row and 1 elsewhere.
const STEP: [u16; 16] = [0, 0, 0, 0, 1, 1, 1, 1, 1, 1, 1, 1, 1, 1, 1, 1];

/// Maps of a plane of one sample a pixel: the samples, and each rectangle by itself.
#[test]
fn maps_samples(rt: HostRuntime) -> Result<(), Fail> {
    let plane = shape(4, 4, 1);
    for (at, pitches, table, want) in [
        (
            rect(0, 0, 8, 8),
            (2, 2),
            [5, 7],
            [5, 0, 5, 0, 1, 1, 1, 1, 7, 1, 7, 1, 1, 1, 1, 1],
        ),
        (
            rect(1, 1, 3, 4),
            (1, 2),
            [5, 7],
            [0, 0, 0, 0, 1, 7, 1, 7, 1, 7, 1, 7, 1, 1, 1, 1],
        ),
        (
            rect(0, 1, 4, 2),
            (3, 1),
            [9, 3],
            [0, 9, 0, 0, 1, 1, 1, 1, 1, 1, 1, 1, 1, 3, 1, 1],
        ),
        (rect(4, 0, 9, 9), (1, 1), [5, 7], STEP),
        (rect(2, 0, 2, 4), (1, 1), [5, 7], STEP),
        (
            rect(0, 0, u32::MAX, u32::MAX),
            (u32::MAX, u32::MAX),
            [5, 7],
            [5, 0, 0, 0, 1, 1, 1, 1, 1, 1, 1, 1, 1, 1, 1, 1],
        ),
    ] {
        let map = map(rt.alloc(), at, (0, 1), pitches, &table)?;
        assert!(rt; makes(&map, &STEP, plane, plane.rect(), &want), "{at:?}");
        assert_eq!(rt; parts(&map, &STEP, plane, plane), 100);
    }
    Ok(())
}

/// A value past the table takes its last entry, and planes that a pixel hasn't are left out.
#[test]
fn maps_planes(rt: HostRuntime) -> Result<(), Fail> {
    let pixels = [0, 1, 2, 3, 1, 0];
    let plane = shape(1, 2, 3);
    for (planes, want) in [
        ((0, 1), [40, 1, 2, 60, 1, 0]),
        ((1, 1), [0, 50, 2, 3, 50, 0]),
        ((1, u32::MAX), [0, 50, 60, 3, 50, 40]),
        ((0, 3), [40, 50, 60, 60, 50, 40]),
        ((2, 0), pixels),
        ((3, 1), pixels),
    ] {
        let map = map(rt.alloc(), plane.rect(), planes, (1, 1), &[40, 50, 60])?;
        assert!(rt;
            makes(&map, &pixels, plane, plane.rect(), &want),
            "{planes:?}"
        );
        assert_eq!(rt; parts(&map, &pixels, plane, plane), 3);
    }
    Ok(())
}

/// Maps are equal where all that they were made of is.
#[test]
fn compares_maps(rt: HostRuntime) -> Result<(), Fail> {
    let alloc = rt.alloc();
    let at = rect(0, 0, 8, 8);
    let first = map(alloc, at, (0, 1), (2, 2), &[5, 7])?;
    for (at, planes, pitches, table, want) in [
        (at, (0, 1), (2, 2), [5, 7].as_slice(), true),
        (rect(0, 0, 8, 9), (0, 1), (2, 2), &[5, 7], false),
        (at, (1, 1), (2, 2), &[5, 7], false),
        (at, (0, 2), (2, 2), &[5, 7], false),
        (at, (0, 1), (1, 2), &[5, 7], false),
        (at, (0, 1), (2, 1), &[5, 7], false),
        (at, (0, 1), (2, 2), &[5, 7, 7], false),
    ] {
        let other = map(alloc, at, planes, pitches, table)?;
        assert_eq!(rt; same_maps(&first, &other), want);
    }
    Ok(())
}

/// The mending of listed pixels.
fn list(alloc: Global, phase: u8, points: &[(u32, u32)], rects: &[Rect]) -> Result<FixList, Fail> {
    if phase > 3 {
        return Err(Fail::from("a list"));
    }
    Ok(FixList::new(alloc, phase, points, rects)?)
}

/// A red site whose neighbours two off are 10, 11, 20 and one that is bad too, and lies between 100 and 103.
const RED: [u16; 25] = [
    1, 2, 10, 4, 100, 5, 6, 7, 8, 9, 20, 30, 999, 40, 998, 12, 13, 14, 15, 16, 17, 18, 11, 19, 103,
];

/// Points and rectangles that are mended in that plane, and what becomes of it. Those outside of it change nothing.
#[test]
fn mends_listed_pixels(rt: HostRuntime) -> Result<(), Fail> {
    let plane = shape(5, 5, 1);
    let mut mended = RED;
    mended[12] = 14;
    mended[14] = 102;
    let mut column = RED;
    column[2] = 51;
    column[7] = 19;
    column[12] = 509;
    column[17] = 27;
    column[22] = 60;
    for (points, rects, want) in [
        (
            [(2, 2), (7, 2)],
            [rect(2, 4, 3, 5), rect(5, 0, 9, 9)],
            mended,
        ),
        (
            [(2, 4), (2, 2)],
            [rect(2, 2, 3, 3), rect(3, 1, 3, 4)],
            mended,
        ),
        (
            [(9, 9), (0, 5)],
            [rect(0, 2, 9, 3), rect(1, 2, 2, 3)],
            column,
        ),
        ([(2, 2), (2, 2)], [rect(0, 0, 5, 5), rect(0, 0, 0, 0)], RED),
        (
            [(u32::MAX, u32::MAX), (0, u32::MAX)],
            [rect(4, 0, 2, 5), rect(5, 5, u32::MAX, u32::MAX)],
            RED,
        ),
    ] {
        let list = list(rt.alloc(), 0, &points, &rects)?;
        assert!(rt;
            makes(&list, &RED, plane, plane.rect(), &want),
            "{points:?}"
        );
        assert_eq!(rt; parts(&list, &RED, plane, plane), 225);
        assert!(rt; list.shape(shape(5, 5, 3)).is_none());
    }
    Ok(())
}

/// A pixel between 100 and 103 two columns off, in a bad column.
#[test]
fn mends_a_column(rt: HostRuntime) -> Result<(), Fail> {
    let list = list(rt.alloc(), 0, &[], &[rect(0, 2, 1, 3)])?;
    let plane = shape(1, 5, 1);
    assert!(rt;
        makes(
            &list,
            &[100, 1, 9, 2, 103],
            plane,
            plane.rect(),
            &[100, 1, 102, 2, 103]
        )
    );
    Ok(())
}

/// A plane of 3 by 3.
const NINE: [u16; 9] = [50, 2, 3, 4, 50, 6, 7, 8, 10];

/// Which neighbours a pixel has by each phase, and that a bad neighbour isn't counted.
#[test]
fn mends_by_phase(rt: HostRuntime) -> Result<(), Fail> {
    let plane = shape(3, 3, 1);
    for (phase, listed, constant) in [
        (
            0,
            [50, 5, 3, 4, 50, 6, 7, 8, 10],
            [5, 2, 3, 4, 50, 6, 7, 8, 10],
        ),
        (
            1,
            [50, 8, 3, 4, 50, 6, 7, 8, 10],
            [50, 2, 3, 4, 7, 6, 7, 8, 10],
        ),
        (
            2,
            [50, 8, 3, 4, 50, 6, 7, 8, 10],
            [50, 2, 3, 4, 7, 6, 7, 8, 10],
        ),
        (
            3,
            [50, 5, 3, 4, 50, 6, 7, 8, 10],
            [5, 2, 3, 4, 50, 6, 7, 8, 10],
        ),
    ] {
        let list = list(rt.alloc(), phase, &[(0, 1)], &[])?;
        assert!(rt;
            makes(&list, &NINE, plane, plane.rect(), &listed),
            "phase {phase}"
        );
        let fifty = FixConstant::new(50, phase);
        assert!(rt;
            makes(&fifty, &NINE, plane, plane.rect(), &constant),
            "phase {phase}"
        );
        assert_eq!(rt; parts(&fifty, &NINE, plane, plane), 36);
        assert!(rt; fifty.shape(shape(3, 3, 2)).is_none());
        let large = FixConstant::new(65_586, phase);
        assert!(rt;
            makes(&large, &NINE, plane, plane.rect(), &NINE),
            "phase {phase}"
        );
        assert!(rt; same_constants(&fifty, &FixConstant::new(50, phase)));
        assert!(rt;
            !same_constants(&fifty, &large)
                && !same_constants(&fifty, &FixConstant::new(50, 3 - phase))
        );
    }
    Ok(())
}

/// Lists are equal where the phase, the points and the rectangles are, in their order.
#[test]
fn compares_lists(rt: HostRuntime) -> Result<(), Fail> {
    let alloc = rt.alloc();
    let (one, other) = (rect(0, 0, 1, 1), rect(2, 2, 3, 3));
    let first = list(alloc, 0, &[(1, 2), (3, 4)], &[one, other])?;
    for (phase, points, rects, want) in [
        (
            0,
            [(1, 2), (3, 4)].as_slice(),
            [one, other].as_slice(),
            true,
        ),
        (3, &[(1, 2), (3, 4)], &[one, other], false),
        (0, &[(3, 4), (1, 2)], &[one, other], false),
        (0, &[(1, 2), (3, 4)], &[other, one], false),
        (0, &[(1, 2), (3, 4), (3, 4)], &[one, other], false),
        (0, &[(1, 2), (3, 4)], &[one], false),
    ] {
        let second = list(alloc, phase, points, rects)?;
        assert_eq!(rt; same_lists(&first, &second), want);
    }
    Ok(())
}
