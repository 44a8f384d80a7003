//! The stages of small frames: their order, what changes touch, and what is refused.

ghost use Rattle.std.specs.Prelude.{IfOk};
ghost use Rattle.dev_settings.specs.Ranges.{ChangeInRange, SettingsInRange};
ghost use Rattle.dng_tags.specs.Facts.{IsPlannable};
ghost use Rattle.malvar.specs.Pattern.{IsBayer};

use dev_settings::{Change, MatrixChoice, Settings};
use dev_stages::{DevStage, PlanFault, plan, stage_of};
use dng_tags::{Frame, read_frame};
use malvar::{Demosaic, Kind};
use std::alloc::{AllocError, Global};
use std::test::Fail;
use test_frames::{bright_red, forward_identity, undefined};
use tiff_dirs::Order;
use tone_table::Curve;

/// The lists 1, 2 and 3 of a frame.
#[derive(Clone, Copy)]
struct Lists<'a> {
    first: &'a [u8],
    second: &'a [u8],
    third: &'a [u8],
}

/// A list of no opcode.
const NONE: [u8; 4] = [0; 4];

/// A list of a WarpRectilinear, which may be passed over, and a FixBadPixelsConstant of 1600.
const SKIP_AND_MEND: [u8; 44] = [
    0, 0, 0, 2, 0, 0, 0, 1, 1, 3, 0, 0, 0, 0, 0, 1, 0, 0, 0, 0, 0, 0, 0, 4, 1, 3, 0, 0, 0, 0, 0, 0,
    0, 0, 0, 8, 0, 0, 6, 64, 0, 0, 0, 0,
];

/// A list of a TrimBounds of rows 1 to 8 and columns 0 to 8.
const TRIM: [u8; 36] = [
    0, 0, 0, 1, 0, 0, 0, 6, 1, 3, 0, 0, 0, 0, 0, 0, 0, 0, 0, 16, 0, 0, 0, 1, 0, 0, 0, 0, 0, 0, 0,
    8, 0, 0, 0, 8,
];

/// A list of a MapTable of the one entry 4660 over 8 rows and 8 columns.
const MAP: [u8; 58] = [
    0, 0, 0, 1, 0, 0, 0, 7, 1, 3, 0, 0, 0, 0, 0, 0, 0, 0, 0, 38, 0, 0, 0, 0, 0, 0, 0, 0, 0, 0, 0,
    8, 0, 0, 0, 8, 0, 0, 0, 0, 0, 0, 0, 1, 0, 0, 0, 1, 0, 0, 0, 1, 0, 0, 0, 1, 18, 52,
];

/// No opcodes.
fn no_lists() -> Lists<'static> {
    Lists {
        first: &NONE,
        second: &NONE,
        third: &NONE,
    }
}

/// An opcode of each kind but a FixBadPixelsList.
fn some_lists() -> Lists<'static> {
    Lists {
        first: &SKIP_AND_MEND,
        second: &TRIM,
        third: &MAP,
    }
}

/// The bright-red frame with a first forward matrix, and opcode lists.
fn frame_of(alloc: Global, lists: Lists<'_>) -> Result<Frame, AllocError>
    ensures { IfOk result IsPlannable }
{
    let frame = bright_red(alloc)?.with(forward_identity(alloc)?)?;
    let frame = frame.with(undefined(alloc, 51008, lists.first)?)?;
    let frame = frame.with(undefined(alloc, 51009, lists.second)?)?;
    let frame = frame.with(undefined(alloc, 51022, lists.third)?)?;
    let bytes = frame.bytes(alloc, Order::Little)?;
    if bytes.len() > 4096 {
        return Err(AllocError);
    }
    match read_frame(alloc, &bytes) {
        Ok(frame) => Ok(frame),
        Err(_) => Err(AllocError),
    }
}

/// The standard settings after a change.
fn settings_after(change: &Change) -> Settings
    requires { ChangeInRange change.now }
    ensures { SettingsInRange result }
{
    let mut settings = Settings::standard();
    settings.apply(change);
    settings
}

/// The stages of the bright-red frame with lists, after a change of the standard settings.
fn planned(
    alloc: Global,
    lists: Lists<'_>,
    change: &Change,
) -> Result<Result<Vec<DevStage>, PlanFault>, AllocError>
    requires { ChangeInRange change.now }
{
    let frame = frame_of(alloc, lists)?;
    Ok(plan(alloc, &frame, &settings_after(change)))
}

/// The name of a stage's kind.
fn name(stage: &DevStage) -> &'static str {
    match stage {
        DevStage::FixConstant(_) => "constant",
        DevStage::FixList(_) => "list",
        DevStage::Map(_) => "map",
        DevStage::Crop(_) => "crop",
        DevStage::Linearise(_) => "linearise",
        DevStage::Demosaic(_) => "demosaic",
        DevStage::Balance(_) => "balance",
        DevStage::Matrix(_) => "matrix",
        DevStage::Tone(_) => "tone",
    }
}

/// Whether the stages after a change have these kinds, in this order.
fn has_kinds(
    alloc: Global,
    lists: Lists<'_>,
    change: &Change,
    names: &[&str],
) -> Result<bool, AllocError>
    requires { ChangeInRange change.now }
{
    match planned(alloc, lists, change)? {
        Ok(stages) => Ok(
            stages.len() == names.len()
                && stages
                    .iter()
                    .zip(names)
                    .all(|(stage, want)| name(stage) == *want),
        ),
        Err(_) => Ok(false),
    }
}

/// Whether a change is refused with a fault.
fn is_refused(alloc: Global, change: &Change, fault: PlanFault) -> Result<bool, AllocError>
    requires { ChangeInRange change.now }
{
    match planned(alloc, no_lists(), change)? {
        Ok(_) => Ok(false),
        Err(other) => Ok(other == fault),
    }
}

/// Whether the one stage that a change touches is refused with a fault.
fn is_refused_alone(alloc: Global, change: &Change, fault: PlanFault) -> Result<bool, AllocError>
    requires { ChangeInRange change.now }
{
    let frame = frame_of(alloc, no_lists())?;
    match stage_of(alloc, &frame, &settings_after(change), change) {
        Ok(_) => Ok(false),
        Err(other) => Ok(other == fault),
    }
}

/// Whether two changes give the same stages; `None` where one is refused.
fn are_alike(alloc: Global, change: &Change, other: &Change) -> Result<Option<bool>, AllocError>
    requires one { ChangeInRange change.now }
    requires other { ChangeInRange other.now }
{
    match (
        planned(alloc, no_lists(), change)?,
        planned(alloc, no_lists(), other)?,
    ) {
        (Ok(stages), Ok(others)) => Ok(Some(stages == others)),
        _ => Ok(None),
    }
}

/// Whether a change touches the stage of a number, counted from 1, and makes the one that is there among all stages.
fn touches(alloc: Global, lists: Lists<'_>, change: &Change, want: u32) -> Result<bool, AllocError>
    requires { ChangeInRange change.now }
{
    let frame = frame_of(alloc, lists)?;
    let settings = settings_after(change);
    let Ok((number, stage)) = stage_of(alloc, &frame, &settings, change) else {
        return Ok(false);
    };
    let Ok(stages) = plan(alloc, &frame, &settings) else {
        return Ok(false);
    };
    let place = (number as usize).saturating_sub(1);
    Ok(number == want && stages.get(place) == Some(&stage))
}

/// Whether the demosaicing of the bright-red frame with lists has a pattern.
fn has_pattern(alloc: Global, lists: Lists<'_>, pattern: [u8; 4]) -> Result<bool, AllocError>
    requires { IsBayer pattern }
{
    let want = Demosaic::new(Kind::Malvar, pattern);
    match planned(alloc, lists, &Change::Demosaic(Kind::Malvar))? {
        Ok(stages) => Ok(
            stages.iter().any(|stage| match stage {
                DevStage::Demosaic(made) => *made == want,
                _ => false,
            }),
        ),
        Err(_) => Ok(false),
    }
}

#[test]
fn plans(rt: HostRuntime) -> Result<(), Fail> {
    let alloc = rt.alloc();
    let names = [
        "crop",
        "linearise",
        "demosaic",
        "crop",
        "balance",
        "matrix",
        "tone",
    ];
    assert!(rt; has_kinds(alloc, no_lists(), &Change::Black(None), &names)?);
    let first = Change::Matrix(MatrixChoice::Forward1);
    assert!(rt; has_kinds(alloc, no_lists(), &first, &names)?);
    let second = Change::Matrix(MatrixChoice::Forward2);
    assert!(rt; is_refused(alloc, &second, PlanFault::Matrix)?);
    assert!(rt; is_refused_alone(alloc, &second, PlanFault::Matrix)?);
    let black = Change::Black(Some(65_535));
    assert!(rt; is_refused(alloc, &black, PlanFault::Levels)?);
    assert!(rt; is_refused_alone(alloc, &black, PlanFault::Levels)?);
    assert!(rt; has_kinds(alloc, no_lists(), &Change::Black(Some(65_534)), &names)?);
    Ok(())
}

#[test]
fn plans_lists(rt: HostRuntime) -> Result<(), Fail> {
    let names = [
        "constant",
        "crop",
        "linearise",
        "crop",
        "demosaic",
        "map",
        "crop",
        "balance",
        "matrix",
        "tone",
    ];
    assert!(rt; has_kinds(rt.alloc(), some_lists(), &Change::Black(None), &names)?);
    Ok(())
}

#[test]
fn equal_settings_give_equal_stages(rt: HostRuntime) -> Result<(), Fail> {
    let alloc = rt.alloc();
    let auto = Change::Matrix(MatrixChoice::Auto);
    assert_eq!(rt;
        are_alike(alloc, &auto, &Change::Matrix(MatrixChoice::Forward1))?,
        Some(true)
    );
    assert_eq!(rt;
        are_alike(alloc, &auto, &Change::Matrix(MatrixChoice::Camera))?,
        Some(false)
    );
    assert_eq!(rt;
        are_alike(alloc, &auto, &Change::Black(Some(0)))?,
        Some(true)
    );
    assert_eq!(rt;
        are_alike(alloc, &auto, &Change::Exposure(1025))?,
        Some(false)
    );
    Ok(())
}

#[test]
fn changes_touch_one_stage(rt: HostRuntime) -> Result<(), Fail> {
    let alloc = rt.alloc();
    for (change, plain, with_lists) in [
        (Change::Black(Some(7)), 2, 3),
        (Change::White(Some(9)), 2, 3),
        (Change::Demosaic(Kind::Bilinear), 3, 5),
        (Change::Wb(None), 5, 8),
        (Change::Exposure(1025), 5, 8),
        (Change::Matrix(MatrixChoice::Camera), 6, 9),
        (Change::Tone(Curve::Root), 7, 10),
    ] {
        assert!(rt; touches(alloc, no_lists(), &change, plain)?);
        assert!(rt; touches(alloc, some_lists(), &change, with_lists)?);
    }
    Ok(())
}

/// A list of TrimBounds of a plane of 8 rows and 8 columns, each from a row and a column on.
fn trims(alloc: Global, corners: &[(u8, u8)]) -> Result<Vec<u8>, AllocError> {
    let count = u8::try_from(corners.len()).map_err(|_| AllocError)?;
    let mut list = Vec::new(alloc);
    list.extend_from_slice(&[0, 0, 0, count])?;
    let (mut rows, mut cols) = (8u8, 8u8);
    for (top, left) in corners {
        list.extend_from_slice(&[0, 0, 0, 6, 1, 3, 0, 0, 0, 0, 0, 0, 0, 0, 0, 16])?;
        list.extend_from_slice(&[0, 0, 0, *top, 0, 0, 0, *left, 0, 0, 0, rows, 0, 0, 0, cols])?;
        rows = rows.saturating_sub(*top);
        cols = cols.saturating_sub(*left);
    }
    Ok(list)
}

#[test]
fn trims_of_list_2_move_the_pattern(rt: HostRuntime) -> Result<(), Fail> {
    let alloc = rt.alloc();
    for (corners, pattern) in [
        ([].as_slice(), [0, 1, 1, 2]),
        (&[(2, 4)], [0, 1, 1, 2]),
        (&[(3, 0)], [1, 2, 0, 1]),
        (&[(0, 3)], [1, 0, 2, 1]),
        (&[(1, 1)], [2, 1, 1, 0]),
        (&[(1, 0), (1, 1)], [1, 0, 2, 1]),
    ] {
        let list = trims(alloc, corners)?;
        let lists = Lists {
            second: &list,
            ..no_lists()
        };
        assert!(rt; has_pattern(alloc, lists, pattern)?, "{corners:?}");
    }
    Ok(())
}

#[test]
fn trims_of_other_lists_leave_it(rt: HostRuntime) -> Result<(), Fail> {
    let alloc = rt.alloc();
    let first = Lists {
        first: &TRIM,
        ..no_lists()
    };
    assert!(rt; has_pattern(alloc, first, [0, 1, 1, 2])?);
    let third = Lists {
        third: &TRIM,
        ..no_lists()
    };
    assert!(rt; has_pattern(alloc, third, [0, 1, 1, 2])?);
    Ok(())
}
