//! The stages that opcode lists ask for, and how their trims move the pattern.

ghost use Rattle.std.specs.Prelude.{◌≡◌, ◌≤◌, ◌++◌, All, IfOk, length};
ghost use Rattle.std.specs.Option.{option_to_list};
ghost use Rattle.plane_view.specs.Rectangles.{IsNonEmpty};
ghost use Rattle.opcode_list.specs.Params.{CanRun};
ghost use Rattle.malvar.specs.Pattern.{IsBayer, colour_at};
ghost use Rattle.dev_stages.specs.Listed.{listed, moved, moved_by, opcode_stage, pattern_from};

use crate::DevStage;
use opcode_list::Opcode;
use opcode_stages::{Crop, FixConstant, FixList, MapTable};
use plane_view::Rect;
use std::alloc::{AllocError, Global};

/// The stage of an opcode, or `None` for one that is passed over.
fn opcode_stage(alloc: Global, opcode: &Opcode) -> Result<Option<DevStage>, AllocError>
    requires { CanRun opcode.now }
    ensures { IfOk result (λ stage. stage ≡ opcode_stage opcode.now) }
{
    match opcode {
        Opcode::FixConstant { constant, phase } => {
            let stage = FixConstant::new(*constant, *phase);
            Ok(Some(DevStage::FixConstant(stage)))
        }
        Opcode::FixList {
            phase,
            points,
            rects,
        } => {
            let stage = FixList::new(alloc, *phase, points.as_slice(), rects.as_slice())?;
            Ok(Some(DevStage::FixList(stage)))
        }
        Opcode::Trim { rect } => Ok(Some(DevStage::Crop(Crop::new(*rect)))),
        Opcode::Map {
            rect,
            plane,
            planes,
            row_pitch,
            col_pitch,
            table,
        } => {
            let table = table.as_slice();
            let stage = MapTable::new(
                alloc, *rect, *plane, *planes, *row_pitch, *col_pitch, table,
            )?;
            Ok(Some(DevStage::Map(stage)))
        }
        Opcode::Skipped { .. } => Ok(None),
    }
}

/// Appends the stage of an opcode, if it has one.
fn push_opcode(alloc: Global, opcode: &Opcode, stages: &mut Vec<DevStage>) -> Result<(), AllocError>
    requires { CanRun opcode.now }
    ensures { IfOk result (λ _. stages.new.items ≡ stages.old.items ++ option_to_list (opcode_stage opcode.now)) }
{
    if let Some(stage) = opcode_stage(alloc, opcode)? {
        stages.push(stage)?;
    }
    Ok(())
}

/// Appends the stages of the opcodes of a list, in their order.
///
/// # Errors
///
/// `AllocError` where there is no memory.
pub(crate) fn push_listed(
    alloc: Global,
    opcodes: &[Opcode],
    stages: &mut Vec<DevStage>,
) -> Result<(), AllocError>
    requires { All CanRun opcodes.now }
    ensures { IfOk result (λ _. stages.new.items ≡ stages.old.items ++ listed opcodes.now) }
{
    for opcode in opcodes {
        push_opcode(alloc, opcode, stages)?;
    }
    Ok(())
}

/// How many stages an opcode has.
fn count_of(opcode: &Opcode) -> u32
    ensures count { result ≡ length (option_to_list (opcode_stage opcode.now)) }
    ensures few { result ≤ 1 }
{
    match opcode {
        Opcode::Skipped { .. } => 0,
        _ => 1,
    }
}

/// How many stages the opcodes of a list have.
pub(crate) fn stage_count(opcodes: &[Opcode]) -> u32
    requires { length opcodes.now ≤ 16 }
    ensures count { result ≡ length (listed opcodes.now) }
    ensures few { result ≤ 16 }
{
    let mut count = 0;
    for opcode in opcodes {
        count += count_of(opcode);
    }
    count
}

/// The colour of the pixel at a row and a column.
fn colour_at(cfa: [u8; 4], r: u32, c: u32) -> u8
    ensures { result ≡ colour_at cfa r c }
{
    cfa[(r % 2 * 2 + c % 2) as usize]
}

/// The pattern of the part of a plane that a rectangle has.
fn pattern_from(rect: Rect, cfa: [u8; 4]) -> [u8; 4]
    requires { IsNonEmpty rect }
    ensures { result ≡ pattern_from rect cfa }
{
    let Rect { top, left, .. } = rect;
    [
        colour_at(cfa, top, left),
        colour_at(cfa, top, 1 + left),
        colour_at(cfa, 1 + top, left),
        colour_at(cfa, 1 + top, 1 + left),
    ]
}

/// The pattern of what an opcode leaves of a plane.
fn moved_by(opcode: &Opcode, cfa: [u8; 4]) -> [u8; 4]
    requires { CanRun opcode.now }
    ensures pattern { result ≡ moved_by opcode.now cfa }
    ensures bayer { IsBayer cfa → IsBayer result }
{
    match opcode {
        Opcode::Trim { rect } => pattern_from(*rect, cfa),
        _ => cfa,
    }
}

/// The pattern of what the opcodes of a list leave of a plane: each trim moves it.
#[tactic(auto, unfolding(crate::specs::Listed::moved))]
pub(crate) fn moved(opcodes: &[Opcode], cfa: [u8; 4]) -> [u8; 4]
    requires can_run { All CanRun opcodes.now }
    requires bayer { IsBayer cfa }
    ensures pattern { result ≡ moved opcodes.now cfa }
    ensures bayer { IsBayer result }
{
    match opcodes {
        [opcode, more @ ..] => moved(more, moved_by(opcode, cfa)),
        [] => cfa,
    }
}
