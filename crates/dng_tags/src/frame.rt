//! The frame's record, group by group.

ghost use Rattle.std.specs.Prelude.{◌≡◌, ◌≤◌, ◌^◌, length, IfOk};
ghost use Rattle.tag_rules.specs.Answers.{Answers};
ghost use Rattle.dng_tags.specs.Facts.{IsFrame};
ghost use Rattle.dng_tags.specs.Frame.{frame_of, record_of};

use crate::area::{check_large_enough, read_active, read_crop};
use crate::black::read_levels;
use crate::colours::read_colour;
use crate::form::read_form;
use crate::layout::read_segments;
use crate::listed::{area_shape, coloured_shape, read_listed};
use crate::origin::{open, read_origin};
use crate::pattern::read_pattern;
use crate::record::Frame;
use std::alloc::Global;
use tag_rules::{Directories, FrameFault};

/// The bytes of the longest file that is read.
pub const MAX_BYTES: u64 = 1 << 28;

/// Reads what a file says of its frame.
///
/// # Errors
///
/// The first refusal, group by group: the file and its directories (`NotTiff`, `BadDirectory`, `NotDng`, `Newer`,
/// `NoRaw`), the form (`Photometric`, `Compression`, `Samples`, `Depth`, `Format`, `Size`), the segments (`Layout`,
/// `Outside`), the pattern (`Cfa`), opcode list 1 (`Opcode`, `Trim`), the active area (`Active`), the levels
/// (`Levels`), opcode list 2, the size at demosaicing (`Size`), opcode list 3, the crop (`Crop`), the colours
/// (`Colour`). In each of them a tag may be refused as `FloatTag` or `BadEntry`. `Memory` where the lists are out of
/// memory.
#[tactic(auto, unfolding(crate::specs::Frame::frame_of))]
pub fn read_frame(alloc: Global, bytes: &[u8]) -> Result<Frame, FrameFault>
    requires { length bytes.now ≤ 2 ^ 28 }
    ensures answer { Answers result (frame_of bytes.now) }
    ensures frame { IfOk result (λ frame. IsFrame frame bytes.now) }
{
    let tiff = open(bytes)?;
    let dirs = read_origin(&tiff)?;
    read_record(alloc, &dirs)
}

/// The record of a file with a raw image's directory.
#[tactic(auto, unfolding(crate::specs::Frame::record_of))]
fn read_record(alloc: Global, dirs: &Directories<'_>) -> Result<Frame, FrameFault>
    ensures answer { Answers result (record_of dirs.now) }
    ensures frame { IfOk result (λ frame. IsFrame frame dirs.now.bytes) }
{
    let form = read_form(dirs)?;
    let segments = read_segments(alloc, dirs, form.shape)?;
    let cfa = read_pattern(dirs)?;
    let first = read_listed(alloc, dirs, 1, form.shape)?;
    let active = read_active(dirs, first.left)?;
    let levels = read_levels(alloc, dirs, form.depth, active)?;
    let second = read_listed(alloc, dirs, 2, area_shape(active))?;
    check_large_enough(second.left)?;
    let third = read_listed(alloc, dirs, 3, coloured_shape(second.left))?;
    let crop = read_crop(dirs, third.left.rows, third.left.cols)?;
    let colour = read_colour(dirs)?;
    Ok(Frame {
        shape: form.shape,
        depth: form.depth,
        lossless: form.lossless,
        order: dirs.order(),
        segments,
        cfa,
        list1: first.opcodes,
        active,
        levels,
        list2: second.opcodes,
        list3: third.opcodes,
        crop,
        colour,
    })
}
