//! The groups of the opcode lists.

ghost use Rattle.std.specs.Prelude.{◌≡◌, ◌≤◌, None, All, IfOk, length};
ghost use Rattle.opcode_list.specs.Params.{CanRunIn};
ghost use Rattle.opcode_list.specs.Trims.{IsPartOf, first_misfit, left_after};
ghost use Rattle.plane_view.specs.Plane.{coloured};
ghost use Rattle.plane_view.specs.Rectangles.{IsNonEmpty};
ghost use Rattle.tag_rules.specs.Answers.{Answers};
ghost use Rattle.dng_tags.specs.Listed.{area_shape, listed_of};

use lists::Items;
use opcode_list::{Opcode, trimmed};
use plane_view::{Rect, Shape};
use std::alloc::Global;
use tag_rules::{Directories, FrameFault};

/// The opcodes of a list, and the shape of what they leave of the plane that they find.
#[derive(Debug, Drop, PartialEq, Eq)]
pub struct Listed {
    pub opcodes: Items<Opcode>,
    pub left: Shape,
}

/// The opcodes of list 1, 2 or 3, which find a plane of this shape; none where the frame hasn't the list.
///
/// # Errors
///
/// `Opcode`, `Trim`, what reading the tag is refused for, and `Memory` where the list is out of memory.
#[tactic(auto, unfolding(crate::specs::Listed::listed_of))]
pub fn read_listed(
    alloc: Global,
    dirs: &Directories<'_>,
    list: u8,
    found: Shape,
) -> Result<Listed, FrameFault>
    requires low { 1 ≤ list }
    requires high { list ≤ 3 }
    requires some_rows { 1 ≤ found.rows }
    requires some_cols { 1 ≤ found.cols }
    ensures answer { Answers result (listed_of dirs.now list found) }
    ensures can_run { IfOk result (λ listed. All (CanRunIn list) listed.opcodes) }
    ensures count { IfOk result (λ listed. length listed.opcodes ≤ 16) }
    ensures fit { IfOk result (λ listed. first_misfit 0 listed.opcodes found ≡ None) }
    ensures left { IfOk result (λ listed. listed.left ≡ left_after listed.opcodes found) }
    ensures part { IfOk result (λ listed. IsPartOf found listed.left) }
{
    let opcodes = dirs.opcodes(alloc, list)?;
    match trimmed(opcodes.as_slice(), found) {
        Ok(left) => Ok(Listed { opcodes, left }),
        Err(index) => Err(FrameFault::Trim { list, index }),
    }
}

/// The plane of the active area.
pub fn area_shape(active: Rect) -> Shape
    requires { IsNonEmpty active }
    ensures { result ≡ area_shape active }
{
    Shape {
        rows: active.bottom - active.top,
        cols: active.right - active.left,
        planes: 1,
    }
}

/// A plane with three colours.
pub fn coloured_shape(shape: Shape) -> Shape
    ensures { result ≡ coloured shape }
{
    Shape { planes: 3, ..shape }
}
