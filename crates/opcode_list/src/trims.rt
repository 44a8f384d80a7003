//! What the trims of an opcode list leave of a plane.

ghost use Rattle.std.specs.Prelude.{◌≡◌, ◌≤◌, All, IfOk, length};
ghost use Rattle.opcode_list.specs.Params.{CanRun};
ghost use Rattle.opcode_list.specs.Trims.{IsPartOf, fits, left_by, trimmed};

use crate::opcode::Opcode;
use plane_view::Shape;

/// Whether an opcode's trim lies in the plane that it finds.
fn fits(opcode: &Opcode, shape: Shape) -> bool
    ensures { result ≡ fits opcode.now shape }
{
    match opcode {
        Opcode::Trim { rect } => rect.bottom <= shape.rows && rect.right <= shape.cols,
        _ => true,
    }
}

/// The shape of what an opcode makes of a plane.
fn left_by(opcode: &Opcode, shape: Shape) -> Shape
    requires { CanRun opcode.now }
    ensures { result ≡ left_by opcode.now shape }
{
    match opcode {
        Opcode::Trim { rect } => Shape {
            rows: rect.bottom - rect.top,
            cols: rect.right - rect.left,
            planes: shape.planes,
        },
        _ => shape,
    }
}

/// The shape of what the opcodes of a list make of a plane, one after the other.
///
/// # Errors
///
/// The first trim, by its index over all opcodes, whose rectangle doesn't lie in the plane that it finds.
pub fn trimmed(opcodes: &[Opcode], shape: Shape) -> Result<Shape, u32>
    requires can_run { All CanRun opcodes.now }
    requires few { length opcodes.now ≤ 16 }
    requires some_rows { 1 ≤ shape.rows }
    requires some_cols { 1 ≤ shape.cols }
    ensures answer { result ≡ trimmed opcodes.now shape }
    ensures part { IfOk result (IsPartOf shape) }
{
    let mut left = shape;
    for index in 0..opcodes.len() {
        let opcode = &opcodes[index];
        if !fits(opcode, left) {
            return Err(index as u32);
        }
        left = left_by(opcode, left);
    }
    Ok(left)
}
