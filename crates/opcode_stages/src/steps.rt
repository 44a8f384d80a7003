//! The steps from a bad pixel to its neighbours.

ghost use Rattle.std.specs.Prelude.{◌≡◌, ◌+◌, ◌<◌, ◌≤◌, ◌^◌};
ghost use Rattle.std.specs.List.{All};
ghost use Rattle.opcode_stages.specs.Mends.{is_green, steps_of, row_after, col_after, stays};
ghost use Rattle.opcode_stages.specs.inner.MendRows.{IsShort};

use plane_view::Shape;

/// A step from a pixel to another: so many rows up and down, and so many columns to the left and to the right.
#[derive(Clone, Copy)]
pub(crate) struct Step {
    up: u32,
    down: u32,
    left: u32,
    right: u32,
}

/// Whether the pixel at row `r`, column `c` is green. The phase tells the top left pixel: 0 red, 1 green in a row of
/// green and red, 2 green in a row of green and blue, 3 blue.
pub(crate) fn is_green(phase: u8, r: u32, c: u32) -> bool
    requires { r + c < 2 ^ 32 }
    ensures { result ≡ is_green phase r c }
{
    let odd = (r + c) % 2 == 1;
    if phase == 0 || phase == 3 { odd } else { !odd }
}

/// The steps to the neighbours of a green pixel, the four diagonal ones; or of another one, those two rows or two
/// columns off.
pub(crate) fn steps_of(green: bool) -> [Step; 4]
    ensures steps { result ≡ steps_of green }
    ensures short { All IsShort result }
{
    if green {
        [
            Step::new(1, 0, 1, 0),
            Step::new(1, 0, 0, 1),
            Step::new(0, 1, 1, 0),
            Step::new(0, 1, 0, 1),
        ]
    } else {
        [
            Step::new(2, 0, 0, 0),
            Step::new(0, 2, 0, 0),
            Step::new(0, 0, 2, 0),
            Step::new(0, 0, 0, 2),
        ]
    }
}

impl Step {
    /// A step of so many rows and columns.
    fn new(up: u32, down: u32, left: u32, right: u32) -> Step
        ensures { result ≡ record { up = up; down = down; left = left; right = right } }
    {
        Step {
            up,
            down,
            left,
            right,
        }
    }

    /// Whether the step stays in a plane.
    pub(crate) fn stays(&self, whole: Shape, r: u32, c: u32) -> bool
        requires short { IsShort self.now }
        requires row { r ≤ 8192 }
        requires column { c ≤ 8192 }
        ensures { result ≡ stays whole.rows whole.cols r c self.now }
    {
        self.up <= r && r + self.down < whole.rows && self.left <= c && c + self.right < whole.cols
    }

    /// The row and the column after a step that stays in a plane.
    pub(crate) fn from(&self, r: u32, c: u32) -> (u32, u32)
        requires short { IsShort self.now }
        requires row { r ≤ 8192 }
        requires column { c ≤ 8192 }
        requires up { self.now.up ≤ r }
        requires left { self.now.left ≤ c }
        ensures row { result.0 ≡ row_after r self.now }
        ensures column { result.1 ≡ col_after c self.now }
    {
        (r + self.down - self.up, c + self.right - self.left)
    }
}
