//! The record of a frame.

use lists::Items;
use opcode_list::Opcode;
use plane_view::{Rect, Shape};
use tiff_dirs::Order;

/// What a file says of its frame. Contracts see each list of it as a list.
#[derive(Debug, Drop, PartialEq, Eq)]
pub struct Frame {
    /// The raw image's rows and columns, 1 to 8192 each, at most 2^25 pixels; one plane.
    pub shape: Shape,
    /// The bits of a sample, 8 to 16.
    pub depth: u32,
    /// Whether the segments are lossless JPEG streams; else their samples are packed.
    pub lossless: bool,
    /// The file's byte order.
    pub order: Order,
    /// The strips or tiles, row by row: 1 to 65,536.
    pub segments: Items<Segment>,
    /// The colours of the pattern of 2 by 2 in the active area, row by row: 0 is red, 1 green, 2 blue.
    pub cfa: [u8; 4],
    /// The opcodes of list 1, which find the raw image.
    pub list1: Items<Opcode>,
    /// The active area in the plane that list 1 leaves.
    pub active: Rect,
    /// How samples become linear values.
    pub levels: Levels,
    /// The opcodes of list 2, which find the linear values of the active area. They leave at least 4 by 4 pixels.
    pub list2: Items<Opcode>,
    /// The opcodes of list 3, which find the three colours of each pixel.
    pub list3: Items<Opcode>,
    /// The default crop, in the plane that list 3 leaves.
    pub crop: Rect,
    /// The camera's colours.
    pub colour: Colour,
}

impl Frame {
    ghost use Rattle.std.specs.Prelude.{◌≡◌};
    ghost use Rattle.dng_tags.specs.Raw.{coding_of};

    /// How the samples of its segments are coded.
    pub fn coding(&self) -> Coding
        ensures { result ≡ coding_of self.now }
    {
        if self.lossless {
            Coding::LosslessJpeg
        } else {
            Coding::Packed {
                order: self.order,
                depth: self.depth,
            }
        }
    }
}

/// How the samples of segments are coded.
#[derive(Clone, Copy, Debug, PartialEq, Eq)]
pub enum Coding {
    /// Packed, of 8 to 16 bits; two bytes of 16 bits stand in this order.
    Packed { order: Order, depth: u32 },
    /// One lossless JPEG stream each.
    LosslessJpeg,
}

/// A strip or a tile.
#[derive(Clone, Copy, Debug, PartialEq, Eq)]
pub struct Segment {
    /// The offset of its first byte in the file.
    pub at: u32,
    /// How many bytes it has.
    pub length: u32,
    /// Its pixels in the raw image.
    pub rect: Rect,
    /// The rows that are coded, of which those past the image are padding.
    pub full_rows: u32,
    /// The columns that are coded.
    pub full_cols: u32,
}

/// The linearisation table, the black levels in 256ths, and the white level.
#[derive(Debug, Drop, PartialEq, Eq)]
pub struct Levels {
    /// What a sample becomes, the last entry where it is past the table. An empty table changes nothing.
    pub table: Items<u16>,
    /// The rows of the pattern of black levels, 1 to 8.
    pub black_rows: u32,
    /// Its columns, 1 to 8.
    pub black_cols: u32,
    /// The black levels of the pattern, row by row, each within 2^24 of 0.
    pub black: Items<i32>,
    /// What each column of the active area adds to the black level; none is zeros.
    pub delta_h: Items<i32>,
    /// What each row adds; none is zeros.
    pub delta_v: Items<i32>,
    /// The white level, 1 to 65535.
    pub white: u32,
}

/// The gains of the three channels in 4096ths, and matrices by rows in 65536ths, each entry within 2^20 of 0.
#[derive(Clone, Copy, Debug, PartialEq, Eq)]
pub struct Colour {
    /// The gains, 1 to 2^20.
    pub gains: [u32; 3],
    pub forward1: Option<[i32; 9]>,
    pub forward2: Option<[i32; 9]>,
    pub matrix1: Option<[i32; 9]>,
    pub matrix2: Option<[i32; 9]>,
    /// The analog balance, each positive.
    pub analog: [i32; 3],
    /// The diagonals of the camera's calibrations.
    pub calibration1: [i32; 3],
    pub calibration2: [i32; 3],
}
