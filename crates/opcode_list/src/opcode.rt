//! Opcodes, and why a list of them is refused.

ghost use Rattle.std.specs.Prelude.{◌≡◌, ◌+◌, ◌≤◌, ◌++◌, length};
ghost use Rattle.text_line.specs.Fields.{field_text};
ghost use Rattle.opcode_list.specs.Faults.{fault_text};

use lists::Items;
use plane_view::Rect;
use std::alloc::AllocError;
use std::error::Error;
use std::fmt;
use text_line::Line;

/// An opcode, with its parameters as they stand in the list.
#[derive(Debug, Drop, PartialEq, Eq)]
pub enum Opcode {
    /// FixBadPixelsConstant: pixels of this value are mended.
    FixConstant {
        constant: u32,
        /// Which colour the plane's top left pixel has, 0 to 3: red, green beside red, green beside blue, blue.
        phase: u8,
    },
    /// FixBadPixelsList: these pixels are mended, and those in these rectangles.
    FixList {
        /// As above.
        phase: u8,
        /// Row and column of each, at most 65,536 points.
        points: Items<(u32, u32)>,
        /// At most 1,024 rectangles, which may be empty.
        rects: Items<Rect>,
    },
    /// TrimBounds: the plane is cropped to a rectangle that isn't empty.
    Trim {
        rect: Rect,
    },
    /// MapTable: samples are looked up in a table.
    Map {
        rect: Rect,
        /// The first plane.
        plane: u32,
        /// How many planes.
        planes: u32,
        /// Each so many rows from the rectangle's top, at least 1.
        row_pitch: u32,
        /// Each so many columns from its left, at least 1.
        col_pitch: u32,
        /// 1 to 65,536 entries.
        table: Items<u16>,
    },
    /// An opcode that isn't run, which its flags allow.
    Skipped {
        id: u32,
    },
}

/// Why an opcode list is refused. An opcode is named by its index from 0 over all opcodes of the list, and by its ID.
#[derive(Clone, Copy, Debug, PartialEq, Eq)]
pub enum OpcodeFault {
    /// The list has more than 16 opcodes.
    TooMany,
    /// The opcode passes the end of the bytes.
    Truncated { index: u32 },
    /// It came with a DNG version after 1.6.
    Newer { index: u32, id: u32 },
    /// It is none of those that can be run.
    Unknown { index: u32, id: u32 },
    /// It can't be run in list 3.
    NotHere { index: u32, id: u32 },
    /// It can't be run with these parameters.
    BadParams { index: u32, id: u32 },
    /// Out of memory.
    Memory,
}

impl OpcodeFault {
    /// Appends the fault's name, and its numbers in decimal, each after a space.
    pub fn say(&self, line: &mut Line)
        requires { length line.old + 51 ≤ 128 }
        ensures text { line.new ≡ line.old ++ fault_text self.now }
        ensures within { length line.new ≤ length line.old + 51 }
    {
        match *self {
            OpcodeFault::TooMany => line.push(b"TooMany"),
            OpcodeFault::Truncated { index } => {
                line.push(b"Truncated");
                line.push_field(u64::from(index));
            }
            OpcodeFault::Newer { index, id } => say_opcode(b"Newer", index, id, line),
            OpcodeFault::Unknown { index, id } => say_opcode(b"Unknown", index, id, line),
            OpcodeFault::NotHere { index, id } => say_opcode(b"NotHere", index, id, line),
            OpcodeFault::BadParams { index, id } => say_opcode(b"BadParams", index, id, line),
            OpcodeFault::Memory => line.push(b"Memory"),
        }
    }
}

/// Appends a fault's name and its opcode.
fn say_opcode(name: &[u8], index: u32, id: u32, line: &mut Line)
    requires room { length line.old + 51 ≤ 128 }
    requires short { length name.now ≤ 9 }
    ensures text { line.new ≡ line.old ++ (name.now ++ field_text index ++ field_text id) }
    ensures within { length line.new ≤ length line.old + 51 }
{
    line.push(name);
    line.push_field(u64::from(index));
    line.push_field(u64::from(id));
}

impl fmt::Display for OpcodeFault {
    fn fmt<W: fmt::Write>(&self, f: &mut fmt::Formatter<W>) -> fmt::Result {
        match self {
            OpcodeFault::TooMany => write!(f, "the list has more than 16 opcodes"),
            OpcodeFault::Truncated { index } => {
                write!(f, "opcode {index} passes the end of the list")
            }
            OpcodeFault::Newer { index, id } => {
                write!(
                    f,
                    "opcode {index}, with the ID {id}, is of a later DNG version"
                )
            }
            OpcodeFault::Unknown { index, id } => {
                write!(f, "opcode {index} has the ID {id}, which can't be run")
            }
            OpcodeFault::NotHere { index, id } => {
                write!(
                    f,
                    "opcode {index}, with the ID {id}, can't be run in list 3"
                )
            }
            OpcodeFault::BadParams { index, id } => {
                write!(
                    f,
                    "opcode {index}, with the ID {id}, has parameters that can't be run"
                )
            }
            OpcodeFault::Memory => write!(f, "out of memory"),
        }
    }
}

impl Error for OpcodeFault {}

impl From<AllocError> for OpcodeFault {
    ghost use Rattle.std.specs.Prelude.{◌≡◌};
    ghost use Rattle.opcode_list.specs.declared.opcode.OpcodeFault.TheVariants.{Memory};

    ghost from_gives = { λ _ fault. fault ≡ Memory };

    fn from(_: AllocError) -> OpcodeFault {
        OpcodeFault::Memory
    }
}
