//! Why a frame is refused.

ghost use Rattle.std.specs.Prelude.{◌≡◌, ◌+◌, ◌≤◌, ◌++◌, length};
ghost use Rattle.tag_rules.specs.FaultText.{fault_text, named, segment_fault_text};

use ljpeg_predict::JpegFault;
use opcode_list::OpcodeFault;
use std::error::Error;
use std::fmt;
use strip_unpack::Short;
use text_line::Line;

/// Why a segment can't be decoded.
#[derive(Clone, Copy, Debug, PartialEq, Eq)]
pub enum SegmentFault {
    /// It has fewer bytes than its samples take.
    Short(Short),
    /// Its lossless JPEG stream can't be decoded, or has another number of samples.
    Jpeg(JpegFault),
}

/// Why a frame is refused.
#[derive(Clone, Copy, Debug, PartialEq, Eq)]
pub enum FrameFault {
    /// The file doesn't begin with a TIFF header.
    NotTiff,
    /// The directory at this offset doesn't lie in the file.
    BadDirectory { at: u32 },
    /// The entry of this tag is missing, or has a type or a count that isn't allowed, or a value outside the file.
    BadEntry { tag: u16 },
    /// The entry of this tag has floating point numbers.
    FloatTag { tag: u16 },
    /// There is no DNG version.
    NotDng,
    /// A reader of a later DNG version than 1.6 is needed.
    Newer,
    /// No directory is the raw image's.
    NoRaw,
    /// The samples aren't those of a colour filter array.
    Photometric { v: u32 },
    /// The compression is neither 1 (none) nor 7 (lossless JPEG).
    Compression { v: u32 },
    /// The samples don't have 8 to 16 bits.
    Depth { v: u32 },
    /// A pixel doesn't have one sample.
    Samples { v: u32 },
    /// The image has no pixel or too many, or is too small to be demosaiced.
    Size,
    /// The strips or tiles don't make up the image.
    Layout,
    /// This segment doesn't lie in the file.
    Outside { segment: u32 },
    /// The colour pattern isn't one of the four of red, green, green and blue.
    Cfa,
    /// The levels of black and white, or the table before them, are out of range.
    Levels,
    /// The active area is empty, or doesn't lie in the image.
    Active,
    /// The colour tag has a wrong count, or numbers out of range.
    Colour { tag: u16 },
    /// The default crop has no pixel.
    Crop,
    /// This segment can't be decoded.
    Segment { segment: u32, why: SegmentFault },
    /// The file has more than 2^28 bytes.
    TooLong,
    /// The samples aren't unsigned whole numbers.
    Format { v: u32 },
    /// The opcode list of this number, 1 to 3, can't be run.
    Opcode { list: u8, fault: OpcodeFault },
    /// The rectangle of this opcode of an opcode list, a TrimBounds, doesn't lie in the plane that it finds. The index
    /// counts all opcodes of the list from 0.
    Trim { list: u8, index: u32 },
    /// Out of memory.
    Memory,
}

/// The most bytes that a fault takes in a line.
pub const MAX_FAULT_TEXT: usize = 79;

impl SegmentFault {
    /// Appends the fault's name and its fields, each after a space.
    pub fn say(&self, line: &mut Line)
        requires { length line.old + 47 ≤ 128 }
        ensures text { line.new ≡ line.old ++ segment_fault_text self.now }
        ensures within { length line.new ≤ length line.old + 47 }
    {
        match self {
            SegmentFault::Short(short) => {
                line.push(b"Short");
                line.push_field(short.needed);
                line.push_field(short.had);
            }
            SegmentFault::Jpeg(fault) => {
                line.push(b"Jpeg ");
                fault.say(line);
            }
        }
    }
}

impl FrameFault {
    /// Appends the fault's name and its fields, each after a space: a fault takes at most [`MAX_FAULT_TEXT`] bytes.
    pub fn say(&self, line: &mut Line)
        requires { length line.old + 79 ≤ 128 }
        ensures text { line.new ≡ line.old ++ fault_text self.now }
        ensures within { length line.new ≤ length line.old + 79 }
    {
        match *self {
            FrameFault::NotTiff => line.push(b"NotTiff"),
            FrameFault::BadDirectory { at } => say_number(line, b"BadDirectory", at),
            FrameFault::BadEntry { tag } => say_number(line, b"BadEntry", tag.into()),
            FrameFault::FloatTag { tag } => say_number(line, b"FloatTag", tag.into()),
            FrameFault::NotDng => line.push(b"NotDng"),
            FrameFault::Newer => line.push(b"Newer"),
            FrameFault::NoRaw => line.push(b"NoRaw"),
            FrameFault::Photometric { v } => say_number(line, b"Photometric", v),
            FrameFault::Compression { v } => say_number(line, b"Compression", v),
            FrameFault::Depth { v } => say_number(line, b"Depth", v),
            FrameFault::Samples { v } => say_number(line, b"Samples", v),
            FrameFault::Size => line.push(b"Size"),
            FrameFault::Layout => line.push(b"Layout"),
            FrameFault::Outside { segment } => say_number(line, b"Outside", segment),
            FrameFault::Cfa => line.push(b"Cfa"),
            FrameFault::Levels => line.push(b"Levels"),
            FrameFault::Active => line.push(b"Active"),
            FrameFault::Colour { tag } => say_number(line, b"Colour", tag.into()),
            FrameFault::Crop => line.push(b"Crop"),
            FrameFault::Segment { segment, why } => {
                say_number(line, b"Segment", segment);
                line.push(b" ");
                why.say(line);
            }
            FrameFault::TooLong => line.push(b"TooLong"),
            FrameFault::Format { v } => say_number(line, b"Format", v),
            FrameFault::Opcode { list, fault } => {
                say_number(line, b"Opcode", list.into());
                line.push(b" ");
                fault.say(line);
            }
            FrameFault::Trim { list, index } => {
                say_number(line, b"Trim", list.into());
                line.push_field(index.into());
            }
            FrameFault::Memory => line.push(b"Memory"),
        }
    }
}

impl fmt::Display for SegmentFault {
    fn fmt<W: fmt::Write>(&self, f: &mut fmt::Formatter<W>) -> fmt::Result {
        match self {
            SegmentFault::Short(short) => write!(f, "{short}"),
            SegmentFault::Jpeg(_) => write!(f, "the lossless JPEG stream can't be decoded"),
        }
    }
}

impl Error for SegmentFault {}

impl fmt::Display for FrameFault {
    fn fmt<W: fmt::Write>(&self, f: &mut fmt::Formatter<W>) -> fmt::Result {
        match self {
            FrameFault::NotTiff => write!(f, "the file has no TIFF header"),
            FrameFault::BadDirectory { at } => {
                write!(f, "the directory at {at} doesn't lie in the file")
            }
            FrameFault::BadEntry { tag } => write!(
                f,
                "the entry of tag {tag} is missing or can't be read"
            ),
            FrameFault::FloatTag { tag } => {
                write!(f, "the entry of tag {tag} has floating point numbers")
            }
            FrameFault::NotDng => write!(f, "there is no DNG version"),
            FrameFault::Newer => write!(f, "a reader of a later DNG version than 1.6 is needed"),
            FrameFault::NoRaw => write!(f, "no directory is the raw image's"),
            FrameFault::Photometric { v } => {
                write!(
                    f,
                    "photometric interpretation {v} is no colour filter array"
                )
            }
            FrameFault::Compression { v } => write!(f, "compression {v} is neither 1 nor 7"),
            FrameFault::Depth { v } => write!(f, "the samples have {v} bits, and not 8 to 16"),
            FrameFault::Samples { v } => write!(f, "a pixel has {v} samples, and not one"),
            FrameFault::Size => write!(
                f,
                "the image is empty, too large, or too small to be demosaiced"
            ),
            FrameFault::Layout => write!(f, "the strips or tiles don't make up the image"),
            FrameFault::Outside { segment } => {
                write!(f, "segment {segment} doesn't lie in the file")
            }
            FrameFault::Cfa => write!(f, "the colour pattern isn't one of those that are accepted"),
            FrameFault::Levels => write!(f, "the levels of black and white are out of range"),
            FrameFault::Active => write!(f, "the active area is empty or doesn't lie in the image"),
            FrameFault::Colour { tag } => {
                write!(
                    f,
                    "colour tag {tag} has a wrong count or numbers out of range"
                )
            }
            FrameFault::Crop => write!(f, "the default crop has no pixel"),
            FrameFault::Segment { segment, why } => write!(f, "segment {segment}: {why}"),
            FrameFault::TooLong => write!(f, "the file has more than 2^28 bytes"),
            FrameFault::Format { v } => write!(f, "sample format {v} isn't that of whole numbers"),
            FrameFault::Opcode { list, fault } => write!(f, "opcode list {list}: {fault}"),
            FrameFault::Trim { list, index } => {
                write!(
                    f,
                    "the trim of opcode list {list} at {index} doesn't lie in the plane"
                )
            }
            FrameFault::Memory => write!(f, "out of memory"),
        }
    }
}

impl Error for FrameFault {}

/// Appends a name and a number after a space.
fn say_number(line: &mut Line, name: &[u8], number: u32)
    requires { length line.old + length name.now + 21 ≤ 128 }
    ensures text { line.new ≡ line.old ++ named name.now number }
    ensures within { length line.new ≤ length line.old + length name.now + 21 }
{
    line.push(name);
    line.push_field(number.into());
}
