//! Lossless JPEG streams (ITU-T T.81, Annex H): their samples.
#![tactic(auto)]

ghost use Rattle.std.specs.Prelude.{ℕ, ℤ, List, Result, ◌≡◌, ◌+◌, ◌≤◌, ◌<◌, ◌^◌, ◌++◌, length, IsOk};
ghost use Rattle.ljpeg_predict.specs.Decoded.{decoded, told};
ghost use Rattle.ljpeg_predict.specs.Faults.{jpeg_fault_name, jpeg_fault_text};
ghost use Rattle.ljpeg_predict.specs.Prediction.{IsRebuilt};
ghost use Rattle.ljpeg_predict.specs.Scans.{Scan as AnyScan, row_length};
ghost use Rattle.ljpeg_predict.specs.Streams.{IsAnswer};
ghost use Rattle.ljpeg_predict.specs.declared.JpegFault.{JpegFault as AnyFault};

mod encoder;
mod headers;
mod lines;
mod samples;
mod scan;
mod segments;
mod writer;

pub use encoder::{EncodeFault, decoding_gives_back, encode};
use headers::read_headers;
use ljpeg_huffman::BitFault;
use samples::read_samples;
use std::error::Error;
use std::fmt;
use text_line::Line;

/// Why a stream gives no samples.
#[derive(Clone, Copy, Debug, PartialEq, Eq)]
pub enum JpegFault {
    /// The stream doesn't begin with the marker SOI.
    NoStart,
    /// No marker stands where one should, or one that has no place there: this byte.
    Marker { byte: u8 },
    /// The frame header of another process than the lossless one with Huffman codes.
    NotLossless { marker: u8 },
    /// A segment is shorter or longer than what it should hold.
    HeaderLength,
    /// Samples of fewer than 2 or more than 16 bits.
    Precision,
    /// Fewer than 1 or more than 4 components, or a scan that hasn't all of them in the frame's order.
    Components,
    /// Sampling factors other than 1.
    Sampling,
    /// A predictor other than 1 to 7.
    Predictor,
    /// A point transform other than 0.
    PointTransform,
    /// A restart interval other than 0.
    Restart,
    /// A table of another class, with a number above 3, or whose lengths and values make none.
    Table,
    /// A component's table that was never given.
    NoTable,
    /// Another number of samples than was wanted: this one.
    Size { has: u64 },
    /// The stream ended within a header or a difference.
    Ended,
    /// The data went on with the bits of no code word.
    NoCode,
}

impl fmt::Display for JpegFault {
    fn fmt<W: fmt::Write>(&self, f: &mut fmt::Formatter<W>) -> fmt::Result {
        match *self {
            JpegFault::NoStart => write!(f, "the stream doesn't begin with the marker SOI"),
            JpegFault::Marker { byte } => write!(
                f,
                "no marker, or one that is out of place: {byte}"
            ),
            JpegFault::NotLossless { marker } => write!(
                f,
                "not lossless with Huffman codes: {marker}"
            ),
            JpegFault::HeaderLength => write!(f, "a segment of a wrong length"),
            JpegFault::Precision => write!(f, "samples of fewer than 2 or more than 16 bits"),
            JpegFault::Components => write!(f, "a wrong number or order of components"),
            JpegFault::Sampling => write!(f, "sampling factors other than 1"),
            JpegFault::Predictor => write!(f, "a predictor other than 1 to 7"),
            JpegFault::PointTransform => write!(f, "a point transform other than 0"),
            JpegFault::Restart => write!(f, "a restart interval other than 0"),
            JpegFault::Table => write!(f, "a table of code words that is none"),
            JpegFault::NoTable => write!(f, "a component's table was never given"),
            JpegFault::Size { has } => write!(
                f,
                "another number of samples than was wanted: {has}"
            ),
            JpegFault::Ended => write!(f, "the stream ended within a header or a difference"),
            JpegFault::NoCode => write!(f, "the data went on with the bits of no code word"),
        }
    }
}

impl Error for JpegFault {}

impl From<BitFault> for JpegFault {
    ghost use Rattle.std.specs.Prelude.{◌≡◌};
    ghost use Rattle.ljpeg_predict.specs.Decoded.{data_fault};

    ghost from_gives = { λ reason fault. fault ≡ data_fault reason };

    fn from(reason: BitFault) -> JpegFault {
        match reason {
            BitFault::Ended => JpegFault::Ended,
            BitFault::NoCode => JpegFault::NoCode,
        }
    }
}

impl JpegFault {
    /// Appends the fault's name, and its numbers in decimal, each after a space.
    pub fn say(&self, line: &mut Line)
        requires { length line.old + 35 ≤ 128 }
        ensures text { line.new ≡ line.old ++ jpeg_fault_text self.now }
        ensures within { length line.new ≤ length line.old + 35 }
    {
        line.push(self.name());
        match *self {
            JpegFault::Marker { byte } => line.push_field(u64::from(byte)),
            JpegFault::NotLossless { marker } => line.push_field(u64::from(marker)),
            JpegFault::Size { has } => line.push_field(has),
            _ => {}
        }
    }

    fn name(&self) -> &'static [u8]
        ensures name { result.now ≡ jpeg_fault_name self.now }
        ensures short { length result.now ≤ 14 }
    {
        match self {
            JpegFault::NoStart => b"NoStart",
            JpegFault::Marker { .. } => b"Marker",
            JpegFault::NotLossless { .. } => b"NotLossless",
            JpegFault::HeaderLength => b"HeaderLength",
            JpegFault::Precision => b"Precision",
            JpegFault::Components => b"Components",
            JpegFault::Sampling => b"Sampling",
            JpegFault::Predictor => b"Predictor",
            JpegFault::PointTransform => b"PointTransform",
            JpegFault::Restart => b"Restart",
            JpegFault::Table => b"Table",
            JpegFault::NoTable => b"NoTable",
            JpegFault::Size { .. } => b"Size",
            JpegFault::Ended => b"Ended",
            JpegFault::NoCode => b"NoCode",
        }
    }
}

/// Writes the samples of a stream, line by line, sample by sample, component by component, where the stream has as many
/// as `out` is long. What follows the last one isn't looked at. After a refusal `out` holds anything.
///
/// # Errors
///
/// The first refusal of the headers; `Size` where they tell another number of samples; then `Ended` or `NoCode` where
/// the data are too few.
pub fn decode(bytes: &[u8], out: &mut [u16]) -> Result<(), JpegFault>
    requires some { 0 < length out.old }
    requires few { length out.old ≤ 2 ^ 25 }
    ensures { IsAnswer bytes.now (length out.old) result out.new }
{
    let scan = read_headers(bytes)?;
    let has = scan.sample_count();
    if has != out.len() as u64 {
        return Err(JpegFault::Size { has });
    }
    read_samples(&scan, out)?;
    Ok(())
}

/// Differences are those of exactly one list of samples, for a scan whose lines have some.
pub fn one_rebuilding()
    ensures some { (scan : AnyScan) (differences : List ℤ) → 0 < row_length scan
        → (samples : List ℕ) × IsRebuilt scan differences samples }
    ensures one { (scan : AnyScan) (differences : List ℤ) (samples others : List ℕ) → 0 < row_length scan
        → IsRebuilt scan differences samples → IsRebuilt scan differences others → samples ≡ others }
{}

/// A stream has one answer: the samples of one list, or one refusal.
pub fn one_answer()
    ensures { (bytes : List ℕ) (want : ℕ) (result other : Result (Unit {0}) AnyFault) (samples others : List ℕ)
        → 0 < want
        → IsAnswer bytes want result samples → IsAnswer bytes want other others
        → (result ≡ other) × (IsOk result → samples ≡ others) }
{}

/// A stream's answer, computed bit by bit: it is the one that the stream definition allows.
pub fn answer_is_computed()
    ensures { (bytes : List ℕ) (want : ℕ) (result : Result (Unit {0}) AnyFault) (samples : List ℕ)
        → 0 < want → IsAnswer bytes want result samples → decoded bytes want ≡ told result samples }
{}
