//! The tags that are read, and the rule of each: its number, its directory, and the types and counts that it may have.

ghost use Rattle.std.specs.Prelude.{◌≡◌};
ghost use Rattle.tag_rules.specs.Tags.{allows, colour, early, later, rule_of};

use crate::faults::FrameFault;
use Home::{Main, Raw};
use Kinds::{
    Byte, Long, LongOrIfd, Rational, Short, ShortLongOrRational, ShortOrLong, ShortOrRational,
    SignedRational, Undefined,
};

/// A tag of TIFF 6.0, TIFF/EP or DNG 1.6 that is read.
#[derive(Clone, Copy, Debug, PartialEq, Eq)]
pub enum Tag {
    NewSubfileType,
    SubIfds,
    DngVersion,
    DngBackwardVersion,
    PhotometricInterpretation,
    Compression,
    SamplesPerPixel,
    BitsPerSample,
    SampleFormat,
    ImageWidth,
    ImageLength,
    TileWidth,
    TileLength,
    TileOffsets,
    TileByteCounts,
    StripOffsets,
    RowsPerStrip,
    StripByteCounts,
    CfaRepeatPatternDim,
    CfaPattern,
    CfaPlaneColor,
    CfaLayout,
    OpcodeList1,
    OpcodeList2,
    OpcodeList3,
    ActiveArea,
    LinearizationTable,
    BlackLevelRepeatDim,
    BlackLevel,
    BlackLevelDeltaH,
    BlackLevelDeltaV,
    WhiteLevel,
    DefaultCropOrigin,
    DefaultCropSize,
    ColorMatrix1,
    ColorMatrix2,
    CameraCalibration1,
    CameraCalibration2,
    AnalogBalance,
    AsShotNeutral,
    ForwardMatrix1,
    ForwardMatrix2,
}

/// The directory in which a tag is looked for.
#[derive(Clone, Copy, Debug, PartialEq, Eq)]
pub enum Home {
    /// Directory 0.
    Main,
    /// The directory of the raw image.
    Raw,
}

/// The types that a tag may have.
#[derive(Clone, Copy, Debug, PartialEq, Eq)]
pub enum Kinds {
    Byte,
    Short,
    Long,
    ShortOrLong,
    LongOrIfd,
    Rational,
    ShortOrRational,
    ShortLongOrRational,
    SignedRational,
    Undefined,
}

impl Kinds {
    /// Whether this type is one of them.
    pub fn allow(self, kind: u16) -> bool
        ensures { result ≡ allows self kind }
    {
        match self {
            Kinds::Byte => kind == 1,
            Kinds::Short => kind == 3,
            Kinds::Long => kind == 4,
            Kinds::ShortOrLong => kind == 3 || kind == 4,
            Kinds::LongOrIfd => kind == 4 || kind == 13,
            Kinds::Rational => kind == 5,
            Kinds::ShortOrRational => kind == 3 || kind == 5,
            Kinds::ShortLongOrRational => kind == 3 || kind == 4 || kind == 5,
            Kinds::SignedRational => kind == 10,
            Kinds::Undefined => kind == 7,
        }
    }
}

/// How a tag is read.
#[derive(Clone, Copy, Debug, PartialEq, Eq)]
pub struct Rule {
    pub number: u16,
    pub home: Home,
    pub kinds: Kinds,
    /// The fewest numbers that its entry may have.
    pub fewest: u32,
    /// The most.
    pub most: u32,
    /// The refusal where it has another count.
    pub miscounted: FrameFault,
}

/// As many numbers as there can be.
const ANY: u32 = u32::MAX;

/// The rule of a tag whose wrong count is a bad entry.
fn early(number: u16, home: Home, kinds: Kinds, fewest: u32, most: u32) -> Rule
    ensures { result ≡ early number home kinds fewest most }
{
    Rule {
        number,
        home,
        kinds,
        fewest,
        most,
        miscounted: FrameFault::BadEntry { tag: number },
    }
}

/// The rule of a later tag of the raw image's directory, where a wrong count has its step's own refusal.
fn later(number: u16, kinds: Kinds, fewest: u32, most: u32, miscounted: FrameFault) -> Rule
    ensures { result ≡ later number kinds fewest most miscounted }
{
    Rule {
        number,
        home: Raw,
        kinds,
        fewest,
        most,
        miscounted,
    }
}

/// The rule of a colour tag, which has one count.
fn colour(number: u16, kinds: Kinds, count: u32) -> Rule
    ensures { result ≡ colour number kinds count }
{
    Rule {
        number,
        home: Main,
        kinds,
        fewest: count,
        most: count,
        miscounted: FrameFault::Colour { tag: number },
    }
}

impl Tag {
    /// How the tag is read.
    pub fn rule(self) -> Rule
        ensures { result ≡ rule_of self }
    {
        match self {
            Tag::NewSubfileType => early(254, Main, ShortOrLong, 1, 1),
            Tag::SubIfds => early(330, Main, LongOrIfd, 1, 64),
            Tag::DngVersion => early(50706, Main, Byte, 4, 4),
            Tag::DngBackwardVersion => early(50707, Main, Byte, 4, 4),
            Tag::PhotometricInterpretation => early(262, Raw, Short, 1, 1),
            Tag::Compression => early(259, Raw, Short, 1, 1),
            Tag::SamplesPerPixel => early(277, Raw, Short, 1, 1),
            Tag::BitsPerSample => early(258, Raw, Short, 1, 1),
            Tag::SampleFormat => early(339, Raw, Short, 1, 1),
            Tag::ImageWidth => early(256, Raw, ShortOrLong, 1, 1),
            Tag::ImageLength => early(257, Raw, ShortOrLong, 1, 1),
            Tag::TileWidth => later(322, ShortOrLong, 1, 1, FrameFault::Layout),
            Tag::TileLength => later(323, ShortOrLong, 1, 1, FrameFault::Layout),
            Tag::TileOffsets => later(324, Long, 0, ANY, FrameFault::Layout),
            Tag::TileByteCounts => later(325, ShortOrLong, 0, ANY, FrameFault::Layout),
            Tag::StripOffsets => later(273, ShortOrLong, 0, ANY, FrameFault::Layout),
            Tag::RowsPerStrip => later(278, ShortOrLong, 1, 1, FrameFault::Layout),
            Tag::StripByteCounts => later(279, ShortOrLong, 0, ANY, FrameFault::Layout),
            Tag::CfaRepeatPatternDim => later(33421, Short, 2, 2, FrameFault::Cfa),
            Tag::CfaPattern => later(33422, Byte, 4, 4, FrameFault::Cfa),
            Tag::CfaPlaneColor => later(50710, Byte, 3, 3, FrameFault::Cfa),
            Tag::CfaLayout => later(50711, Short, 1, 1, FrameFault::Cfa),
            Tag::OpcodeList1 => early(51008, Raw, Undefined, 0, ANY),
            Tag::OpcodeList2 => early(51009, Raw, Undefined, 0, ANY),
            Tag::OpcodeList3 => early(51022, Raw, Undefined, 0, ANY),
            Tag::ActiveArea => later(50829, ShortOrLong, 4, 4, FrameFault::Active),
            Tag::LinearizationTable => later(50712, Short, 1, 65536, FrameFault::Levels),
            Tag::BlackLevelRepeatDim => later(50713, Short, 2, 2, FrameFault::Levels),
            Tag::BlackLevel => later(50714, ShortLongOrRational, 1, 64, FrameFault::Levels),
            Tag::BlackLevelDeltaH => later(50715, SignedRational, 1, 8192, FrameFault::Levels),
            Tag::BlackLevelDeltaV => later(50716, SignedRational, 1, 8192, FrameFault::Levels),
            Tag::WhiteLevel => later(50717, ShortOrLong, 1, ANY, FrameFault::Levels),
            Tag::DefaultCropOrigin => later(50719, ShortLongOrRational, 2, 2, FrameFault::Crop),
            Tag::DefaultCropSize => later(50720, ShortLongOrRational, 2, 2, FrameFault::Crop),
            Tag::ColorMatrix1 => colour(50721, SignedRational, 9),
            Tag::ColorMatrix2 => colour(50722, SignedRational, 9),
            Tag::CameraCalibration1 => colour(50723, SignedRational, 9),
            Tag::CameraCalibration2 => colour(50724, SignedRational, 9),
            Tag::AnalogBalance => colour(50727, Rational, 3),
            Tag::AsShotNeutral => colour(50728, ShortOrRational, 3),
            Tag::ForwardMatrix1 => colour(50964, SignedRational, 9),
            Tag::ForwardMatrix2 => colour(50965, SignedRational, 9),
        }
    }
}
