//! Frames for tests, built entry by entry: the flat frame, the bright-red frame, and either with changes, in either
//! byte order. The crate is for tests alone: its calls are safe, and `small` of `frame_tests` says what they give.
#![tactic(auto)]

use lists::Items;
use std::alloc::{AllocError, Global};
use tiff_dirs::Order;
use tiff_write::{Field, Place, file_bytes};

/// The samples of a frame's strip.
#[derive(Drop)]
enum Strip {
    /// 16 bits each, written in the file's byte order.
    Samples(Items<u16>),
    /// Bytes that stand as they are.
    Bytes(Items<u8>),
}

/// A frame that is to be written.
#[derive(Drop)]
pub struct TestFrame {
    /// The directories before the raw one: none, or directory 0.
    outer: Vec<Items<Field>>,
    /// The entries of the raw directory.
    fields: Vec<Field>,
    strip: Strip,
}

/// The flat frame: 4 by 4 samples of 16 bits, each 4660.
///
/// # Errors
///
/// `AllocError` where there is no memory.
pub fn flat(alloc: Global) -> Result<TestFrame, AllocError> {
    plain(alloc, 4, 4, &[4660; 16])
}

/// The bright-red frame: 8 by 8 samples of 16 bits, 1600 at the red site of row 4 and column 4, and 0 elsewhere.
///
/// # Errors
///
/// `AllocError` where there is no memory.
pub fn bright_red(alloc: Global) -> Result<TestFrame, AllocError> {
    let mut samples = [0; 64];
    samples[4 * 8 + 4] = 1600;
    plain(alloc, 8, 8, &samples)
}

/// A frame of the plain form, with these samples in one strip: no compression, 16 bits, red at the top left.
///
/// # Errors
///
/// `AllocError` where there is no memory, or where 32 bits can't hold the number of the strip's bytes.
pub fn plain(
    alloc: Global,
    cols: u16,
    rows: u16,
    samples: &[u16],
) -> Result<TestFrame, AllocError> {
    let fields = vec![in alloc;
        Field::shorts(alloc, 256, &[cols])?,
        Field::shorts(alloc, 257, &[rows])?,
        Field::shorts(alloc, 258, &[16])?,
        Field::shorts(alloc, 262, &[32803])?,
        Field::places(alloc, 273, &[Place::Data(0)])?,
        byte_count(alloc, 2, samples.len())?,
        Field::shorts(alloc, 33421, &[2, 2])?,
        Field::bytes(alloc, 33422, &[0, 1, 1, 2])?,
        Field::bytes(alloc, 50706, &[1, 4, 0, 0])?,
    ]?;
    Ok(TestFrame {
        outer: Vec::new(alloc),
        fields,
        strip: Strip::Samples(Items::from_slice(alloc, samples)?),
    })
}

/// An entry of the type UNDEFINED, as those of opcode lists are.
///
/// # Errors
///
/// `AllocError` where there is no memory.
pub fn undefined(alloc: Global, tag: u16, bytes: &[u8]) -> Result<Field, AllocError> {
    let mut field = Field::bytes(alloc, tag, bytes)?;
    field.kind = 7;
    Ok(field)
}

/// The entry of a first forward matrix that is the identity.
///
/// # Errors
///
/// `AllocError` where there is no memory.
pub fn forward_identity(alloc: Global) -> Result<Field, AllocError> {
    let (one, zero) = ((1, 1), (0, 1));
    let entries = [one, zero, zero, zero, one, zero, zero, zero, one];
    Field::signed_rationals(alloc, 50964, &entries)
}

/// The entry of the strip's byte count, for a number of samples of `size` bytes each.
fn byte_count(alloc: Global, size: u32, samples: usize) -> Result<Field, AllocError> {
    let samples = u32::try_from(samples).map_err(|_| AllocError)?;
    let count = samples.checked_mul(size).ok_or(AllocError)?;
    Field::longs(alloc, 279, &[count])
}

impl TestFrame {
    /// The same with an entry in place of the raw directory's first of that tag, or, where it has none, at its end.
    ///
    /// # Errors
    ///
    /// `AllocError` where there is no memory.
    pub fn with(mut self, field: Field) -> Result<TestFrame, AllocError> {
        match self.fields.iter().position(|other| other.tag == field.tag) {
            Some(at) => self.fields[at] = field,
            None => self.fields.push(field)?,
        }
        Ok(self)
    }

    /// The same with a further entry at the raw directory's end, also where it has one of that tag.
    ///
    /// # Errors
    ///
    /// `AllocError` where there is no memory.
    pub fn and(mut self, field: Field) -> Result<TestFrame, AllocError> {
        self.fields.push(field)?;
        Ok(self)
    }

    /// The same with no entry of a tag in the raw directory.
    pub fn without(mut self, tag: u16) -> TestFrame {
        self.fields.retain(|field| field.tag != tag);
        self
    }

    /// The same with other samples in its strip, whose bytes are counted anew.
    ///
    /// # Errors
    ///
    /// `AllocError` where there is no memory, or where 32 bits can't hold the number of the strip's bytes.
    pub fn with_samples(mut self, alloc: Global, samples: &[u16]) -> Result<TestFrame, AllocError> {
        self.strip = Strip::Samples(Items::from_slice(alloc, samples)?);
        self.with(byte_count(alloc, 2, samples.len())?)
    }

    /// The same with other bytes in its strip, which are counted anew and stand as they are in either byte order.
    ///
    /// # Errors
    ///
    /// `AllocError` where there is no memory, or where 32 bits can't hold the number of the strip's bytes.
    pub fn with_strip(mut self, alloc: Global, bytes: &[u8]) -> Result<TestFrame, AllocError> {
        self.strip = Strip::Bytes(Items::from_slice(alloc, bytes)?);
        self.with(byte_count(alloc, 1, bytes.len())?)
    }

    /// The same with its raw directory in a SubIFD: directory 0 has the version, and is marked as a reduced image.
    ///
    /// # Errors
    ///
    /// `AllocError` where there is no memory.
    pub fn in_sub_directory(mut self, alloc: Global) -> Result<TestFrame, AllocError> {
        let first = vec![in alloc;
            Field::longs(alloc, 254, &[1])?,
            Field::places(alloc, 330, &[Place::Directory(1)])?,
            Field::bytes(alloc, 50706, &[1, 4, 0, 0])?,
        ]?;
        self.outer.push(Items::from_vec(first))?;
        Ok(self.without(50706))
    }

    /// The bytes of the file.
    ///
    /// # Errors
    ///
    /// `AllocError` where there is no memory, or where the file is too large for TIFF's numbers.
    pub fn bytes(self, alloc: Global, order: Order) -> Result<Vec<u8>, AllocError> {
        let TestFrame {
            outer,
            fields,
            strip,
        } = self;
        let mut directories = outer;
        directories.push(Items::from_vec(fields))?;
        let data = match strip {
            Strip::Samples(samples) => sample_bytes(alloc, order, samples.as_slice())?,
            Strip::Bytes(bytes) => bytes.into_vec(),
        };
        file_bytes(alloc, order, directories.as_slice(), data.as_slice())
    }
}

/// The bytes of samples in a file's order.
fn sample_bytes(alloc: Global, order: Order, samples: &[u16]) -> Result<Vec<u8>, AllocError> {
    let mut bytes = Vec::new(alloc);
    for sample in samples {
        let both = match order {
            Order::Little => sample.to_le_bytes(),
            Order::Big => sample.to_be_bytes(),
        };
        bytes.extend_from_slice(&both)?;
    }
    Ok(bytes)
}

/// Writes bytes over those at an offset, where they fit; else it changes nothing.
pub fn patch(file: &mut [u8], at: usize, bytes: &[u8]) {
    if at <= file.len() && bytes.len() <= file.len() - at {
        file[at..at + bytes.len()].copy_from_slice(bytes);
    }
}
