//! Entries and their values.

ghost use Rattle.std.specs.Prelude.{◌≡◌, ◌*◌, length, IfOk};
ghost use Rattle.std.specs.List.{flat_map};
ghost use Rattle.tiff_write.specs.Fields.{halves_of, signed_halves_of};

use lists::Items;
use std::alloc::{AllocError, Global};

/// A place in the file, whose offset is written as a value.
#[derive(Clone, Copy, Debug, PartialEq, Eq)]
pub enum Place {
    /// The place at this offset.
    File(u32),
    /// So many bytes behind the data's first one.
    Data(u32),
    /// The directory of this index. One that isn't there has the offset 0.
    Directory(usize),
}

/// The value of an entry. Numbers are written in the file's byte order.
#[derive(Debug, Drop, PartialEq, Eq)]
pub enum Value {
    /// Bytes as they are.
    Bytes(Items<u8>),
    /// Numbers of 16 bits.
    Shorts(Items<u16>),
    /// Numbers of 32 bits.
    Longs(Items<u32>),
    /// Numbers of 32 bits, each the offset of a place.
    Places(Items<Place>),
}

/// An entry of a directory. The value decides how many bytes are written, whatever the type and the count say: so an
/// entry can lie about its value.
#[derive(Debug, Drop, PartialEq, Eq)]
pub struct Field {
    pub tag: u16,
    /// The type's number.
    pub kind: u16,
    /// How many numbers the entry says that it has.
    pub count: u32,
    pub value: Value,
}

/// The numbers of the types (TIFF 6.0, section 2, "Types").
const BYTE: u16 = 1;

const SHORT: u16 = 3;

const LONG: u16 = 4;

const RATIONAL: u16 = 5;

const SRATIONAL: u16 = 10;

/// Each of these makes an entry whose count is the number of its values.
impl Field {
    /// An entry of the type BYTE.
    ///
    /// # Errors
    ///
    /// `AllocError` where there is no memory, or where a count of 32 bits can't hold the number of values.
    pub fn bytes(alloc: Global, tag: u16, bytes: &[u8]) -> Result<Field, AllocError>
        ensures { IfOk result (λ field. field ≡ record {
          tag = tag;
          kind = 1;
          count = length bytes.now;
          value = Value.Bytes bytes.now;
        }) }
    {
        Ok(Field {
            tag,
            kind: BYTE,
            count: count_of(bytes.len())?,
            value: Value::Bytes(Items::from_slice(alloc, bytes)?),
        })
    }

    /// An entry of the type SHORT.
    ///
    /// # Errors
    ///
    /// `AllocError` where there is no memory, or where a count of 32 bits can't hold the number of values.
    pub fn shorts(alloc: Global, tag: u16, numbers: &[u16]) -> Result<Field, AllocError>
        ensures { IfOk result (λ field. field ≡ record {
          tag = tag;
          kind = 3;
          count = length numbers.now;
          value = Value.Shorts numbers.now;
        }) }
    {
        Ok(Field {
            tag,
            kind: SHORT,
            count: count_of(numbers.len())?,
            value: Value::Shorts(Items::from_slice(alloc, numbers)?),
        })
    }

    /// An entry of the type LONG.
    ///
    /// # Errors
    ///
    /// `AllocError` where there is no memory, or where a count of 32 bits can't hold the number of values.
    pub fn longs(alloc: Global, tag: u16, numbers: &[u32]) -> Result<Field, AllocError>
        ensures { IfOk result (λ field. field ≡ record {
          tag = tag;
          kind = 4;
          count = length numbers.now;
          value = Value.Longs numbers.now;
        }) }
    {
        Ok(Field {
            tag,
            kind: LONG,
            count: count_of(numbers.len())?,
            value: Value::Longs(Items::from_slice(alloc, numbers)?),
        })
    }

    /// An entry of the type LONG, whose numbers are the offsets of places.
    ///
    /// # Errors
    ///
    /// `AllocError` where there is no memory, or where a count of 32 bits can't hold the number of values.
    pub fn places(alloc: Global, tag: u16, places: &[Place]) -> Result<Field, AllocError>
        ensures { IfOk result (λ field. field ≡ record {
          tag = tag;
          kind = 4;
          count = length places.now;
          value = Value.Places places.now;
        }) }
    {
        Ok(Field {
            tag,
            kind: LONG,
            count: count_of(places.len())?,
            value: Value::Places(Items::from_slice(alloc, places)?),
        })
    }

    /// An entry of the type RATIONAL: numerators and denominators.
    ///
    /// # Errors
    ///
    /// `AllocError` where there is no memory, or where a count of 32 bits can't hold the number of values.
    pub fn rationals(alloc: Global, tag: u16, fractions: &[(u32, u32)]) -> Result<Field, AllocError>
        ensures { IfOk result (λ field. field ≡ record {
          tag = tag;
          kind = 5;
          count = length fractions.now;
          value = Value.Longs (flat_map halves_of fractions.now);
        }) }
    {
        let mut halves = Vec::new(alloc);
        for fraction in fractions {
            halves.push(fraction.0)?;
            halves.push(fraction.1)?;
        }
        Ok(Field {
            tag,
            kind: RATIONAL,
            count: count_of(fractions.len())?,
            value: Value::Longs(Items::from_vec(halves)),
        })
    }

    /// An entry of the type SRATIONAL: numerators and denominators.
    ///
    /// # Errors
    ///
    /// `AllocError` where there is no memory, or where a count of 32 bits can't hold the number of values.
    pub fn signed_rationals(
        alloc: Global,
        tag: u16,
        fractions: &[(i32, i32)],
    ) -> Result<Field, AllocError>
        ensures { IfOk result (λ field. field ≡ record {
          tag = tag;
          kind = 10;
          count = length fractions.now;
          value = Value.Longs (flat_map signed_halves_of fractions.now);
        }) }
    {
        let mut halves = Vec::new(alloc);
        for fraction in fractions {
            halves.push(fraction.0.cast_unsigned())?;
            halves.push(fraction.1.cast_unsigned())?;
        }
        Ok(Field {
            tag,
            kind: SRATIONAL,
            count: count_of(fractions.len())?,
            value: Value::Longs(Items::from_vec(halves)),
        })
    }
}

/// The count of an entry that has so many values; `AllocError` where 32 bits can't hold it.
fn count_of(len: usize) -> Result<u32, AllocError>
    ensures { IfOk result (λ count. count ≡ len) }
{
    u32::try_from(len).map_err(|_| AllocError)
}
