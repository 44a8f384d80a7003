//! Directories and entries of a TIFF file (TIFF 6.0, section 2), in both byte orders. Everything is read in
//! place: no call takes memory.
//!
//! [`Tiff::open`] looks at the header and at directory 0, [`Tiff::find`] looks for a tag in a directory, and
//! [`Tiff::number`] and [`Tiff::rational`] read the numbers of the entry that was found.
#![tactic(auto)]

ghost use Rattle.std.specs.Prelude.{◌≡◌, ◌+◌, ◌*◌, ◌≤◌, ◌<◌, ◌^◌, ◌==◌, if◌then◌else◌, length, IsTrue, IfOk, IfSome};
ghost use Rattle.std.specs.List.{find};
ghost use Rattle.std.specs.Option.{option_map};
ghost use Rattle.tiff_dirs.specs.Entries.{entries, entry_of, field_or_fault, slot_at, value_place};
ghost use Rattle.tiff_dirs.specs.Header.{directory_fits, directory_of, entry_count, first_directory, has_header};
ghost use Rattle.tiff_dirs.specs.Header.{open_of, order_of};
ghost use Rattle.tiff_dirs.specs.Kinds.{is_fraction, is_whole, size_of};
ghost use Rattle.tiff_dirs.specs.Numbers.{IsOf32Bits, long_at, short_at, signed_long_at, signed_short_at};
ghost use Rattle.tiff_dirs.specs.Seen.{IfFound, seen};
ghost use Rattle.tiff_dirs.specs.inner.Seen.{one_seen};
ghost use Rattle.tiff_dirs.specs.Values.{number_in, rational_in};

use byteorder::{BigEndian, ByteOrder, LittleEndian};
use std::error::Error;
use std::fmt;
use std::marker::{Model, PhantomData};

#[cfg(test)]
mod tests;

/// A file's byte order.
#[derive(Clone, Copy, Debug, PartialEq, Eq)]
pub enum Order {
    /// `II`: the lowest byte of a number comes first.
    Little,
    /// `MM`: the highest byte of a number comes first.
    Big,
}

#[tactic(auto, unfolding(crate::specs::Numbers::number_at))]
impl Order {
    /// The 16-bit number at a place.
    fn short(self, bytes: &[u8], place: usize) -> u16
        requires { place + 2 ≤ length bytes.now }
        ensures { result ≡ short_at self bytes.now place }
    {
        match self {
            Order::Little => LittleEndian::read_u16(&bytes[place..]),
            Order::Big => BigEndian::read_u16(&bytes[place..]),
        }
    }

    /// The 32-bit number at a place.
    fn long(self, bytes: &[u8], place: usize) -> u32
        requires { place + 4 ≤ length bytes.now }
        ensures { result ≡ long_at self bytes.now place }
    {
        match self {
            Order::Little => LittleEndian::read_u32(&bytes[place..]),
            Order::Big => BigEndian::read_u32(&bytes[place..]),
        }
    }
}

impl Order {
    /// The 16-bit number in two's complement at a place.
    fn signed_short(self, bytes: &[u8], place: usize) -> i64
        requires { place + 2 ≤ length bytes.now }
        ensures value { result ≡ signed_short_at self bytes.now place }
        ensures range { IsOf32Bits result }
    {
        self.short(bytes, place).cast_signed().into()
    }

    /// The 32-bit number in two's complement at a place.
    fn signed_long(self, bytes: &[u8], place: usize) -> i64
        requires { place + 4 ≤ length bytes.now }
        ensures value { result ≡ signed_long_at self bytes.now place }
        ensures range { IsOf32Bits result }
    {
        self.long(bytes, place).cast_signed().into()
    }
}

/// What is wrong with a file or a directory.
#[derive(Clone, Copy, Debug, PartialEq, Eq)]
pub enum TiffFault {
    /// The file doesn't begin with a TIFF header.
    NotTiff,
    /// The directory at this offset doesn't lie in the file.
    BadDirectory { at: u32 },
}

impl fmt::Display for TiffFault {
    fn fmt<W: fmt::Write>(&self, f: &mut fmt::Formatter<W>) -> fmt::Result {
        match self {
            TiffFault::NotTiff => write!(f, "the file has no TIFF header"),
            TiffFault::BadDirectory { at } => {
                write!(f, "the directory at {at} doesn't lie in the file")
            }
        }
    }
}

impl Error for TiffFault {}

/// A TIFF file: a header, and a directory 0 that lies in the file. Contracts see its bytes.
#[derive(Drop)]
pub struct Tiff<'a> {
    bytes: &'a [u8],
    order: Order,
    first: u32,
}

impl<'a> Model for Tiff<'a> {
    ghost use Rattle.std.specs.Prelude.{ℕ, List, ◌≡◌, IsTrue};
    ghost use Rattle.tiff_dirs.specs.Header.{directory_fits, first_directory, order_of};

    ghost Value = { List ℕ };

    ghost view = { λ t. t.bytes.now };

    ghost invariant = { λ t. (t.order ≡ order_of t.bytes.now)
        × (t.first ≡ first_directory t.bytes.now)
        × IsTrue (directory_fits t.bytes.now (first_directory t.bytes.now)) };
}

/// A directory that was found to lie in its file. Contracts see its offset.
#[derive(Drop)]
pub struct Dir<'a> {
    at: u32,
    file: PhantomData<&'a [u8]>,
}

impl<'a> Model for Dir<'a> {
    ghost use Rattle.std.specs.Prelude.{ℕ};

    ghost Value = { ℕ };

    ghost view = { λ d. d.at };
}

/// What is wrong with an entry that was looked for.
#[derive(Clone, Copy, Debug, PartialEq, Eq)]
pub enum EntryFault {
    /// The tag's first entry has the type FLOAT or DOUBLE.
    FloatTag { tag: u16 },
    /// The tag's first entry has none of the 13 types, or its value doesn't lie in the file.
    BadEntry { tag: u16 },
}

impl fmt::Display for EntryFault {
    fn fmt<W: fmt::Write>(&self, f: &mut fmt::Formatter<W>) -> fmt::Result {
        match self {
            EntryFault::FloatTag { tag } => {
                write!(f, "the entry of tag {tag} has floating point numbers")
            }
            EntryFault::BadEntry { tag } => {
                write!(
                    f,
                    "the entry of tag {tag} has no known type, or a value outside the file"
                )
            }
        }
    }
}

impl Error for EntryFault {}

/// An entry of a directory, with the bytes of its value as they stand in the file.
#[derive(Clone, Copy, Debug, PartialEq, Eq)]
pub struct Entry<'a> {
    /// Its tag, which says what it tells.
    pub tag: u16,
    /// The type of its numbers, 1 to 13.
    pub kind: u16,
    /// How many numbers it has.
    pub count: u32,
    /// The bytes of those numbers.
    pub value: &'a [u8],
}

const BYTE: u16 = 1;

const SHORT: u16 = 3;

const RATIONAL: u16 = 5;

const SSHORT: u16 = 8;

const SLONG: u16 = 9;

const SRATIONAL: u16 = 10;

const FLOAT: u16 = 11;

const DOUBLE: u16 = 12;

const IFD: u16 = 13;

/// The bytes of one value of each type, by the type's number (TIFF 6.0, section 2, "Types").
const KIND_SIZES: [usize; 14] = [0, 1, 1, 2, 4, 8, 1, 1, 2, 4, 8, 4, 8, 4];

/// The bytes of one value of a type, 0 where the number is no type.
#[tactic(auto, unfolding(crate::specs::Kinds::size_of))]
fn kind_size(kind: u16) -> usize
    ensures value { result ≡ size_of kind }
    ensures small { result ≤ 8 }
{
    KIND_SIZES.get(usize::from(kind)).copied().unwrap_or(0)
}

/// The bytes of a header: a mark that tells the byte order, and the offset of directory 0.
const HEADER_LEN: usize = 8;

const LITTLE_MARK: [u8; 4] = *b"II*\0";

const BIG_MARK: [u8; 4] = *b"MM\0*";

/// The byte order that the file's header tells, if it has one.
#[tactic(auto, unfolding(crate::specs::Header::has_header, crate::specs::Header::order_of, crate::specs::Header::is_big, crate::specs::Header::is_little))]
fn header_order(bytes: &[u8]) -> Option<Order>
    ensures order { result ≡ (if has_header bytes.now then Some (order_of bytes.now) else None) }
    ensures whole { IfSome result (λ _. 8 ≤ length bytes.now) }
{
    if bytes.len() < HEADER_LEN {
        None
    } else if bytes.starts_with(&BIG_MARK) {
        Some(Order::Big)
    } else if bytes.starts_with(&LITTLE_MARK) {
        Some(Order::Little)
    } else {
        None
    }
}

/// The bytes of an entry in a directory.
const ENTRY_LEN: usize = 12;

/// How many entries the directory at an offset has, if it lies in the file.
#[tactic(auto, unfolding(crate::specs::Header::directory_fits, crate::specs::Header::entry_count))]
fn entry_count(order: Order, bytes: &[u8], at: u32) -> Option<u16>
    requires { order ≡ order_of bytes.now }
    ensures count { result ≡ (if directory_fits bytes.now at then Some (entry_count bytes.now at) else None) }
    ensures whole { IfSome result (λ n. at + 2 + 12 * n ≤ length bytes.now) }
{
    let entries = at as usize + 2;
    if bytes.len() < entries {
        return None;
    }
    let count = order.short(bytes, at as usize);
    if bytes.len() < entries + ENTRY_LEN * usize::from(count) {
        return None;
    }
    Some(count)
}

impl<'a> Tiff<'a> {
    /// Opens a file whose bytes are at hand: its header must be whole, and directory 0 must lie in it.
    ///
    /// # Errors
    ///
    /// `NotTiff` where there are fewer than 8 bytes, or they don't begin with `II`, 42 or `MM`, 42 in that
    /// byte order; `BadDirectory` where directory 0 doesn't lie in the file.
    #[tactic(auto, unfolding(crate::specs::Header::open_of, crate::specs::Header::first_directory))]
    pub fn open(bytes: &'a [u8]) -> Result<Tiff<'a>, TiffFault>
        ensures { result ≡ open_of bytes.now }
    {
        let Some(order) = header_order(bytes) else {
            return Err(TiffFault::NotTiff);
        };
        let first = order.long(bytes, 4);
        if entry_count(order, bytes, first).is_none() {
            return Err(TiffFault::BadDirectory { at: first });
        }
        Ok(Tiff {
            bytes,
            order,
            first,
        })
    }

    /// The file's byte order.
    pub fn order(&self) -> Order
        ensures { result ≡ order_of self.now }
    {
        self.order
    }

    /// Directory 0.
    pub fn first(&self) -> Dir<'_>
        ensures offset { result ≡ first_directory self.now }
        ensures fits { IsTrue (directory_fits self.now result) }
    {
        Dir {
            at: self.first,
            file: PhantomData,
        }
    }

    /// The directory at an offset in the file.
    ///
    /// # Errors
    ///
    /// `BadDirectory` where its count or its entries don't lie in the file. The offset of the next directory,
    /// which stands behind the entries, isn't looked at.
    #[tactic(auto, unfolding(crate::specs::Header::directory_of))]
    pub fn dir(&self, at: u32) -> Result<Dir<'_>, TiffFault>
        ensures { result ≡ directory_of self.now at }
    {
        if entry_count(self.order, self.bytes, at).is_none() {
            return Err(TiffFault::BadDirectory { at });
        }
        Ok(Dir {
            at,
            file: PhantomData,
        })
    }

    /// The first entry of a directory that has the tag, if there is one. In a directory of another file, which
    /// doesn't lie in this one, there is none.
    ///
    /// # Errors
    ///
    /// `FloatTag` where that entry has the type FLOAT or DOUBLE. `BadEntry` where it has none of the 13 types,
    /// or its value doesn't lie in the file.
    #[tactic(auto, unfolding(crate::specs::Entries::entry_of))]
    pub fn find(&self, dir: &Dir<'_>, tag: u16) -> Result<Option<Entry<'_>>, EntryFault>
        ensures answer { seen result ≡ entry_of self.now dir.now tag }
        ensures whole { IfFound result (λ e. length e.value.now ≡ e.count * size_of e.kind) }
    {
        let Some(place) = self.entry_place(dir.at, tag) else {
            return Ok(None);
        };
        self.entry(place).map(Some)
    }

    /// Where the first entry with the tag begins, in the directory at an offset.
    fn entry_place(&self, at: u32, tag: u16) -> Option<usize>
        ensures place { option_map (slot_at self.now) result ≡ find (λ slot. slot.tag == tag) (entries self.now at) }
        ensures whole { IfSome result (λ place. place + 12 ≤ length self.now) }
    {
        let count = entry_count(self.order, self.bytes, at)?;
        let entries = at as usize + 2;
        for i in 0..usize::from(count) {
            let place = entries + ENTRY_LEN * i;
            if self.order.short(self.bytes, place) == tag {
                return Some(place);
            }
        }
        None
    }

    /// The entry whose 12 bytes begin at a place.
    #[tactic(auto, unfolding(crate::specs::Entries::field_or_fault, crate::specs::Entries::field_of, crate::specs::Entries::value_fits, crate::specs::Entries::value_size, crate::specs::Entries::slot_at, crate::specs::Entries::value_place))]
    fn entry(&self, place: usize) -> Result<Entry<'_>, EntryFault>
        requires { place + 12 ≤ length self.now }
        ensures answer { one_seen result ≡ field_or_fault self.now (slot_at self.now place) }
        ensures whole { IfOk result (λ e. length e.value.now ≡ e.count * size_of e.kind) }
    {
        let tag = self.order.short(self.bytes, place);
        let kind = self.order.short(self.bytes, place + 2);
        let count = self.order.long(self.bytes, place + 4);
        if kind == FLOAT || kind == DOUBLE {
            return Err(EntryFault::FloatTag { tag });
        }
        if !(BYTE..=IFD).contains(&kind) {
            return Err(EntryFault::BadEntry { tag });
        }
        let len = count as usize * kind_size(kind);
        let start = self.value_place(place, len);
        match self.bytes.get(start..start + len) {
            Some(value) => Ok(Entry {
                tag,
                kind,
                count,
                value,
            }),
            None => Err(EntryFault::BadEntry { tag }),
        }
    }

    /// Where the value begins of the entry whose 12 bytes begin at a place.
    #[tactic(auto, unfolding(crate::specs::Entries::value_place))]
    fn value_place(&self, place: usize, len: usize) -> usize
        requires { place + 12 ≤ length self.now }
        ensures value { result ≡ value_place self.now place len }
        ensures small { result < 2 ^ 63 }
    {
        if len <= 4 {
            place + 8
        } else {
            self.order.long(self.bytes, place + 8) as usize
        }
    }

    /// The file's bytes.
    pub fn bytes(&self) -> &[u8]
        ensures { result.now ≡ self.now }
    {
        self.bytes
    }

    /// Number `i` of the entry's value, counted from 0.
    pub fn number(&self, e: &Entry<'_>, i: u32) -> u32
        requires index { i < e.now.count }
        requires kind { IsTrue (is_whole e.now.kind) }
        requires room { e.now.count * size_of e.now.kind ≤ length e.now.value.now }
        ensures value { result ≡ number_in (order_of self.now) e.now.kind e.now.value.now i }
        ensures short { e.now.kind ≡ 3 → result < 2 ^ 16 }
    {
        let i = i as usize;
        match e.kind {
            BYTE => e.value[i].into(),
            SHORT => self.order.short(e.value, 2 * i).into(),
            _ => self.order.long(e.value, 4 * i),
        }
    }

    /// Number `i` of the entry's value, counted from 0, as numerator and denominator. A whole number has the
    /// denominator 1.
    #[tactic(auto, unfolding(crate::specs::Values::rational_in))]
    pub fn rational(&self, e: &Entry<'_>, i: u32) -> (i64, i64)
        requires index { i < e.now.count }
        requires kind { IsTrue (is_fraction e.now.kind) }
        requires room { e.now.count * size_of e.now.kind ≤ length e.now.value.now }
        ensures value { result ≡ rational_in (order_of self.now) e.now.kind e.now.value.now i }
        ensures numerator { IsOf32Bits result.0 }
        ensures denominator { IsOf32Bits result.1 }
    {
        let place = i as usize;
        match e.kind {
            RATIONAL => (
                self.order.long(e.value, 8 * place).into(),
                self.order.long(e.value, 8 * place + 4).into(),
            ),
            SSHORT => (self.order.signed_short(e.value, 2 * place), 1),
            SLONG => (self.order.signed_long(e.value, 4 * place), 1),
            SRATIONAL => (
                self.order.signed_long(e.value, 8 * place),
                self.order.signed_long(e.value, 8 * place + 4),
            ),
            _ => (self.number(e, i).into(), 1),
        }
    }
}
