//! Uncompressed samples of a strip or a tile, from the bytes that spell them (TIFF 6.0, section 8, "BitsPerSample" and
//! "FillOrder" 1; DNG 1.6, "BitsPerSample").
#![tactic(auto)]

ghost use Rattle.std.specs.Prelude.{ℕ, List, ◌≡◌, ◌+◌, ◌*◌, ◌≤◌, ◌<◌, ◌↔◌, length, OnOk, OnErr, IsErr, IfErr};
ghost use Rattle.tiff_dirs.specs.declared.Order.{Order as FileOrder};
ghost use Rattle.binary_digits.specs.Digits.{bits_of};
ghost use Rattle.strip_unpack.specs.Samples.{HasOneSpelling, Spells, needed_bytes, row_bytes, sample_bits, unpacked};

use byteorder::{BigEndian, ByteOrder, LittleEndian};
use std::error::Error;
use std::fmt;
use tiff_dirs::Order;

mod groups;
mod packed;
#[cfg(test)]
mod tests;

/// There are fewer bytes than the samples take.
#[derive(Clone, Copy, Debug, PartialEq, Eq)]
pub struct Short {
    /// How many bytes the samples take.
    pub needed: u64,
    /// How many bytes there were.
    pub had: u64,
}

impl fmt::Display for Short {
    fn fmt<W: fmt::Write>(&self, f: &mut fmt::Formatter<W>) -> fmt::Result {
        let needed = self.needed;
        let had = self.had;
        write!(f, "the samples take {needed} bytes, and there are {had}")
    }
}

impl Error for Short {}

/// Writes the samples that the bytes spell: `rows` rows of `cols` samples, each sample of `depth` bits, 8 to 16, and
/// each row from a byte on. At depth 16 a sample is two bytes in the order of the file; at a lesser depth its bits
/// stand most significant first in either order, and a row ends in any bits up to a whole byte. `out` is `rows * cols`
/// long.
///
/// Bytes past those that the samples take are not looked at.
///
/// # Errors
///
/// `Short` where there are fewer bytes than the samples take. `out` is then as it was.
pub fn unpack(
    bytes: &[u8],
    depth: u32,
    order: Order,
    rows: u32,
    cols: u32,
    out: &mut [u16],
) -> Result<(), Short>
    requires low { 8 ≤ depth }
    requires high { depth ≤ 16 }
    requires room { length out.old ≡ rows * cols }
    ensures ok { OnOk result (out.new ≡ unpacked order depth rows cols bytes.now) }
    ensures short { IsErr result ↔ (length bytes.now < needed_bytes depth rows cols) }
    ensures lengths { IfErr result (λ e. (e.needed ≡ needed_bytes depth rows cols) × (e.had ≡ length bytes.now)) }
    ensures unchanged { OnErr result (out.new ≡ out.old) }
{
    let cols = cols as usize;
    let row_length = (cols * depth as usize).div_ceil(8);
    let needed = rows as usize * row_length;
    if bytes.len() < needed {
        return Err(Short {
            needed: needed as u64,
            had: bytes.len() as u64,
        });
    }
    for row in 0..rows as usize {
        let start = row * row_length;
        let first = row * cols;
        let row_bytes = &bytes[start..start + row_length];
        unpack_row(row_bytes, depth, order, &mut out[first..first + cols]);
    }
    Ok(())
}

/// The samples that [`unpack`] writes are the only ones that the bytes spell, where the bytes are enough for the rows.
pub fn one_spelling()
    ensures { (order : FileOrder) (depth rows cols : ℕ) (bytes : List ℕ) → depth ≤ 16
        → needed_bytes depth rows cols ≤ length bytes
        → HasOneSpelling order depth rows cols (unpacked order depth rows cols bytes) bytes }
{}

/// Unpacks one row.
fn unpack_row(bytes: &[u8], depth: u32, order: Order, out: &mut [u16])
    requires low { 8 ≤ depth }
    requires high { depth ≤ 16 }
    requires row { length bytes.now ≡ row_bytes depth (length out.old) }
    ensures { Spells (sample_bits order depth) depth out.new bytes.now }
{
    match depth {
        8 => unpack_bytes(bytes, out),
        10 => groups::unpack_row_10(bytes, out),
        12 => groups::unpack_row_12(bytes, out),
        14 => groups::unpack_row_14(bytes, out),
        16 => unpack_byte_pairs(bytes, order, out),
        _ => packed::unpack_row(bytes, depth, out),
    }
}

/// Unpacks a row of samples of 8 bits.
fn unpack_bytes(bytes: &[u8], out: &mut [u16])
    requires { length bytes.now ≡ length out.old }
    ensures { Spells (bits_of 8) 8 out.new bytes.now }
{
    for (i, byte) in bytes.iter().enumerate() {
        out[i] = u16::from(*byte);
    }
}

/// Unpacks a row of samples of 16 bits.
fn unpack_byte_pairs(bytes: &[u8], order: Order, out: &mut [u16])
    requires { length bytes.now ≡ 2 * length out.old }
    ensures { Spells (sample_bits order 16) 16 out.new bytes.now }
{
    match order {
        Order::Little => LittleEndian::read_u16_into(bytes, out),
        Order::Big => BigEndian::read_u16_into(bytes, out),
    }
}
