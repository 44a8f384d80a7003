//! Samples of 10, 12 and 14 bits, in groups that are whole bytes.

ghost use Rattle.std.specs.Prelude.{◌≡◌, ◌+◌, ◌*◌, ◌/◌, ◌%◌, ◌^◌, ◌<◌, ◌≤◌, length, All};
ghost use Rattle.std.specs.List.{flat_map};
ghost use Rattle.binary_digits.specs.Digits.{bits_of, byte_bits};
ghost use Rattle.strip_unpack.specs.Samples.{Spells, row_bytes};

use crate::packed::unpack_row;

/// A register with one more byte below it.
#[inline(always)]
fn with_byte(register: u64, byte: u8) -> u64
    requires { register < 2 ^ 48 }
    ensures { result ≡ register * 256 + byte }
{
    register << 8 | u64::from(byte)
}

/// So many bits of a register, those below them left out.
#[inline(always)]
fn field(register: u64, below: u32, depth: u32) -> u16
    requires below { below < 64 }
    requires depth { depth ≤ 16 }
    ensures { result ≡ register / 2 ^ below % 2 ^ depth }
{
    ((register >> below) & ((1 << depth) - 1)) as u16
}

/// Unpacks groups of four samples of 10 bits, in five bytes each.
fn unpack_groups_10(groups: usize, bytes: &[u8], out: &mut [u16])
    requires bytes { length bytes.now ≡ groups * 5 }
    requires out { length out.old ≡ groups * 4 }
    ensures fits { All (λ x. x < 2 ^ 10) out.new }
    ensures spelled { byte_bits bytes.now ≡ flat_map (bits_of 10) out.new }
{
    for group in 0..groups {
        let at = group * 5;
        let register = with_byte(u64::from(bytes[at]), bytes[at + 1]);
        let register = with_byte(register, bytes[at + 2]);
        let register = with_byte(register, bytes[at + 3]);
        let register = with_byte(register, bytes[at + 4]);
        let first = group * 4;
        out[first] = field(register, 30, 10);
        out[first + 1] = field(register, 20, 10);
        out[first + 2] = field(register, 10, 10);
        out[first + 3] = field(register, 0, 10);
    }
}

/// Unpacks a row of samples of 10 bits.
pub(crate) fn unpack_row_10(bytes: &[u8], out: &mut [u16])
    requires { length bytes.now ≡ row_bytes 10 (length out.old) }
    ensures { Spells (bits_of 10) 10 out.new bytes.now }
{
    let groups = out.len() / 4;
    unpack_groups_10(groups, &bytes[..groups * 5], &mut out[..groups * 4]);
    unpack_row(&bytes[groups * 5..], 10, &mut out[groups * 4..]);
}

/// Unpacks groups of two samples of 12 bits, in three bytes each.
fn unpack_groups_12(groups: usize, bytes: &[u8], out: &mut [u16])
    requires bytes { length bytes.now ≡ groups * 3 }
    requires out { length out.old ≡ groups * 2 }
    ensures fits { All (λ x. x < 2 ^ 12) out.new }
    ensures spelled { byte_bits bytes.now ≡ flat_map (bits_of 12) out.new }
{
    for group in 0..groups {
        let at = group * 3;
        let register = with_byte(
            with_byte(u64::from(bytes[at]), bytes[at + 1]),
            bytes[at + 2],
        );
        let first = group * 2;
        out[first] = field(register, 12, 12);
        out[first + 1] = field(register, 0, 12);
    }
}

/// Unpacks a row of samples of 12 bits.
pub(crate) fn unpack_row_12(bytes: &[u8], out: &mut [u16])
    requires { length bytes.now ≡ row_bytes 12 (length out.old) }
    ensures { Spells (bits_of 12) 12 out.new bytes.now }
{
    let groups = out.len() / 2;
    unpack_groups_12(groups, &bytes[..groups * 3], &mut out[..groups * 2]);
    unpack_row(&bytes[groups * 3..], 12, &mut out[groups * 2..]);
}

/// Unpacks groups of four samples of 14 bits, in seven bytes each.
fn unpack_groups_14(groups: usize, bytes: &[u8], out: &mut [u16])
    requires bytes { length bytes.now ≡ groups * 7 }
    requires out { length out.old ≡ groups * 4 }
    ensures fits { All (λ x. x < 2 ^ 14) out.new }
    ensures spelled { byte_bits bytes.now ≡ flat_map (bits_of 14) out.new }
{
    for group in 0..groups {
        let at = group * 7;
        let register = with_byte(u64::from(bytes[at]), bytes[at + 1]);
        let register = with_byte(register, bytes[at + 2]);
        let register = with_byte(register, bytes[at + 3]);
        let register = with_byte(register, bytes[at + 4]);
        let register = with_byte(register, bytes[at + 5]);
        let register = with_byte(register, bytes[at + 6]);
        let first = group * 4;
        out[first] = field(register, 42, 14);
        out[first + 1] = field(register, 28, 14);
        out[first + 2] = field(register, 14, 14);
        out[first + 3] = field(register, 0, 14);
    }
}

/// Unpacks a row of samples of 14 bits.
pub(crate) fn unpack_row_14(bytes: &[u8], out: &mut [u16])
    requires { length bytes.now ≡ row_bytes 14 (length out.old) }
    ensures { Spells (bits_of 14) 14 out.new bytes.now }
{
    let groups = out.len() / 4;
    unpack_groups_14(groups, &bytes[..groups * 7], &mut out[..groups * 4]);
    unpack_row(&bytes[groups * 7..], 14, &mut out[groups * 4..]);
}
