//! Samples whose binary digits are packed, one sample after the other.

ghost use Rattle.std.specs.Prelude.{◌≡◌, ◌≤◌, length};
ghost use Rattle.binary_digits.specs.Digits.{bits_of};
ghost use Rattle.strip_unpack.specs.Samples.{Spells, row_bytes};

/// Unpacks a row of samples of a depth from 8 to 16 bits.
pub(crate) fn unpack_row(bytes: &[u8], depth: u32, out: &mut [u16])
    requires low { 8 ≤ depth }
    requires high { depth ≤ 16 }
    requires row { length bytes.now ≡ row_bytes depth (length out.old) }
    ensures { Spells (bits_of depth) depth out.new bytes.now }
{
    // The digits that were read and that no sample has yet, and how many they are.
    let mut pending = 0u32;
    let mut count = 0u32;
    let mut i = 0usize;
    for byte in bytes {
        pending = pending << 8 | u32::from(*byte);
        count += 8;
        if depth <= count {
            count -= depth;
            out[i] = (pending >> count) as u16;
            pending &= (1 << count) - 1;
            i += 1;
        }
    }
}
