//! Bits that are put together to stuffed bytes (ITU-T T.81, F.1.2.3).

ghost use Rattle.std.specs.Prelude.{ℕ, List, ◌≡◌, ◌+◌, ◌-◌, ◌*◌, ◌^◌, ◌<◌, ◌≤◌, ◌++◌, [], ◌∷◌, All, IfOk, OnOk};
ghost use Rattle.std.specs.Io.{StartsWith};
ghost use Rattle.binary_digits.specs.Digits.{bits_of, byte_bits};
ghost use Rattle.ljpeg_predict.specs.Encoding.{stuffed};
ghost use Rattle.ljpeg_predict.specs.inner.Writing.{Adds, AddsLast};

use std::alloc::AllocError;

/// Bits that aren't written yet: the lowest `held` bits of `word`.
#[derive(Clone, Copy)]
pub(crate) struct Pending {
    pub word: u32,
    pub held: u32,
}

impl Pending {
    /// No bits.
    pub(crate) const NONE: Pending = Pending { word: 0, held: 0 };

    /// Adds the lowest `size` bits of a number, and writes the bytes that are whole. The lower bits stay pending.
    pub(crate) fn push(
        self,
        number: u32,
        size: u32,
        out: &mut Vec<u8>,
    ) -> Result<Pending, AllocError>
        requires held { self.held < 8 }
        requires size { size ≤ 24 }
        requires number { number < 2 ^ size }
        ensures few { IfOk result (λ left. left.held < 8) }
        ensures bits { IfOk result (Adds out.old.items out.new.items
            (bits_of self.held self.word ++ bits_of size number)) }
        ensures kept { StartsWith out.new.items out.old.items }
    {
        let word = self.word % (1 << 8) * (1 << size) + number;
        let mut held = self.held + size;
        while held >= 8 {
            held -= 8;
            push_byte(((word >> held) % (1 << 8)) as u8, out)?;
        }
        Ok(Pending { word, held })
    }

    /// Fills the last byte with ones, and writes it.
    pub(crate) fn finish(self, out: &mut Vec<u8>) -> Result<(), AllocError>
        requires { self.held < 8 }
        ensures ok { OnOk result (AddsLast out.old.items out.new.items (bits_of self.held self.word)) }
        ensures kept { StartsWith out.new.items out.old.items }
    {
        if self.held > 0 {
            let ones = 8 - self.held;
            self.push((1 << ones) - 1, ones, out)?;
        }
        Ok(())
    }
}

/// Writes a byte of data, and a zero behind an FF.
fn push_byte(byte: u8, out: &mut Vec<u8>) -> Result<(), AllocError>
    ensures ok { OnOk result (out.new.items ≡ out.old.items ++ stuffed (byte ∷ [])) }
    ensures kept { StartsWith out.new.items out.old.items }
{
    out.push(byte)?;
    if byte == 0xff {
        out.push(0)?;
    }
    Ok(())
}
