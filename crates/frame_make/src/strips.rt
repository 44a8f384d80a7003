//! The strips of made frames.

ghost use Rattle.std.specs.Prelude.{ℕ, ◌≡◌, ◌≤◌, ◌<◌, ◌*◌, ◌/◌, ◌%◌, ◌^◌, ◌+◌, [], ◌∷◌, ◌++◌, IfOk, OnOk, take, length};
ghost use Rattle.std.specs.Prelude.{slice_index};
ghost use Rattle.std.specs.List.{flat_map};
ghost use Rattle.byteorder.specs.Endian.{little_bytes};
ghost use Rattle.frame_make.specs.Made.{made_strip, made_samples, packed_row, stream_of};

use crate::Make;
use crate::samples::{made_row, made_samples};
use ljpeg_predict::encode;
use std::alloc::{AllocError, Global};

/// The strip of a made frame.
#[tactic(auto, unfolding(crate::specs::Made::made_strip))]
pub fn made_strip(
    alloc: Global,
    number: u32,
    w: u32,
    h: u32,
    kind: Make,
) -> Result<Vec<u8>, AllocError>
    requires some_cols { 1 ≤ w }
    requires cols { w ≤ 8192 }
    requires some_rows { 1 ≤ h }
    requires rows { h ≤ 8192 }
    ensures { IfOk result (λ strip. strip.items ≡ made_strip number w h kind) }
{
    match kind {
        Make::Plain16 => plain_strip(alloc, &made_samples(alloc, number, w, h)?),
        Make::Packed12 => packed_strip(alloc, number, w, h),
        Make::Lossless => stream_strip(alloc, number, w, h),
    }
}

/// Samples of two bytes each.
fn plain_strip(alloc: Global, samples: &[u16]) -> Result<Vec<u8>, AllocError>
    ensures { IfOk result (λ strip. strip.items ≡ flat_map (little_bytes 2) samples.now) }
{
    let mut strip = Vec::new(alloc);
    for sample in samples {
        strip.extend_from_slice(&sample.to_le_bytes())?;
    }
    Ok(strip)
}

/// Samples of 12 bits, packed row by row.
fn packed_strip(alloc: Global, number: u32, w: u32, h: u32) -> Result<Vec<u8>, AllocError>
    requires cols { w ≤ 8192 }
    requires rows { h ≤ 8192 }
    ensures { IfOk result (λ strip. strip.items ≡ made_strip number w h Make.Packed12) }
{
    let mut strip = Vec::new(alloc);
    for row in 0..h {
        append_packed(&made_row(alloc, number, w, row)?, &mut strip)?;
    }
    Ok(strip)
}

/// Appends a row of samples of 12 bits: two samples in three bytes, and a last one that is alone in two.
fn append_packed(samples: &[u16], out: &mut Vec<u8>) -> Result<(), AllocError>
    requires { (k : ℕ) → k < length samples.now → slice_index samples.now k < 4096 }
    ensures { OnOk result (out.new.items ≡ out.old.items ++ packed_row samples.now) }
{
    let pairs = samples.len() / 2;
    for k in 0..pairs {
        out.extend_from_slice(&pair_bytes(samples[2 * k], samples[2 * k + 1]))?;
    }
    if 2 * pairs < samples.len() {
        out.extend_from_slice(&last_bytes(samples[2 * pairs]))?;
    }
    Ok(())
}

/// The bytes of two samples of 12 bits.
fn pair_bytes(one: u16, next: u16) -> [u8; 3]
    requires one { one < 4096 }
    requires next { next < 4096 }
    ensures { result ≡ (one / 16) ∷ (one % 16 * 16 + next / 256) ∷ (next % 256) ∷ [] }
{
    [
        (one / 16) as u8,
        (one % 16 * 16 + next / 256) as u8,
        (next % 256) as u8,
    ]
}

/// The bytes of one sample of 12 bits with four zero bits behind it.
fn last_bytes(sample: u16) -> [u8; 2]
    requires { sample < 4096 }
    ensures { result ≡ (sample / 16) ∷ (sample % 16 * 16) ∷ [] }
{
    [(sample / 16) as u8, (sample % 16 * 16) as u8]
}

/// One stream of samples of 12 bits.
fn stream_strip(alloc: Global, number: u32, w: u32, h: u32) -> Result<Vec<u8>, AllocError>
    requires some_cols { 1 ≤ w }
    requires cols { w ≤ 8192 }
    requires some_rows { 1 ≤ h }
    requires rows { h ≤ 8192 }
    ensures { IfOk result (λ strip. strip.items ≡ stream_of w h (made_samples number w h)) }
{
    let mut strip = Vec::new(alloc);
    append_stream(&made_samples(alloc, number, w, h)?, w, h, &mut strip)?;
    Ok(strip)
}

/// Appends the stream of samples of 12 bits, h lines of w.
fn append_stream(samples: &[u16], w: u32, h: u32, out: &mut Vec<u8>) -> Result<(), AllocError>
    requires some_cols { 1 ≤ w }
    requires cols { w ≤ 8192 }
    requires some_rows { 1 ≤ h }
    requires rows { h ≤ 8192 }
    requires count { length samples.now ≡ h * w }
    ensures { OnOk result (out.new.items ≡ out.old.items ++ stream_of w h samples.now) }
{
    match encode(samples, w, 12, 1, out) {
        Ok(()) => Ok(()),
        Err(_) => Err(AllocError),
    }
}
