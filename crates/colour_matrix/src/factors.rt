//! Gains times exposure, and a row of samples times them.

ghost use Rattle.std.specs.Prelude.{◌≡◌, ℕ, ◌+◌, ◌*◌, ◌%◌, ◌<◌, ◌≤◌, List, length, slice_index, min, All};
ghost use Rattle.colour_matrix.specs.Balances.{Balancing, IsGain, balanced_value};
ghost use Rattle.colour_matrix.specs.inner.BalanceRows.{AreBalanced, HasShort, HasFactors};
ghost use Rattle.colour_matrix.specs.inner.Factors.{AreFactors};

use crate::digit_products::{self, Digits, GROUP};

/// The gains for each sample of a group, where they are below 2^16 and the exposure is 1.
#[derive(Drop)]
pub(crate) struct Gains {
    gain: [u16; GROUP],
}

/// The factors for each sample of a group.
#[derive(Drop)]
pub(crate) enum Factors {
    /// At an exposure of 1.
    Gains(Gains),
    /// At any exposure.
    Digits(Digits),
}

impl Gains {
    fn new(gains: [u32; 3]) -> Gains
        ensures { (i : ℕ) → i < 384 → slice_index result.gain i ≡ min (slice_index gains (i % 3)) 65535 }
    {
        let mut gain = [0; GROUP];
        for i in 0..GROUP {
            gain[i] = gains[i % 3].min(65535) as u16;
        }
        Gains { gain }
    }
}

impl Factors {
    /// The factors of gains in 4096ths and an exposure in 1024ths.
    pub(crate) fn new(gains: [u32; 3], exposure: u32) -> Factors
        requires gains { All IsGain gains }
        requires exposure { exposure ≤ 65536 }
        ensures { AreFactors (record { gains = gains; exposure = exposure }) result }
    {
        let [red, green, blue] = gains;
        if exposure == 1024 && red < 65536 && green < 65536 && blue < 65536 {
            Factors::Gains(Gains::new(gains))
        } else {
            Factors::Digits(Digits::new(gains, exposure))
        }
    }
}

/// Sixteen times a number, held within 65535.
#[inline(always)]
fn sixteenfold(number: u16) -> u16
    ensures { result ≡ min (number * 16) 65535 }
{
    let twice = number.saturating_add(number);
    let fourfold = twice.saturating_add(twice);
    let eightfold = fourfold.saturating_add(fourfold);
    eightfold.saturating_add(eightfold)
}

/// A sample times a gain in 4096ths, rounded and held within 65535. It is done by halves of 16 bits, which lanes have.
#[inline(always)]
fn balanced(sample: u16, gain: u16) -> u16
    ensures { result ≡ balanced_value gain 1024 sample }
{
    let high = (u32::from(sample) * u32::from(gain) / (1 << 16)) as u16;
    let low = sample.wrapping_mul(gain);
    sixteenfold(high).saturating_add((low / (1 << 11) + 1) / 2)
}

/// Balances at most a group of samples at an exposure of 1.
fn balance_by_gains(from: &[u16], gains: &Gains, out: &mut [u16])
    requires same { length from.now ≡ length out.old }
    requires few { length out.old ≤ 384 }
    ensures { (s : Balancing) → HasShort s gains.now.gain → AreBalanced s from.now out.new }
{
    for i in 0..out.len() {
        out[i] = balanced(from[i], gains.gain[i]);
    }
}

/// Balances at most a group of samples.
fn balance_group(from: &[u16], factors: &Factors, out: &mut [u16])
    requires same { length from.now ≡ length out.old }
    requires few { length out.old ≤ 384 }
    ensures { (s : Balancing) → AreFactors s factors.now → AreBalanced s from.now out.new }
{
    match factors {
        Factors::Gains(gains) => balance_by_gains(from, gains, out),
        Factors::Digits(digits) => digit_products::balance_group(from, digits, out),
    }
}

/// Balances a row of samples, the three planes of a pixel side by side.
pub(crate) fn balance_samples(from: &[u16], factors: &Factors, out: &mut [u16])
    requires { length from.now ≡ length out.old }
    ensures { (s : Balancing) → AreFactors s factors.now → AreBalanced s from.now out.new }
{
    let groups = out.len() / GROUP;
    for group in 0..groups {
        let at = group * GROUP;
        balance_group(&from[at..at + GROUP], factors, &mut out[at..at + GROUP]);
    }
    let at = groups * GROUP;
    balance_group(&from[at..], factors, &mut out[at..]);
}
