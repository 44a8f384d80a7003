//! Gains times exposure in digits, and a group of samples times them.

ghost use Rattle.std.specs.Prelude.{◌≡◌, ℕ, ◌+◌, ◌*◌, ◌/◌, ◌<◌, ◌≤◌, ◌^◌, List, length, slice_index, All};
ghost use Rattle.colour_matrix.specs.Balances.{Balancing, IsGain, balanced_value};
ghost use Rattle.colour_matrix.specs.inner.BalanceRows.{AreDigits, AreSmall, HasFactors, AreBalanced};

/// How many samples are balanced together: some pixels of three planes.
pub(crate) const GROUP: usize = 384;

/// Gain times exposure for each sample of a group, in digits whose products with a sample have 32 bits.
#[derive(Drop)]
pub(crate) struct Digits {
    /// What is above 30 bits, scaled by 2^8.
    top: [u16; GROUP],
    /// The 15 bits below.
    high: [u16; GROUP],
    /// The 15 lowest bits.
    low: [u16; GROUP],
    ghost small: { AreSmall top high low },
}

impl Digits {
    /// The factors of gains in 4096ths and an exposure in 1024ths.
    pub(crate) fn new(gains: [u32; 3], exposure: u32) -> Digits
        requires gains { All IsGain gains }
        requires exposure { exposure ≤ 65536 }
        ensures { HasFactors (record { gains = gains; exposure = exposure }) result.top result.high result.low 384 }
    {
        let mut top = [0; GROUP];
        let mut high = [0; GROUP];
        let mut low = [0; GROUP];
        for i in 0..GROUP {
            let factor = u64::from(gains[i % 3]) * u64::from(exposure);
            top[i] = (factor / (1 << 30) * 256) as u16;
            high[i] = (factor / (1 << 15) % (1 << 15)) as u16;
            low[i] = (factor % (1 << 15)) as u16;
        }
        Digits { top, high, low }
    }
}

/// A sample times the factor with these digits, in 2^22nds, rounded and held within 65535.
#[inline(always)]
fn balanced(sample: u16, top: u16, high: u16, low: u16) -> u16
    requires top { top ≤ 16384 }
    requires high { high < 2 ^ 15 }
    requires low { low < 2 ^ 15 }
    ensures { (gain exposure : ℕ) → AreDigits (gain * exposure) top high low
        → result ≡ balanced_value gain exposure sample }
{
    let sample = u32::from(sample);
    let lowest = (sample * u32::from(low) + (1 << 21)) / (1 << 15);
    let below = (sample * u32::from(high) + lowest) / (1 << 7);
    (sample * u32::from(top) + below).min(65535) as u16
}

/// Balances at most a group of samples.
pub(crate) fn balance_group(from: &[u16], digits: &Digits, out: &mut [u16])
    requires same { length from.now ≡ length out.old }
    requires few { length out.old ≤ 384 }
    ensures { (s : Balancing) → HasFactors s digits.now.top digits.now.high digits.now.low 384
        → AreBalanced s from.now out.new }
{
    for i in 0..out.len() {
        out[i] = balanced(from[i], digits.top[i], digits.high[i], digits.low[i]);
    }
}
