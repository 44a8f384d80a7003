//! Levels above black as parts of 65535.

ghost use Rattle.std.specs.Prelude.{◌≡◌, ◌+◌, ◌*◌, ◌^◌, ◌<◌, ◌≤◌, pos, IsTrue};
ghost use Rattle.plane_view.specs.Samples.{held_within};
ghost use Rattle.linearise.specs.Linear.{rescaled};
ghost use Rattle.linearise.specs.inner.Scales.{IsFactor, IsScale, part_of};

/// The white level above the greatest black in 256ths, and what stands for dividing by it.
///
/// A level x above black, from 0 to the span, becomes the quotient of 131070 x + span by twice the span. That is
/// x times a factor of 64 bits, plus a half, shifted right. The factor is the next whole number that is greater than
/// 65535 * 2^(shift + 32) over the span, and 2^(shift + 31) is above the square of the span, so that the quotients are
/// the same. The span has at most 29 bits, so each product of a level and a half of the factor has at most 61, and with
/// the half added at most 62.
#[derive(Clone, Copy, Debug)]
pub(crate) struct Scale {
    pub(crate) span: u32,
    high: u32,
    low: u32,
    half: u64,
    pub(crate) shift: u32,
    ghost exact: { IsScale span high low half shift },
}

impl Scale {
    /// The scale of a span.
    pub(crate) fn new(span: u32) -> Scale
        requires some { 1 ≤ span }
        requires most { span < 2 ^ 29 }
        ensures { result.span ≡ span }
    {
        if span <= 1 << 23 {
            Scale::by(span, short_factor(u64::from(span)), 16)
        } else {
            Scale::by(span, long_factor(u64::from(span)), 27)
        }
    }

    fn by(span: u32, factor: u64, shift: u32) -> Scale
        requires some { 1 ≤ span }
        requires most { span < 2 ^ 29 }
        requires shift { shift ≤ 27 }
        requires wide { span * span < 2 ^ (shift + 31) }
        requires factor { IsFactor span (2 ^ (shift + 31)) factor }
        ensures { result.span ≡ span }
    {
        Scale {
            span,
            high: (factor >> 32) as u32,
            low: (factor % (1 << 32)) as u32,
            half: 1 << (shift + 31),
            shift,
        }
    }

    /// Whether one product of 64 bits will do. That is so for a white level of up to 2^15.
    pub(crate) fn is_short(self) -> bool
        ensures { IsTrue result → self.shift ≡ 16 }
    {
        self.shift == 16
    }

    /// A level above black, in 256ths, as a part of 65535: by one product, or by two.
    #[inline(always)]
    #[tactic(auto, using(crate::proofs::Rescaling::rescaled_is))]
    pub(crate) fn value(self, short: bool, above: i32) -> u16
        requires { IsTrue short → self.shift ≡ 16 }
        ensures { result ≡ rescaled (pos self.span) above }
    {
        self.part_by(short, held(above, self.span))
    }

    #[inline(always)]
    fn part_by(self, short: bool, held: u32) -> u16
        requires short { IsTrue short → self.shift ≡ 16 }
        requires held { held ≤ self.span }
        ensures { result ≡ part_of self.span held }
    {
        if short {
            self.short_part(held)
        } else {
            self.part(held)
        }
    }

    /// A level from 0 to the span as a part of 65535, by one product: it is at most 65535 * 2^48 and a span.
    #[inline(always)]
    fn short_part(self, held: u32) -> u16
        requires short { self.shift ≡ 16 }
        requires held { held ≤ self.span }
        ensures { result ≡ part_of self.span held }
    {
        let factor = u64::from(self.high) * (1 << 32) + u64::from(self.low);
        ((u64::from(held) * factor + (1 << 47)) >> 48) as u16
    }

    /// A level from 0 to the span as a part of 65535.
    #[inline(always)]
    fn part(self, held: u32) -> u16
        requires { held ≤ self.span }
        ensures { result ≡ part_of self.span held }
    {
        let held = u64::from(held);
        let rest = (held * u64::from(self.low) + self.half) >> 32;
        ((held * u64::from(self.high) + rest) >> self.shift) as u16
    }
}

/// A level above black, held within 0 and the span.
#[inline(always)]
fn held(above: i32, span: u32) -> u32
    requires { span < 2 ^ 29 }
    ensures held { result ≡ held_within span above }
    ensures within { result ≤ span }
{
    above.max(0).min(span as i32) as u32
}

/// 65535 * 2^48.
const MOST: u64 = 65535 << 48;

/// The next whole number that is greater than 65535 * 2^48 over a span.
fn short_factor(span: u64) -> u64
    requires { 1 ≤ span }
    ensures { IsFactor span (2 ^ 47) result }
{
    MOST / span + 1
}

/// The next whole number that is greater than 65535 * 2^59 over a span.
fn long_factor(span: u64) -> u64
    requires some { 2 ^ 23 < span }
    requires most { span < 2 ^ 29 }
    ensures { IsFactor span (2 ^ 58) result }
{
    MOST / span * 2048 + MOST % span * 2048 / span + 1
}
