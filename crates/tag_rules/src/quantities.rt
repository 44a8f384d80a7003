//! Fractions as whole numbers of parts.

ghost use Rattle.std.specs.Prelude.{◌≡◌, ◌^◌, ◌≤◌, ◌<ℤ◌, pos, map, length, None, Some, FitsSigned, IsTrue, IfSome};
ghost use Rattle.std.specs.Prelude.{if◌then◌else◌};
ghost use Rattle.std.specs.Bool.{OnTrue};
ghost use Rattle.std.specs.Int.{w32};
ghost use Rattle.std.specs.List.{list_all};
ghost use Rattle.tiff_dirs.specs.Numbers.{IsOf32Bits};
ghost use Rattle.tag_rules.specs.Quantities.{AreWithin, IsWithin, has, in_parts, is_on};

use crate::values::Fractions;

/// Into how many parts a one is cut, and the most parts of a number, on both sides of 0.
#[derive(Clone, Copy, Debug, PartialEq, Eq)]
pub struct Scale {
    pub parts: u32,
    pub most: u32,
}

/// Levels: 256ths, within 2^24 of 0.
pub const LEVELS: Scale = Scale {
    parts: 256,
    most: 1 << 24,
};

/// Colours: 65536ths, within 2^20 of 0.
pub const COLOURS: Scale = Scale {
    parts: 65536,
    most: 1 << 20,
};

impl Scale {
    /// Fractions as numbers of parts. Whether each has a positive denominator and is not beyond the limit.
    pub fn read(self, fractions: &Fractions<'_>, out: &mut [i32]) -> bool
        requires parts { self.parts ≤ 65536 }
        requires most { self.most ≤ 2 ^ 30 }
        requires room { length out.old ≡ length fractions.now }
        ensures all { result ≡ list_all (is_on self) fractions.now }
        ensures parts { OnTrue result (out.new ≡ map (in_parts self.parts) fractions.now) }
        ensures within { OnTrue result (AreWithin self.most out.new) }
    {
        for i in 0..fractions.len() {
            match self.parts_of(fractions.at(i)) {
                Some(parts) => out[i as usize] = parts,
                None => return false,
            }
        }
        true
    }

    /// A fraction as a number of parts, if it is on the scale.
    #[tactic(auto, unfolding(crate::specs::Quantities::is_on))]
    fn parts_of(self, fraction: (i64, i64)) -> Option<i32>
        requires parts { self.parts ≤ 65536 }
        requires most { self.most ≤ 2 ^ 30 }
        requires numerator { IsOf32Bits fraction.0 }
        requires denominator { IsOf32Bits fraction.1 }
        ensures value { result ≡ (if is_on self fraction then Some (in_parts self.parts fraction) else None) }
        ensures within { IfSome result (IsWithin self.most) }
    {
        let (numerator, denominator) = fraction;
        if denominator <= 0 {
            return None;
        }
        let parts = in_parts(self.parts, numerator, denominator);
        if self.has(parts) {
            Some(parts as i32)
        } else {
            None
        }
    }

    /// Whether a number of parts is not beyond the limit.
    #[tactic(auto, unfolding(crate::specs::Quantities::has))]
    fn has(self, parts: i64) -> bool
        requires { self.most ≤ 2 ^ 30 }
        ensures value { result ≡ has self parts }
        ensures within { IsTrue result → IsWithin self.most parts }
        ensures fits { IsTrue result → FitsSigned w32 parts }
    {
        let most = i64::from(self.most);
        -most <= parts && parts <= most
    }
}

/// A numerator over a positive denominator as a number of parts, rounded.
#[tactic(auto, unfolding(crate::specs::Quantities::in_parts))]
fn in_parts(parts: u32, numerator: i64, denominator: i64) -> i64
    requires parts { parts ≤ 65536 }
    requires numerator { IsOf32Bits numerator }
    requires denominator { IsOf32Bits denominator }
    requires positive { pos 0 <ℤ denominator }
    ensures { result ≡ in_parts parts (numerator, denominator) }
{
    let twice = i64::from(2 * parts) * numerator;
    (twice + denominator).div_euclid(2 * denominator)
}
