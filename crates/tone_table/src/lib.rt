//! Tone curves, and their tables as a stage.
#![tactic(auto)]

ghost use Rattle.std.specs.Prelude.{◌≡◌, ◌≤◌, IsTrue, length};
ghost use Rattle.tone_table.specs.Knots.{are_knots, knots_of, rise_to};

mod fills;
mod tone;

use std::marker::Model;
pub use tone::Tone;

/// The most knots that a curve has.
pub const MAX_KNOTS: usize = 16;

/// A tone curve, from samples of 0 to 65535 to such samples.
#[derive(Clone, Copy, Debug, PartialEq, Eq)]
pub enum Curve {
    /// Each sample stays.
    Linear,
    /// The square root, scaled so that 65535 stays, and rounded down.
    Root,
    /// Straight lines between knots.
    Knots(Knots),
}

/// The knots of a curve: 2 to 16 points, whose first coordinates begin at 0, rise strictly and end
/// at 65535. Contracts see the list of these points.
#[derive(Clone, Copy, Debug, PartialEq, Eq)]
pub struct Knots {
    points: [(u16, u16); MAX_KNOTS],
    used: usize,
}

impl Model for Knots {
    ghost use Rattle.std.specs.Prelude.{◌≡◌, ℕ, ◌-◌, ◌++◌, IsTrue, List, length, replicate, take};
    ghost use Rattle.tone_table.specs.Knots.{are_knots, padded};

    ghost Value = { List (ℕ × ℕ) };

    ghost view = { λ knots. take knots.used knots.points };

    ghost invariant = { λ knots. (IsTrue (are_knots (take knots.used knots.points)))
        × (knots.points ≡ padded (take knots.used knots.points))
        × (knots.used ≡ length (take knots.used knots.points)) };

    ghost inverse = { λ points. record { points = padded points; used = length points } };
}

impl Knots {
    /// The knots with these points, or `None` where they aren't knots.
    pub fn new(points: &[(u16, u16)]) -> Option<Self>
        ensures { result ≡ knots_of points.now }
    {
        if !are_knots(points) {
            return None;
        }
        let mut all = [(0, 0); MAX_KNOTS];
        all[..points.len()].copy_from_slice(points);
        Some(Knots {
            points: all,
            used: points.len(),
        })
    }

    /// The points.
    pub fn points(&self) -> &[(u16, u16)]
        ensures points { result.now ≡ self.now }
        ensures knots { IsTrue (are_knots self.now) }
    {
        &self.points[..self.used]
    }
}

/// Whether the points are knots.
fn are_knots(points: &[(u16, u16)]) -> bool
    ensures { result ≡ are_knots points.now }
{
    match points {
        [first, rest @ ..] => rest.len() < MAX_KNOTS && first.0 == 0 && rise_to_the_end(rest),
        [] => false,
    }
}

/// Whether the first coordinates rise strictly, from above 0 on, and end at 65535.
fn rise_to_the_end(points: &[(u16, u16)]) -> bool
    ensures { result ≡ rise_to 65535 0 points.now }
{
    let mut last = 0;
    for point in points {
        if point.0 <= last {
            return false;
        }
        last = point.0;
    }
    last == u16::MAX
}
