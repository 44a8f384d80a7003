//! Points of a plane in the order of its pixels.

ghost use Rattle.std.specs.Prelude.{◌≡◌, ℕ, ◌+◌, ◌*◌, ◌^◌, ◌<◌, ◌≤◌, IfOk, IfSome};
ghost use Rattle.std.specs.List.Sorted.{IsNonDecreasing};
ghost use Rattle.opcode_stages.specs.Mends.{is_point};
ghost use Rattle.opcode_stages.specs.inner.MendRows.{IsNextBad};
ghost use Rattle.opcode_stages.specs.inner.Places.{place_of, IsFirstPlace};

use lists::Items;
use std::alloc::{AllocError, Global};

/// Points of a plane, row by row: each is looked up by halving.
#[derive(Debug, Drop)]
pub(crate) struct Places {
    places: Items<u64>,
    ghost rising: { IsNonDecreasing places },
}

/// The place of a pixel among rows of 2^32 pixels.
fn place(r: u32, c: u32) -> u64
    ensures { result ≡ place_of r c }
{
    u64::from(r) * (1 << 32) + u64::from(c)
}

impl Places {
    ghost use Rattle.opcode_stages.specs.inner.Indexes.{has_place};

    /// The places of points: row, column.
    pub(crate) fn new(alloc: Global, points: &[(u32, u32)]) -> Result<Places, AllocError>
        ensures { IfOk result (λ places. (r c : ℕ) → c < 2 ^ 32 → has_place places r c ≡ is_point points.now r c) }
    {
        let mut places = Vec::with_capacity(alloc, points.len())?;
        for point in points {
            places.push(place(point.0, point.1))?;
        }
        places.sort_unstable();
        Ok(Places {
            places: Items::from_vec(places),
        })
    }

    /// The least place that isn't below `low`.
    fn first_from(&self, low: u64) -> Option<u64>
        ensures { IsFirstPlace self.now.places low result }
    {
        match self.places.as_slice().binary_search(&low) {
            Ok(_) => Some(low),
            Err(at) => self.places.get(at).copied(),
        }
    }

    /// Whether the pixel at row `r`, column `c` is one of the points.
    pub(crate) fn has(&self, r: u32, c: u32) -> bool
        ensures { result ≡ has_place self.now r c }
    {
        let at = place(r, c);
        match self.first_from(at) {
            Some(next) => next == at,
            None => false,
        }
    }

    /// The first column of row `r` from `from` on that has one of the points, or `to` where there is none before it.
    pub(crate) fn next(&self, r: u32, from: u32, to: u32) -> u32
        requires { from ≤ to }
        ensures { IsNextBad (has_place self.now r) from to result }
    {
        let Some(next) = self.first_from(place(r, from)) else {
            return to;
        };
        if next < place(r, to) {
            (next - place(r, 0)) as u32
        } else {
            to
        }
    }
}
