//! Cells of planes that are kept under a budget, at the present stamps of their planes.
#![tactic(auto)]

ghost use Rattle.std.specs.Prelude.{◌≡◌, ℕ, ◌+◌, ◌*◌, ◌<◌, ◌≤◌, ◌^◌, length, get_or, true, false, OnOk, IfOk};
ghost use Rattle.std.specs.List.{All, sum_by};
ghost use Rattle.plane_view.specs.Rectangles.{LiesIn, area_of};
ghost use Rattle.plane_view.specs.Lent.{part_of};
ghost use Rattle.plane_view.specs.Tiles.{CopiesFrom, SameLoan, loan, tile_rect};
ghost use Rattle.stage_deps.specs.Stamping.{changed};
ghost use Rattle.kept_cells.specs.Held.{SameHeld, Takes};
ghost use Rattle.kept_cells.specs.Kept.{brought, key_at, put_key};
ghost use Rattle.kept_cells.specs.Tiling.{held_in, kept_in};

mod cache;
mod parts;
mod tiles;

use crate::parts::samples_of;
pub use cache::Cache;
pub use parts::copy_into;
use plane_view::{Rect, TileMut, View};
use std::alloc::{AllocError, Global};
use tile_cache::Key;
pub use tiles::Tiles;

#[cfg(test)]
mod tests;

impl Tiles {
    /// The key of a cell at the present stamp of its plane.
    fn key(&self, plane: u32, cell: u32) -> Key
        requires { plane < length self.now.stamps.stamps }
        ensures key { result ≡ key_at (kept_in self.now.cells self.now.stamps.stamps) plane cell }
        ensures stamp { result.stamp ≤ self.now.stamps.changes }
    {
        Key {
            stage: plane,
            cell,
            stamp: self.stamps.now(plane),
        }
    }

    /// One change more, of a plane: no cell of it or of a plane above it is held at the present stamps. All cells stay.
    pub fn change(&mut self, plane: u32)
        requires some { 1 ≤ plane }
        requires plane { plane < length self.old.stamps.stamps }
        requires few { self.old.stamps.changes < 2 ^ 40 }
        ensures stamps { self.new.stamps ≡ changed plane self.old.stamps }
        ensures cells { self.new.cells ≡ self.old.cells }
        ensures budget { self.new.budget ≡ self.old.budget }
        ensures stale { (p k : ℕ) → plane ≤ p → p < length self.old.stamps.stamps
            → (held_in self.new.cells self.new.stamps.stamps).holds p k ≡ false }
        ensures holds { (p k : ℕ) → p < plane → (held_in self.new.cells self.new.stamps.stamps).holds p k
            ≡ (held_in self.old.cells self.old.stamps.stamps).holds p k }
        ensures samples { (p k : ℕ) → p < plane → (held_in self.new.cells self.new.stamps.stamps).samples p k
            ≡ (held_in self.old.cells self.old.stamps.stamps).samples p k }
    {
        self.stamps.change(plane);
    }

    /// How many samples all cells have.
    pub fn total(&self) -> u64
        ensures sum { result ≡ sum_by (λ item. item.1) (kept_in self.now.cells self.now.stamps.stamps).items }
        ensures within { result ≤ (kept_in self.now.cells self.now.stamps.stamps).budget }
    {
        self.cells.total()
    }
}

impl Cache for Tiles {
    ghost use Rattle.kept_cells.specs.Laws.{holds_kept};
    ghost use Rattle.kept_cells.specs.Tiling.{held_in, kept_in};

    ghost held = { λ t. held_in t.cells t.stamps.stamps };

    ghost kept = { λ t. kept_in t.cells t.stamps.stamps };

    ghost marks = { λ t. record {
      stamps = t.stamps.stamps;
      changes = t.stamps.changes;
      slots = t.cells.slots;
      budget = t.cells.budget;
    } };

    ghost holds = { λ t. holds_kept t.cells t.stamps.stamps };

    fn find(&mut self, plane: u32, cell: u32, rect: Rect, out: &mut TileMut<'_>) -> bool {
        let key = self.key(plane, cell);
        match self.cells.get(&key) {
            Some(samples) => {
                let planes = out.planes();
                out.copy_from(&View::new(rect, planes, samples));
                true
            }
            None => false,
        }
    }

    fn put(
        &mut self,
        alloc: Global,
        plane: u32,
        cell: u32,
        rect: Rect,
        part: &View<'_>,
    ) -> Result<(), AllocError> {
        let size = rect.area() * u64::from(part.planes());
        if self.budget < size {
            return Ok(());
        }
        let samples = samples_of(alloc, rect, part)?;
        let key = self.key(plane, cell);
        self.cells.put(key, samples)
    }
}
