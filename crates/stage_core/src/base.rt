//! Planes that are fetched cell by cell.

ghost use Rattle.std.specs.Prelude.{◌≡◌, ℕ, ◌+◌, ◌-◌, ◌<◌, ◌≤◌, ◌^◌, List, length, slice_get, Some};
ghost use Rattle.plane_view.specs.declared.Rect.{Rect};
ghost use Rattle.plane_view.specs.Lent.{AgreesWith};
ghost use Rattle.plane_view.specs.Plane.{Plane};
ghost use Rattle.plane_view.specs.Shapes.{IsShape};
ghost use Rattle.plane_view.specs.Tiles.{loan, tile_rect, SameLoan};
ghost use Rattle.stage_core.specs.Bases.{AreCells, raised};
ghost use Rattle.stage_core.specs.Planes.{IsPlane};

use crate::Steps;
use plane_view::{Rect, Shape, TileMut};
use std::sync::ledger::Ledger;

/// A plane that is fetched cell by cell. No call takes memory or refuses.
pub trait Base: Drop {
    /// The plane.
    ghost plane: { Self → Plane };

    /// The rectangles of its cells.
    ghost cells_of: { Self → List Rect };

    /// How many cells were fetched, held at 2^64 - 1.
    ghost fetches: { Self → ℕ };

    /// The plane's shape.
    fn shape(&self) -> Shape
        ensures shape { IsShape result }
        ensures plane { IsPlane (plane self.now) result }
        ensures cells { AreCells (cells_of self.now) result };

    /// The number of cells, 1 to 65,536.
    fn cells(&self) -> u32
        ensures { result ≡ length (cells_of self.now) };

    /// The rectangle of cell `k`.
    fn cell(&self, k: u32) -> Rect
        requires { k < length (cells_of self.now) }
        ensures { slice_get (cells_of self.now) k ≡ Some result };

    /// Writes the samples of cell `k` into a tile over its rectangle, and counts one step.
    fn fetch<L: Ledger>(&mut self, k: u32, out: &mut TileMut<'_>, work: &mut Steps<L>)
        requires cell { slice_get (cells_of self.old) k ≡ Some (tile_rect out.old) }
        requires planes { (loan out.old).planes ≡ (plane self.old).planes }
        ensures loan { SameLoan out.old out.new }
        ensures samples { AgreesWith (plane self.old) (loan out.new) (tile_rect out.old) }
        ensures work { work.new ≡ work.old + 1 }
        ensures count { fetches self.new ≡ raised (fetches self.old) 1 }
        ensures plane { plane self.new ≡ plane self.old }
        ensures cells { cells_of self.new ≡ cells_of self.old };

    /// The count of fetches is held.
    ghost held: { (base : Self) → fetches base ≤ 2 ^ 64 - 1 };
}
