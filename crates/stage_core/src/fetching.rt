//! Fetching a whole plane.

ghost use Rattle.std.specs.Prelude.{◌≡◌, ◌+◌, length};
ghost use Rattle.plane_view.specs.Lent.{AgreesWith};
ghost use Rattle.plane_view.specs.Rectangles.{whole_rect};
ghost use Rattle.plane_view.specs.Tiles.{loan, lent_name, tile_rect};
ghost use Rattle.stage_core.specs.Bases.{raised};

use crate::{Base, Steps};
use plane_view::TileMut;
use std::sync::ledger::Ledger;

/// Fetches each cell of a base once, in order, into the samples of its whole plane: row by row, the planes of a pixel
/// side by side.
pub fn fetch_all<B: Base, L: Ledger>(base: &mut B, samples: &mut [u16], work: &mut Steps<L>)
    requires { length samples.old ≡ length (B.plane base.old).samples }
    ensures samples { samples.new ≡ (B.plane base.old).samples }
    ensures work { work.new ≡ work.old + length (B.cells_of base.old) }
    ensures count { B.fetches base.new ≡ raised (B.fetches base.old) (length (B.cells_of base.old)) }
    ensures plane { B.plane base.new ≡ B.plane base.old }
    ensures cells { B.cells_of base.new ≡ B.cells_of base.old }
{
    let shape = base.shape();
    let mut tile = TileMut::new(shape.rect(), shape.planes, samples);
    fetch_cells(base, &mut tile, work);
}

/// Fetches each cell of a base into a tile that was lent for its whole plane.
fn fetch_cells<B: Base, L: Ledger>(base: &mut B, tile: &mut TileMut<'_>, work: &mut Steps<L>)
    requires whole { (loan tile.old).rect ≡ whole_rect (B.plane base.old).rows (B.plane base.old).cols }
    requires planes { (loan tile.old).planes ≡ (B.plane base.old).planes }
    ensures slice { lent_name tile.new ≡ lent_name tile.old }
    ensures rect { (loan tile.new).rect ≡ (loan tile.old).rect }
    ensures samples { AgreesWith (B.plane base.old) (loan tile.new) (loan tile.old).rect }
    ensures work { work.new ≡ work.old + length (B.cells_of base.old) }
    ensures count { B.fetches base.new ≡ raised (B.fetches base.old) (length (B.cells_of base.old)) }
    ensures plane { B.plane base.new ≡ B.plane base.old }
    ensures cells { B.cells_of base.new ≡ B.cells_of base.old }
{
    let _shape = base.shape();
    for k in 0..base.cells() {
        tile.focus(base.cell(k));
        base.fetch(k, tile, work);
    }
}
