//! Caches of cells.

ghost use Rattle.std.specs.Prelude.{◌≡◌, ℕ, ◌*◌, ◌<◌, ◌^◌, length, true, false, OnOk};
ghost use Rattle.plane_view.specs.Rectangles.{LiesIn, area_of};
ghost use Rattle.plane_view.specs.Lent.{part_of};
ghost use Rattle.plane_view.specs.Tiles.{CopiesFrom, SameLoan, loan, tile_rect};
ghost use Rattle.kept_cells.specs.Held.{Held, SameHeld, Takes};
ghost use Rattle.kept_cells.specs.Kept.{Kept, Marks, brought, is_kept, put_key};

use plane_view::{Rect, TileMut, View};
use std::alloc::{AllocError, Global};

/// Cells of planes, by the number of the plane and of the cell.
pub trait Cache: Drop {
    /// The cells that are held at the present stamps.
    ghost held: { Self → Held };

    /// The keys of all cells in order.
    ghost kept: { Self → Kept };

    /// The present stamps and the limits, which neither call changes, even out of memory.
    ghost marks: { Self → Marks };

    /// Writes the samples of a cell that are in a tile, if the cell is held.
    fn find(&mut self, plane: u32, cell: u32, rect: Rect, out: &mut TileMut<'_>) -> bool
        requires plane { plane < length (marks self.old).stamps }
        requires size { (held self.old).holds plane cell ≡ true → length ((held self.old).samples plane cell)
            ≡ area_of rect * (loan out.old).planes }
        ensures found { result ≡ (held self.old).holds plane cell }
        ensures loan { SameLoan out.old out.new }
        ensures copies { result ≡ true → CopiesFrom (loan out.old) (loan out.new)
            (record { rect = rect; planes = (loan out.old).planes; samples = (held self.old).samples plane cell })
            (tile_rect out.old) }
        ensures stays { result ≡ false → out.new ≡ out.old }
        ensures held { SameHeld (held self.old) (held self.new) }
        ensures brings { result ≡ true → kept self.new ≡ brought (kept self.old) plane cell }
        ensures leaves { result ≡ false → kept self.new ≡ kept self.old }
        ensures marks { marks self.new ≡ marks self.old };

    /// Takes in a cell of a part of a plane, which isn't held. Others may be dropped. One of more samples than the
    /// budget isn't taken in, and takes no memory.
    ///
    /// # Errors
    ///
    /// Out of memory.
    fn put(
        &mut self,
        alloc: Global,
        plane: u32,
        cell: u32,
        rect: Rect,
        part: &View<'_>,
    ) -> Result<(), AllocError>
        requires plane { plane < length (marks self.old).stamps }
        requires absent { (held self.old).holds plane cell ≡ false }
        requires inside { LiesIn rect part.now.rect }
        requires small { area_of rect * part.now.planes < 2 ^ 32 }
        ensures takes { Takes (held self.old) (held self.new) plane cell (part_of part.now rect).samples }
        ensures kept { OnOk result (kept self.new ≡ put_key (kept self.old) plane cell
            (area_of rect * part.now.planes)) }
        ensures marks { marks self.new ≡ marks self.old };

    /// A cell is held where its key at the present stamp is.
    ghost holds: { (cache : Self) (plane cell : ℕ) → (held cache).holds plane cell ≡ is_kept (kept cache) plane cell };
}
