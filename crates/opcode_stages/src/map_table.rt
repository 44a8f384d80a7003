//! The table that samples are mapped through.

ghost use Rattle.std.specs.Prelude.{◌≡◌, ◌+◌, ◌-◌, ◌*◌, ◌%◌, ◌^◌, ◌<◌, ◌≤◌, ◌==◌, ◌&&◌, IfOk, length, nat_le, nat_lt};
ghost use Rattle.plane_view.specs.Lent.{HasRow, sample_at};
ghost use Rattle.plane_view.specs.Rectangles.{LiesIn, width};
ghost use Rattle.plane_view.specs.Rows.{IsRowOf};

use crate::map_rows::{Columns, first_from, map_columns};
use lists::Items;
use plane_view::{Rect, Shape, TileMut, View};
use stage_core::{Stage, Steps};
use std::alloc::{AllocError, Global};
use std::marker::Model;
use std::sync::ledger::Ledger;

/// Takes a table's entry for samples of a rectangle: those on each so many rows and columns from its top and its left
/// edge, in some planes. A value past the table takes its last entry. It takes planes of every shape, and the rectangle
/// may reach past them.
///
/// A contract sees it as its `Mapping`, which has all these.
#[derive(Debug, Drop, PartialEq, Eq)]
pub struct MapTable {
    rect: Rect,
    plane: u32,
    planes: u32,
    row_pitch: u32,
    col_pitch: u32,
    table: Items<u16>,
}

impl Model for MapTable {
    ghost use Rattle.opcode_stages.specs.Maps.{Mapping};
    ghost use Rattle.opcode_stages.specs.inner.MapRows.{IsApart};

    ghost Value = { Mapping };

    ghost view = { λ s. record {
      rect = s.rect;
      plane = s.plane;
      planes = s.planes;
      row_pitch = s.row_pitch;
      col_pitch = s.col_pitch;
      table = s.table;
    } };

    ghost invariant = { λ s. IsApart s.row_pitch s.col_pitch s.table };

    ghost inverse = { λ m. record {
      rect = m.rect;
      plane = m.plane;
      planes = m.planes;
      row_pitch = m.row_pitch;
      col_pitch = m.col_pitch;
      table = m.table;
    } };
}

impl MapTable {
    ghost use Rattle.opcode_stages.specs.Maps.{mapped_at};

    /// The map of the samples on each `row_pitch` rows and `col_pitch` columns of a rectangle, in `planes` planes from
    /// `plane` on, through a table of 1 to 65,536 entries. A pitch is at least 1.
    ///
    /// # Errors
    ///
    /// `AllocError` where there is no memory for the table.
    pub fn new(
        alloc: Global,
        rect: Rect,
        plane: u32,
        planes: u32,
        row_pitch: u32,
        col_pitch: u32,
        table: &[u16],
    ) -> Result<MapTable, AllocError>
        requires row_pitch { 1 ≤ row_pitch }
        requires col_pitch { 1 ≤ col_pitch }
        requires some { 1 ≤ length table.now }
        requires few { length table.now ≤ 65536 }
        ensures { IfOk result (λ map. map ≡ record {
          rect = rect;
          plane = plane;
          planes = planes;
          row_pitch = row_pitch;
          col_pitch = col_pitch;
          table = table.now;
        }) }
    {
        let table = Items::from_slice(alloc, table)?;
        Ok(MapTable {
            rect,
            plane,
            planes,
            row_pitch,
            col_pitch,
            table,
        })
    }

    /// Whether samples of row `r` may change.
    fn has_row(&self, r: u32) -> bool
        ensures { result ≡ (nat_le self.now.rect.top r && nat_lt r self.now.rect.bottom
            && ((r - self.now.rect.top) % self.now.row_pitch == 0)) }
    {
        let Rect { top, bottom, .. } = self.rect;
        top <= r && r < bottom && (r - top) % self.row_pitch == 0
    }

    /// Writes row `r` of a rectangle.
    fn fill_row(&self, input: &View<'_>, rect: Rect, r: u32, out: &mut [u16])
        requires part { LiesIn rect input.now.rect }
        requires row { HasRow rect r }
        requires cols { rect.right ≤ 8192 }
        requires planes { input.now.planes ≤ 3 }
        requires out { length out.old ≡ width rect * input.now.planes }
        ensures { IsRowOf (mapped_at self.now (sample_at input.now)) rect input.now.planes r out.new }
    {
        out.copy_from_slice(input.row_part(r, rect.left, rect.right));
        if !self.has_row(r) {
            return;
        }
        let from = first_from(self.rect.left, self.col_pitch, rect.left) - u64::from(rect.left);
        let to = self.rect.right.min(rect.right).saturating_sub(rect.left);
        let columns = Columns {
            from: from as usize,
            to: to as usize,
            pitch: self.col_pitch as usize,
        };
        let count = input.planes() as usize;
        let end = (self.plane as usize + self.planes as usize).min(count);
        for p in self.plane as usize..end {
            map_columns(self.table.as_slice(), count, p, columns, out);
        }
    }
}

impl Stage for MapTable {
    ghost use Rattle.std.specs.Prelude.{⊤};
    ghost use Rattle.opcode_stages.specs.Maps.{mapped, mapped_at};
    ghost use Rattle.opcode_stages.specs.MapLaws.{map_rests, map_alike};
    ghost use Rattle.stage_core.proofs.Formulas.{planes_by, local_by};

    ghost apply = { λ s P. mapped s P };

    ghost takes = { λ s input. ⊤ };

    ghost shaped = { λ s input. input };

    ghost needed = { λ s input rect. rect };

    fn shape(&self, input: Shape) -> Option<Shape> {
        Some(input)
    }

    fn need(&self, _input: Shape, rect: Rect) -> Rect {
        rect
    }

    fn run<L: Ledger>(
        &self,
        input: &View<'_>,
        _whole: Shape,
        out: &mut TileMut<'_>,
        work: &mut Steps<L>,
    ) {
        work.tick();
        let rect = out.rect();
        out.write_rows(|r, row| self.fill_row(input, rect, r, row));
    }

    ghost makes_shapes = { λ s input is takes. is };

    ghost makes_planes = { λ s input P shape takes is. planes_by (λ t. t) (λ whole at. mapped_at s at) input P is };

    ghost needs_part = { λ s input rect shape takes part. part };

    ghost local = { λ s input rect shape takes part. local_by (λ t. t) (λ whole at. mapped_at s at) input rect rect part
        (map_rests s input rect) };

    ghost equal_alike = { map_alike };
}
