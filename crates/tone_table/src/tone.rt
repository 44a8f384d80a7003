//! A tone curve as a stage.

ghost use Rattle.std.specs.Prelude.{◌≡◌, ℕ, ◌+◌, ◌-◌, ◌*◌, ◌<◌, ◌≤◌, List, length, IfOk, IsTrue, ◌↔◌};
ghost use Rattle.plane_view.specs.Lent.{HasRowPart, sample_at};
ghost use Rattle.plane_view.specs.Rectangles.{width};
ghost use Rattle.plane_view.specs.Rows.{IsRowOf};
ghost use Rattle.tone_table.specs.Tones.{curve_table, entry_at, toned};
ghost use Rattle.tone_table.specs.inner.Fills.{HasLookups};

use crate::Curve;
use crate::fills::{ENTRIES, fill_knots, fill_linear, fill_root};
use lists::Items;
use plane_view::{Rect, Shape, TileMut, View};
use stage_core::{Stage, Steps};
use std::alloc::{AllocError, Global};
use std::marker::Model;
use std::sync::ledger::Ledger;

/// Replaces each sample by the entry of a table of 65,536. It refuses all but three planes. Contracts see the table.
#[derive(Debug, PartialEq, Eq, Drop)]
pub struct Tone {
    table: Items<u16>,
}

impl Model for Tone {
    ghost use Rattle.std.specs.Prelude.{◌≡◌, ℕ, List, length};

    ghost Value = { List ℕ };

    ghost view = { λ s. s.table };

    ghost invariant = { λ s. length s.table ≡ 65536 };

    ghost inverse = { λ s. record { table = s } };
}

impl Tone {
    /// The table of a curve.
    ///
    /// # Errors
    ///
    /// `AllocError` where there is no memory for the table.
    pub fn new(alloc: Global, curve: &Curve) -> Result<Tone, AllocError>
        ensures { IfOk result (λ tone. tone ≡ curve_table curve.now) }
    {
        let mut table = zeros(alloc, ENTRIES)?;
        fill(curve, &mut table);
        Ok(Tone {
            table: Items::from_vec(table),
        })
    }

    /// Whether two are equal, which is exactly where their tables are.
    pub fn is_same(&self, other: &Tone) -> bool
        ensures { IsTrue result ↔ (self.now ≡ other.now) }
    {
        self == other
    }
}

/// So many zeros.
fn zeros(alloc: Global, count: usize) -> Result<Vec<u16>, AllocError>
    ensures { IfOk result (λ made. length made.items ≡ count) }
{
    vec![in alloc; 0; count]
}

/// Fills the table of a curve.
#[tactic(auto, using(crate::proofs::Tables::table_is))]
fn fill(curve: &Curve, table: &mut [u16])
    requires { length table.old ≡ 65536 }
    ensures { table.new ≡ curve_table curve.now }
{
    match curve {
        Curve::Linear => fill_linear(table),
        Curve::Root => fill_root(table),
        Curve::Knots(knots) => fill_knots(knots.points(), table),
    }
}

/// Looks each sample up.
fn look_up(table: &[u16], from: &[u16], out: &mut [u16])
    requires table { length table.now ≡ 65536 }
    requires same { length from.now ≡ length out.old }
    ensures { HasLookups table.now from.now out.new (length from.now) }
{
    for i in 0..out.len() {
        out[i] = table[usize::from(from[i])];
    }
}

/// Looks row `r` of a rectangle up.
fn look_up_row(input: &View<'_>, table: &[u16], rect: Rect, r: u32, out: &mut [u16])
    requires row_part { HasRowPart input.now.rect r rect.left rect.right }
    requires planes { input.now.planes ≡ 3 }
    requires table { length table.now ≡ 65536 }
    requires long { length out.old ≡ width rect * 3 }
    ensures { IsRowOf (entry_at table.now (sample_at input.now)) rect 3 r out.new }
{
    look_up(table, input.row_part(r, rect.left, rect.right), out);
}

impl Stage for Tone {
    ghost use Rattle.std.specs.Prelude.{◌≡◌};
    ghost use Rattle.stage_core.proofs.Formulas.{planes_by, local_by};
    ghost use Rattle.tone_table.specs.Tones.{toned, entry_at};
    ghost use Rattle.tone_table.specs.Laws.{entry_rests, same_tones};

    ghost apply = { λ s P. toned s P };

    ghost takes = { λ s input. input.planes ≡ 3 };

    ghost shaped = { λ s input. input };

    ghost needed = { λ s input rect. rect };

    fn shape(&self, input: Shape) -> Option<Shape> {
        if input.planes == 3 { Some(input) } else { None }
    }

    fn need(&self, _input: Shape, rect: Rect) -> Rect {
        rect
    }

    fn run<L: Ledger>(
        &self,
        input: &View<'_>,
        _whole: Shape,
        out: &mut TileMut<'_>,
        work: &mut Steps<L>,
    ) {
        work.tick();
        let table = self.table.as_slice();
        let rect = out.rect();
        out.write_rows(|r, row| look_up_row(input, table, rect, r, row));
    }

    ghost makes_shapes = { λ s input shape takes. shape };

    ghost makes_planes = { λ s input P shape takes is. planes_by (λ t. t) (λ t at. entry_at s at) input P is };

    ghost needs_part = { λ s input rect shape takes part. part };

    ghost local = { λ s input rect shape takes part. local_by (λ t. t) (λ t at. entry_at s at) input rect rect part
        (entry_rests s input.planes rect) };

    ghost equal_alike = { same_tones };
}
