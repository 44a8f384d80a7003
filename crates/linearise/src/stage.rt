//! Linear values as a stage.

ghost use Rattle.std.specs.Prelude.{◌≡◌, ◌≤◌, ◌↔◌, pos, ◌<ℤ◌, ◌≤ℤ◌, IfErr, IfOk, IsTrue};
ghost use Rattle.plane_view.specs.Rectangles.{IsNonEmpty, height, width};
ghost use Rattle.dng_tags.specs.Black.{span_of};
ghost use Rattle.dng_tags.specs.Facts.{AreRanged};
ghost use Rattle.linearise.specs.Parameters.{IsArea, linear_plane, parameters, same_parameters};
ghost use Rattle.linearise.specs.Settings.{under};

use crate::fault::LineariseFault;
use crate::parts::Parts;
use crate::settings::span;
use dng_tags::Levels;
use plane_view::{Rect, Shape, TileMut, View};
use stage_core::{Stage, Steps};
use std::alloc::Global;
use std::marker::Model;
use std::sync::ledger::Ledger;

/// Makes linear values of the raw samples of an area: 0 at black or below, 65535 at white or above. It refuses all but
/// one plane of the area's numbers of rows and columns.
///
/// A contract sees it as its `Parameters`: the area's rows and columns, the linearisation table, the black level of
/// each place, and how far the white level is above the greatest of them. No plane of black levels is kept.
#[derive(Debug, Drop)]
pub struct Linearise {
    parts: Parts,
}

impl Model for Linearise {
    ghost use Rattle.linearise.specs.Parameters.{Parameters};
    ghost use Rattle.linearise.specs.inner.Seen.{seen};

    ghost Value = { Parameters };

    ghost view = { λ s. seen s.parts };
}

impl Linearise {
    ghost use Rattle.linearise.specs.declared.fault.LineariseFault.TheVariants.{Levels as LevelsFault};

    /// The stage of an active area, by its levels. Where there is a `black`, it is the black level of each place of the
    /// area, and neither the pattern of the levels nor what columns and rows add counts. Where there is a `white`, it
    /// is the white level in place of theirs. Both are sample values, not 256ths.
    ///
    /// # Errors
    ///
    /// `Levels` exactly where the white level that counts isn't above the greatest black level that counts; `Memory`
    /// where there was no memory for the black levels of the columns and rows, or for the table.
    pub fn new(
        alloc: Global,
        levels: &Levels,
        active: Rect,
        black: Option<u16>,
        white: Option<u16>,
    ) -> Result<Linearise, LineariseFault>
        requires some { IsNonEmpty active }
        requires rows { height active ≤ 8192 }
        requires cols { width active ≤ 8192 }
        requires ranged { AreRanged levels.now (height active) (width active) }
        ensures stage { IfOk result (λ stage. stage ≡ parameters (under levels.now black white) (height active)
            (width active)) }
        ensures above { IfOk result (λ _. pos 0 <ℤ span_of (under levels.now black white) (height active)
            (width active)) }
        ensures fault { IfErr result (λ fault. (fault ≡ LevelsFault)
            ↔ (span_of (under levels.now black white) (height active) (width active) ≤ℤ pos 0)) }
    {
        let rows = active.bottom - active.top;
        let cols = active.right - active.left;
        let span = span(levels, rows, cols, black, white);
        if span <= 0 {
            return Err(LineariseFault::Levels);
        }
        let parts = Parts::new(alloc, levels, rows, cols, black, span as u32)?;
        Ok(Linearise { parts })
    }
}

/// Two are equal where the area's rows and columns, the table, all black levels and the span are, whatever patterns and
/// deltas they came from.
impl PartialEq for Linearise {
    ghost use Rattle.linearise.specs.Equal.{same_laws};

    ghost eq = { same_parameters };

    ghost laws = { same_laws };

    fn eq(&self, other: &Linearise) -> bool
        ensures value { result ≡ same_parameters self.now other.now }
        ensures same { IsTrue result ↔ (self.now ≡ other.now) }
    {
        self.parts.same(&other.parts)
    }
}

impl Stage for Linearise {
    ghost use Rattle.linearise.specs.Equal.{same_stages};
    ghost use Rattle.linearise.specs.Laws.{linear_rests};
    ghost use Rattle.linearise.specs.Parameters.{linear_of};
    ghost use Rattle.stage_core.proofs.Formulas.{planes_by, local_by};

    ghost apply = { linear_plane };

    ghost takes = { IsArea };

    ghost shaped = { λ s input. input };

    ghost needed = { λ s input rect. rect };

    fn shape(&self, input: Shape) -> Option<Shape> {
        if self.parts.takes(input) {
            Some(input)
        } else {
            None
        }
    }

    fn need(&self, _input: Shape, rect: Rect) -> Rect {
        rect
    }

    fn run<L: Ledger>(
        &self,
        input: &View<'_>,
        _whole: Shape,
        out: &mut TileMut<'_>,
        work: &mut Steps<L>,
    ) {
        work.tick();
        let parts = &self.parts;
        let rect = out.rect();
        out.write_rows(|r, row| parts.fill_row(input, rect, r, row));
    }

    ghost makes_shapes = { λ s input is takes. is };

    ghost makes_planes = { λ s input P shape takes is. planes_by (λ t. t) (λ t at. linear_of s at) input P is };

    ghost needs_part = { λ s input rect shape takes part. part };

    ghost local = { λ s input rect shape takes part. local_by (λ t. t) (λ t at. linear_of s at) input rect rect part
        (linear_rests s input.planes rect) };

    ghost equal_alike = { same_stages };
}
