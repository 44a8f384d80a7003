//! Demosaicing as a stage.

ghost use Rattle.std.specs.Prelude.{◌≡◌};
ghost use Rattle.plane_view.specs.Plane.{coloured};
ghost use Rattle.plane_view.specs.Rectangles.{grown, whole_rect};
ghost use Rattle.malvar.specs.Pattern.{IsBayer};
ghost use Rattle.malvar.specs.Demosaic.{demosaiced, table_of, reach_of};
ghost use Rattle.malvar.specs.Mosaics.{IsMosaic};

use crate::Kind;
use crate::pattern::Pattern;
use crate::rows::fill_row;
use plane_view::{Rect, Shape, TileMut, View};
use stage_core::{Stage, Steps};
use std::sync::ledger::Ledger;

/// Fills in the colours of a plane that has one colour a pixel, under a pattern of 2 by 2. It makes three planes, red,
/// green and blue, and refuses all but one plane of at least 4 rows and columns.
#[derive(Clone, Copy, Debug, PartialEq, Eq)]
pub struct Demosaic {
    kind: Kind,
    pattern: Pattern,
}

impl Demosaic {
    ghost use Rattle.malvar.specs.Mosaics.{kind_of, cfa_of};

    /// Demosaicing of a kind under one of the four patterns (0 red, 1 green, 2 blue; row by row).
    pub fn new(kind: Kind, cfa: [u8; 4]) -> Demosaic
        requires { IsBayer cfa }
        ensures kind { kind_of result ≡ kind }
        ensures pattern { cfa_of result ≡ cfa }
    {
        Demosaic {
            kind,
            pattern: Pattern::new(cfa),
        }
    }
}

impl Stage for Demosaic {
    ghost use Rattle.malvar.specs.Laws.{coloured_is_shape, reads_near};
    ghost use Rattle.malvar.specs.Equal.{same_mosaics};
    ghost use Rattle.malvar.specs.Demosaic.{demosaiced_at};
    ghost use Rattle.malvar.specs.Mosaics.{cfa_of};
    ghost use Rattle.stage_core.proofs.Formulas.{planes_by, local_by};
    ghost use Rattle.stage_core.proofs.Parts.{grown_is_part};

    ghost apply = { λ s P. demosaiced (table_of s.kind) (cfa_of s) P };

    ghost takes = { λ s input. IsMosaic input };

    ghost shaped = { λ s input. coloured input };

    ghost needed = { λ s input rect. grown rect (reach_of s.kind) (whole_rect input.rows input.cols) };

    fn shape(&self, input: Shape) -> Option<Shape> {
        if input.planes == 1 && input.rows >= 4 && input.cols >= 4 {
            Some(Shape { planes: 3, ..input })
        } else {
            None
        }
    }

    fn need(&self, input: Shape, rect: Rect) -> Rect {
        rect.grow(self.kind.reach(), &input.rect())
    }

    fn run<L: Ledger>(
        &self,
        input: &View<'_>,
        whole: Shape,
        out: &mut TileMut<'_>,
        work: &mut Steps<L>,
    ) {
        work.tick();
        let Demosaic { kind, pattern } = *self;
        let rect = out.rect();
        out.write_rows(|r, row| fill_row(input, whole, kind, pattern, rect, r, row));
    }

    ghost makes_shapes = { λ s input shape takes. coloured_is_shape input shape };

    ghost makes_planes = { λ s input P shape takes is. planes_by coloured
        (λ t at. demosaiced_at (table_of s.kind) (cfa_of s) t.rows t.cols at) input P is };

    ghost needs_part = { λ s input rect shape takes part. grown_is_part (reach_of s.kind) 3 input rect part };

    ghost local = { λ s input rect shape takes part. local_by coloured
        (λ t at. demosaiced_at (table_of s.kind) (cfa_of s) t.rows t.cols at) input
        (grown rect (reach_of s.kind) (whole_rect input.rows input.cols)) rect part
        (reads_near s.kind (cfa_of s) input rect takes part) };

    ghost equal_alike = { same_mosaics };
}
