//! The mending of listed pixels.

ghost use Rattle.std.specs.Prelude.{◌≡◌, ◌≤◌, ◌↔◌, IfOk, IsTrue};
ghost use Rattle.plane_view.specs.Rectangles.{grown, whole_rect};
ghost use Rattle.opcode_stages.specs.BadPixels.{same_pixels};
ghost use Rattle.opcode_stages.specs.Mends.{IsSingle, is_listed, mended, mended_at};

use crate::defects::{Defects, fill_row};
use crate::places::Places;
use crate::rects::{any_has, next_in};
use lists::Items;
use plane_view::{Rect, Shape, TileMut, View};
use stage_core::{Stage, Steps};
use std::alloc::{AllocError, Global};
use std::marker::Model;
use std::sync::ledger::Ledger;

/// Mends the pixels that are listed, as points and by rectangles: each becomes the mean of its good neighbours of the
/// same colour. It takes planes of one sample a pixel.
///
/// A contract sees it as its `BadPixels`: the phase, the points and the rectangles, as they were given.
#[derive(Drop)]
#[derive_where(Debug)]
pub struct FixList {
    phase: u8,
    points: Items<(u32, u32)>,
    rects: Items<Rect>,
    #[derive_where(skip)]
    places: Places,
}

impl Model for FixList {
    ghost use Rattle.std.specs.Prelude.{◌≡◌, ℕ, ◌^◌, ◌<◌};
    ghost use Rattle.opcode_stages.specs.BadPixels.{BadPixels};
    ghost use Rattle.opcode_stages.specs.Mends.{is_point};
    ghost use Rattle.opcode_stages.specs.inner.Indexes.{has_place};

    ghost Value = { BadPixels };

    ghost view = { λ s. record { phase = s.phase; points = s.points; rects = s.rects } };

    ghost invariant = { λ s. (r c : ℕ) → c < 2 ^ 32 → has_place s.places r c ≡ is_point s.points r c };
}

impl FixList {
    /// The mending of points (row, column) and of the pixels of rectangles. The phase tells the plane's top left pixel:
    /// 0 red, 1 green in a row of green and red, 2 green in a row of green and blue, 3 blue.
    ///
    /// # Errors
    ///
    /// `AllocError` where there is no memory for the lists.
    pub fn new(
        alloc: Global,
        phase: u8,
        points: &[(u32, u32)],
        rects: &[Rect],
    ) -> Result<FixList, AllocError>
        requires { phase ≤ 3 }
        ensures { IfOk result (λ list. list ≡ record { phase = phase; points = points.now; rects = rects.now }) }
    {
        let places = Places::new(alloc, points)?;
        let points = Items::from_slice(alloc, points)?;
        let rects = Items::from_slice(alloc, rects)?;
        Ok(FixList {
            phase,
            points,
            rects,
            places,
        })
    }
}

/// Two are equal where the phase, the points and the rectangles are, as they were given.
impl PartialEq for FixList {
    ghost use Rattle.opcode_stages.specs.MendEquality.{pixels_per};

    ghost eq = { same_pixels };

    ghost laws = { pixels_per };

    fn eq(&self, other: &FixList) -> bool
        ensures value { result ≡ same_pixels self.now other.now }
        ensures same { IsTrue result ↔ (self.now ≡ other.now) }
    {
        (self.phase, &self.points, &self.rects) == (other.phase, &other.points, &other.rects)
    }
}

impl Eq for FixList {
    ghost use Rattle.opcode_stages.specs.MendEquality.{pixels_equiv};

    ghost laws = { pixels_equiv };
}

impl Defects for FixList {
    ghost bad = { λ s at. is_listed s.points s.rects at };

    fn is_bad(&self, _input: &View<'_>, r: u32, c: u32) -> bool {
        self.places.has(r, c) || any_has(self.rects.as_slice(), r, c)
    }

    fn next_bad(&self, _input: &View<'_>, r: u32, from: u32, to: u32) -> u32 {
        let point = self.places.next(r, from, to);
        next_in(self.rects.as_slice(), r, from, point)
    }
}

impl Stage for FixList {
    ghost use Rattle.opcode_stages.specs.MendLaws.{mend_rests, listed_rests};
    ghost use Rattle.opcode_stages.specs.MendEquality.{list_alike};
    ghost use Rattle.stage_core.proofs.Formulas.{planes_by, local_by};
    ghost use Rattle.stage_core.proofs.Parts.{grown_is_part};

    ghost apply = { λ s P. mended (is_listed s.points s.rects) s.phase P };

    ghost takes = { λ s input. IsSingle input };

    ghost shaped = { λ s input. input };

    ghost needed = { λ s input rect. grown rect 2 (whole_rect input.rows input.cols) };

    fn shape(&self, input: Shape) -> Option<Shape> {
        if input.planes == 1 { Some(input) } else { None }
    }

    fn need(&self, input: Shape, rect: Rect) -> Rect {
        rect.grow(2, &input.rect())
    }

    fn run<L: Ledger>(
        &self,
        input: &View<'_>,
        whole: Shape,
        out: &mut TileMut<'_>,
        work: &mut Steps<L>,
    ) {
        work.tick();
        let rect = out.rect();
        out.write_rows(|r, row| fill_row(self, self.phase, input, whole, rect, r, row));
    }

    ghost makes_shapes = { λ s input is takes. is };

    ghost makes_planes = { λ s input P shape takes is. planes_by (λ t. t)
        (λ t at. mended_at (is_listed s.points s.rects at) s.phase t.rows t.cols at) input P is };

    ghost needs_part = { λ s input rect shape takes part. grown_is_part 2 input.planes input rect part };

    ghost local = { λ s input rect shape takes part. local_by (λ t. t)
        (λ t at. mended_at (is_listed s.points s.rects at) s.phase t.rows t.cols at) input
        (grown rect 2 (whole_rect input.rows input.cols)) rect part
        (mend_rests (is_listed s.points s.rects) (listed_rests s.points s.rects) s.phase input rect takes part) };

    ghost equal_alike = { list_alike };
}
