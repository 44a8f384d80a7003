//! The mending of pixels that hold a number.

ghost use Rattle.std.specs.Prelude.{◌≡◌, ◌+◌, ◌-◌, ◌*◌, ◌<◌, ◌≤◌, length};
ghost use Rattle.plane_view.specs.Rectangles.{grown, whole_rect};
ghost use Rattle.opcode_stages.specs.Mends.{IsSingle, mended, mended_at, equals};

use crate::defects::{Defects, fill_row};
use plane_view::{Rect, Shape, TileMut, View};
use stage_core::{Stage, Steps};
use std::sync::ledger::Ledger;

/// Mends the pixels whose sample is a number: each becomes the mean of its good neighbours of the same colour. It takes
/// planes of one sample a pixel.
#[derive(Clone, Copy, Debug, PartialEq, Eq)]
pub struct FixConstant {
    constant: u32,
    phase: u8,
}

impl FixConstant {
    ghost use Rattle.opcode_stages.specs.MendStages.{constant_of, phase_of};

    /// The mending of the pixels that hold `constant`. The phase tells the plane's top left pixel: 0 red, 1 green in a
    /// row of green and red, 2 green in a row of green and blue, 3 blue.
    pub fn new(constant: u32, phase: u8) -> FixConstant
        requires { phase ≤ 3 }
        ensures constant { constant_of result ≡ constant }
        ensures phase { phase_of result ≡ phase }
    {
        FixConstant { constant, phase }
    }
}

impl Defects for FixConstant {
    ghost use Rattle.opcode_stages.specs.MendStages.{constant_of};

    ghost bad = { λ s at. equals (constant_of s) at };

    fn is_bad(&self, input: &View<'_>, r: u32, c: u32) -> bool {
        u32::from(input.at(r, c, 0)) == self.constant
    }

    fn next_bad(&self, input: &View<'_>, r: u32, from: u32, to: u32) -> u32 {
        for (k, sample) in input.row_part(r, from, to).iter().enumerate() {
            if u32::from(*sample) == self.constant {
                return from + k as u32;
            }
        }
        to
    }
}

impl Stage for FixConstant {
    ghost use Rattle.opcode_stages.specs.MendLaws.{mend_rests, equals_rests};
    ghost use Rattle.opcode_stages.specs.MendStages.{constant_of, phase_of};
    ghost use Rattle.opcode_stages.specs.MendEquality.{constant_alike};
    ghost use Rattle.stage_core.proofs.Formulas.{planes_by, local_by};
    ghost use Rattle.stage_core.proofs.Parts.{grown_is_part};

    ghost apply = { λ s P. mended (equals (constant_of s)) (phase_of s) P };

    ghost takes = { λ s input. IsSingle input };

    ghost shaped = { λ s input. input };

    ghost needed = { λ s input rect. grown rect 2 (whole_rect input.rows input.cols) };

    fn shape(&self, input: Shape) -> Option<Shape> {
        if input.planes == 1 { Some(input) } else { None }
    }

    fn need(&self, input: Shape, rect: Rect) -> Rect {
        rect.grow(2, &input.rect())
    }

    fn run<L: Ledger>(
        &self,
        input: &View<'_>,
        whole: Shape,
        out: &mut TileMut<'_>,
        work: &mut Steps<L>,
    ) {
        work.tick();
        let rect = out.rect();
        out.write_rows(|r, row| fill_row(self, self.phase, input, whole, rect, r, row));
    }

    ghost makes_shapes = { λ s input is takes. is };

    ghost makes_planes = { λ s input P shape takes is. planes_by (λ t. t)
        (λ t at. mended_at (equals (constant_of s) at) (phase_of s) t.rows t.cols at) input P is };

    ghost needs_part = { λ s input rect shape takes part. grown_is_part 2 input.planes input rect part };

    ghost local = { λ s input rect shape takes part. local_by (λ t. t)
        (λ t at. mended_at (equals (constant_of s) at) (phase_of s) t.rows t.cols at) input
        (grown rect 2 (whole_rect input.rows input.cols)) rect part
        (mend_rests (equals (constant_of s)) (equals_rests (constant_of s)) (phase_of s) input rect takes part) };

    ghost equal_alike = { constant_alike };
}
