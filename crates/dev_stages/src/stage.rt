//! The stages of a development.

use colour_matrix::{Balance, Matrix};
use linearise::Linearise;
use malvar::Demosaic;
use opcode_stages::{Crop, FixConstant, FixList, MapTable};
use plane_view::{Rect, Shape, TileMut, View};
use stage_core::{Stage, Steps};
use std::sync::ledger::Ledger;
use tone_table::Tone;

/// A stage of a development, of any kind. Contracts see the stage's parameters.
#[derive(Debug, PartialEq, Drop)]
pub enum DevStage {
    /// The mending of pixels that hold a number.
    FixConstant(FixConstant),
    /// The mending of listed pixels.
    FixList(FixList),
    /// The table that samples are mapped through.
    Map(MapTable),
    /// The crop of a trim, to the active area, or to the default crop.
    Crop(Crop),
    /// Linear values of raw ones.
    Linearise(Linearise),
    /// The colours that each pixel lacks.
    Demosaic(Demosaic),
    /// White balance and exposure.
    Balance(Balance),
    /// The colour matrix.
    Matrix(Matrix),
    /// The tone curve.
    Tone(Tone),
}

impl Stage for DevStage {
    ghost use Rattle.dev_stages.specs.Laws.{alike_of, local_of, parts_of, planes_of, shapes_of};
    ghost use Rattle.dev_stages.specs.Members.{apply_of, needed_of, shaped_of, takes_of};

    ghost apply = { apply_of };

    ghost takes = { takes_of };

    ghost shaped = { shaped_of };

    ghost needed = { needed_of };

    fn shape(&self, input: Shape) -> Option<Shape> {
        match self {
            DevStage::FixConstant(stage) => stage.shape(input),
            DevStage::FixList(stage) => stage.shape(input),
            DevStage::Map(stage) => stage.shape(input),
            DevStage::Crop(stage) => stage.shape(input),
            DevStage::Linearise(stage) => stage.shape(input),
            DevStage::Demosaic(stage) => stage.shape(input),
            DevStage::Balance(stage) => stage.shape(input),
            DevStage::Matrix(stage) => stage.shape(input),
            DevStage::Tone(stage) => stage.shape(input),
        }
    }

    fn need(&self, input: Shape, rect: Rect) -> Rect {
        match self {
            DevStage::FixConstant(stage) => stage.need(input, rect),
            DevStage::FixList(stage) => stage.need(input, rect),
            DevStage::Map(stage) => stage.need(input, rect),
            DevStage::Crop(stage) => stage.need(input, rect),
            DevStage::Linearise(stage) => stage.need(input, rect),
            DevStage::Demosaic(stage) => stage.need(input, rect),
            DevStage::Balance(stage) => stage.need(input, rect),
            DevStage::Matrix(stage) => stage.need(input, rect),
            DevStage::Tone(stage) => stage.need(input, rect),
        }
    }

    fn run<L: Ledger>(
        &self,
        input: &View<'_>,
        whole: Shape,
        out: &mut TileMut<'_>,
        work: &mut Steps<L>,
    ) {
        match self {
            DevStage::FixConstant(stage) => stage.run(input, whole, out, work),
            DevStage::FixList(stage) => stage.run(input, whole, out, work),
            DevStage::Map(stage) => stage.run(input, whole, out, work),
            DevStage::Crop(stage) => stage.run(input, whole, out, work),
            DevStage::Linearise(stage) => stage.run(input, whole, out, work),
            DevStage::Demosaic(stage) => stage.run(input, whole, out, work),
            DevStage::Balance(stage) => stage.run(input, whole, out, work),
            DevStage::Matrix(stage) => stage.run(input, whole, out, work),
            DevStage::Tone(stage) => stage.run(input, whole, out, work),
        }
    }

    ghost makes_shapes = { shapes_of };

    ghost makes_planes = { λ s input P is. planes_of s input P };

    ghost needs_part = { λ s input rect is. parts_of s input rect };

    ghost local = { λ s input rect is. local_of s input rect };

    ghost equal_alike = { alike_of };
}
