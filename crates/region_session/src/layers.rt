//! The shapes of the planes of stages.

ghost use Rattle.std.specs.Prelude.{◌≡◌, ℕ, ◌+◌, ◌-◌, ◌≤◌, ◌<◌, ◌^◌, [], length, IfOk, IfErr, OnOk};
ghost use Rattle.plane_view.specs.Shapes.{IsShape};
ghost use Rattle.region_session.specs.inner.Layers.{AreLayers};
ghost use Rattle.region_session.specs.Stacks.{IsFirstRefusal};

use crate::OpenFault;
use crate::patch::Patch;
use plane_view::{Rect, Shape};
use stage_core::Stage;
use std::alloc::Global;

/// The shape of the plane below a stage, and that of the stage's own plane.
#[derive(Clone, Copy, Debug, PartialEq, Eq)]
pub(crate) struct Layer {
    pub input: Shape,
    pub shape: Shape,
}

/// What is needed of a plane, in memory that is used again: the numbers of the cells, those of the missing ones, the
/// rectangles of cells, what the missing ones rest on in the plane below, and the part of that plane.
#[derive(Drop)]
pub(crate) struct Needed {
    pub numbers: Vec<u32>,
    pub missing: Vec<u32>,
    pub rects: Vec<Rect>,
    pub needs: Vec<Rect>,
    pub lower: Patch,
}

impl Needed {
    /// Empty lists, and a part with no pixel.
    pub fn new(alloc: Global) -> Needed {
        Needed {
            numbers: Vec::new(alloc),
            missing: Vec::new(alloc),
            rects: Vec::new(alloc),
            needs: Vec::new(alloc),
            lower: Patch::new(alloc),
        }
    }
}

/// The shapes of the planes of stages over a plane of a shape.
///
/// # Errors
///
/// `Shape` only where a stage refuses the shape of the plane below it, with the number of the first such one; there are
/// layers only where none refuses. `Memory` when out of memory.
pub(crate) fn layers_of<S: Stage>(
    alloc: Global,
    input: Shape,
    stages: &[S],
) -> Result<Vec<Layer>, OpenFault>
    requires shape { IsShape input }
    requires few { length stages.now ≤ 64 }
    ensures layers { IfOk result (λ layers. AreLayers S.takes S.shaped input stages.now layers.items) }
    ensures refused { IfErr result (λ fault. (k : ℕ) → fault ≡ OpenFault.Shape k
        → IsFirstRefusal S.takes S.shaped stages.now input k) }
{
    let mut layers = Vec::new(alloc);
    let mut input = input;
    for stage in stages {
        let Some(shape) = stage.shape(input) else {
            return Err(OpenFault::Shape {
                stage: layers.len() as u32 + 1,
            });
        };
        let Ok(()) = layers.push(Layer { input, shape }) else {
            return Err(OpenFault::Memory);
        };
        input = shape;
    }
    Ok(layers)
}
