//! Whole planes, which keep their memory for others.

ghost use Rattle.std.specs.Prelude.{◌≡◌, ◌+◌, ◌-◌, ◌*◌, ◌≤◌, ◌<◌, length, take, drop, IfOk, OnErr, OnOk};
ghost use Rattle.plane_view.specs.Plane.{IsWhole};
ghost use Rattle.plane_view.specs.Shapes.{IsShape};
ghost use Rattle.stage_core.specs.Bases.{raised};
ghost use Rattle.stage_core.specs.Planes.{IsPlane};
ghost use Rattle.stage_core.specs.Stages.{shape_of};
ghost use Rattle.stage_chain.specs.inner.Samples.{sample_count};

use plane_view::Shape;
use stage_core::{Base, Steps, fetch_all};
use std::alloc::{AllocError, Global};
use std::marker::Model;
use std::sync::ledger::Ledger;

/// A whole plane. Contracts see it as a plane of samples.
#[derive(Drop)]
pub struct WholePlane {
    pub(crate) shape: Shape,
    /// Row by row, the planes of a pixel side by side.
    pub(crate) samples: Vec<u16>,
}

impl Model for WholePlane {
    ghost use Rattle.std.specs.Prelude.{◌≡◌, length};
    ghost use Rattle.plane_view.specs.Plane.{Plane};
    ghost use Rattle.plane_view.specs.Shapes.{IsShape};
    ghost use Rattle.stage_chain.specs.inner.Samples.{sample_count};

    ghost Value = { Plane };

    ghost view = { λ w. record {
      rows = w.shape.rows;
      cols = w.shape.cols;
      planes = w.shape.planes;
      samples = w.samples.items;
    } };

    ghost invariant = { λ w. IsShape w.shape × (length w.samples.items ≡ sample_count w.shape) };
}

impl WholePlane {
    /// Fetches each cell of a base once, in order, and has the base's plane.
    ///
    /// # Errors
    ///
    /// Where there is no memory; then nothing was fetched.
    pub fn fetch<B: Base, L: Ledger>(
        alloc: Global,
        base: &mut B,
        work: &mut Steps<L>,
    ) -> Result<WholePlane, AllocError>
        ensures plane { IfOk result (λ plane. plane ≡ B.plane base.old) }
        ensures fetched { OnOk result (work.new ≡ work.old + length (B.cells_of base.old)) }
        ensures count { OnOk result (B.fetches base.new ≡ raised (B.fetches base.old) (length (B.cells_of base.old))) }
        ensures none { OnErr result (work.new ≡ work.old) }
        ensures untouched { OnErr result (base.new ≡ base.old) }
        ensures base_plane { B.plane base.new ≡ B.plane base.old }
        ensures base_cells { B.cells_of base.new ≡ B.cells_of base.old }
    {
        let shape = base.shape();
        let mut samples = vec![in alloc; 0u16; sample_count(shape)]?;
        fetch_all(base, &mut samples, work);
        Ok(WholePlane { shape, samples })
    }

    /// Its shape.
    pub fn shape(&self) -> Shape
        ensures shape { result ≡ shape_of self.now }
        ensures limits { IsShape result }
        ensures plane { IsPlane self.now result }
    {
        self.shape
    }

    /// The samples of the pixels of a row from column `left` up to column `right`, the planes of a pixel side by side.
    pub fn row(&self, row: u32, left: u32, right: u32) -> &[u16]
        requires row { row < self.now.rows }
        requires left { left ≤ right }
        requires right { right ≤ self.now.cols }
        ensures samples { result.now ≡ take ((right - left) * self.now.planes)
            (drop ((row * self.now.cols + left) * self.now.planes) self.now.samples) }
        ensures length { length result.now ≡ (right - left) * self.now.planes }
        ensures plane { IsPlane self.now (shape_of self.now) }
        ensures limits { IsShape (shape_of self.now) }
    {
        let Shape { cols, planes, .. } = self.shape;
        let first = (row as usize * cols as usize + left as usize) * planes as usize;
        let count = (right - left) as usize * planes as usize;
        &self.samples[first..first + count]
    }
}

/// How many samples a plane of a shape has.
pub(crate) fn sample_count(shape: Shape) -> usize
    requires { IsShape shape }
    ensures { result ≡ sample_count shape }
{
    shape.rows as usize * shape.cols as usize * shape.planes as usize
}
