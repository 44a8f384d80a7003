//! Parts of planes in memory that is used again.

ghost use Rattle.std.specs.Prelude.{◌≡◌, ℕ, ◌+◌, ◌*◌, ◌<◌, ◌≤◌, ◌^◌, length, slice_get, Some, true, false, OnOk};
ghost use Rattle.plane_view.specs.Plane.{Plane};
ghost use Rattle.plane_view.specs.Lent.{AgreesWith, lent_crop};
ghost use Rattle.plane_view.specs.Rectangles.{LiesIn, area_of};
ghost use Rattle.plane_view.specs.Shapes.{IsShape};
ghost use Rattle.plane_view.specs.Tiles.{CopiesFrom};
ghost use Rattle.stage_core.specs.Bases.{raised};
ghost use Rattle.stage_core.specs.Planes.{IsPart, IsPlane};
ghost use Rattle.kept_cells.specs.Held.{SameHeld};
ghost use Rattle.kept_cells.specs.Kept.{brought};
ghost use Rattle.region_session.specs.inner.Parts.{part_in};

use kept_cells::Cache;
use plane_view::{Rect, Shape, TileMut, View};
use stage_core::{Base, Stage, Steps};
use std::alloc::{AllocError, Global};
use std::marker::Model;
use std::sync::ledger::Ledger;

/// A part of a plane. Contracts see its rectangle, its number of planes and its samples; its memory may be larger.
#[derive(Drop)]
pub(crate) struct Patch {
    rect: Rect,
    planes: u32,
    samples: Vec<u16>,
}

impl Model for Patch {
    ghost use Rattle.std.specs.Prelude.{◌*◌, ◌≤◌, length};
    ghost use Rattle.plane_view.specs.Rectangles.{area_of};
    ghost use Rattle.plane_view.specs.Lent.{Lent};
    ghost use Rattle.region_session.specs.inner.Parts.{part_in};

    ghost Value = { Lent };

    ghost view = { λ p. part_in p.rect p.planes p.samples.items };

    ghost invariant = { λ p. area_of p.rect * p.planes ≤ length p.samples.items };
}

impl Patch {
    /// A part with no pixel.
    pub fn new(alloc: Global) -> Patch {
        let rect = Rect {
            top: 0,
            left: 0,
            bottom: 0,
            right: 0,
        };
        Patch {
            rect,
            planes: 0,
            samples: Vec::new(alloc),
        }
    }

    /// Makes it a part over another rectangle, with any samples.
    ///
    /// # Errors
    ///
    /// Out of memory, where its own has to grow.
    pub fn reset(&mut self, rect: Rect, planes: u32) -> Result<(), AllocError>
        requires { area_of rect * planes < 2 ^ 32 }
        ensures rect { OnOk result (self.new.rect ≡ rect) }
        ensures planes { OnOk result (self.new.planes ≡ planes) }
    {
        let count = rect.area() as usize * planes as usize;
        if self.samples.len() < count {
            self.samples.resize(count, 0)?;
        }
        self.rect = rect;
        self.planes = planes;
        Ok(())
    }

    /// Its samples, lent.
    pub fn view(&self) -> View<'_>
        ensures { result ≡ self.now }
    {
        let count = self.rect.area() as usize * self.planes as usize;
        View::new(self.rect, self.planes, &self.samples[..count])
    }

    /// The number of planes.
    pub fn planes(&self) -> u32
        ensures { result ≡ self.now.planes }
    {
        self.planes
    }

    /// Runs a stage over a cell of its plane, from a part of the plane below.
    pub fn run<S: Stage, L: Ledger>(
        &mut self,
        stage: &S,
        input: Shape,
        lower: &View<'_>,
        cell: Rect,
        work: &mut Steps<L>,
    )
        requires shape { IsShape input }
        requires takes { S.takes stage.now input }
        requires cell { IsPart cell (S.shaped stage.now input) }
        requires inside { LiesIn cell self.old.rect }
        requires need { LiesIn (S.needed stage.now input cell) lower.now.rect }
        requires lower { lower.now.planes ≡ input.planes }
        requires planes { self.old.planes ≡ (S.shaped stage.now input).planes }
        ensures rect { self.new.rect ≡ self.old.rect }
        ensures planes { self.new.planes ≡ self.old.planes }
        ensures made { (P : Plane) → IsPlane P input → AgreesWith P lower.now (S.needed stage.now input cell)
            → CopiesFrom self.old self.new (lent_crop (S.apply stage.now P) cell) self.old.rect }
        ensures work { work.new ≡ work.old + 1 }
    {
        let Patch { rect, planes, .. } = *self;
        let memory = &mut self.samples;
        run_into(stage, input, lower, cell, rect, planes, memory, work);
    }

    /// Fetches a cell of the base's plane.
    pub fn fetch<B: Base, L: Ledger>(
        &mut self,
        base: &mut B,
        k: u32,
        cell: Rect,
        work: &mut Steps<L>,
    )
        requires cell { slice_get (B.cells_of base.old) k ≡ Some cell }
        requires inside { LiesIn cell self.old.rect }
        requires planes { self.old.planes ≡ (B.plane base.old).planes }
        ensures rect { self.new.rect ≡ self.old.rect }
        ensures planes { self.new.planes ≡ self.old.planes }
        ensures fetched { CopiesFrom self.old self.new (lent_crop (B.plane base.old) cell) self.old.rect }
        ensures work { work.new ≡ work.old + 1 }
        ensures count { B.fetches base.new ≡ raised (B.fetches base.old) 1 }
        ensures plane { B.plane base.new ≡ B.plane base.old }
        ensures cells { B.cells_of base.new ≡ B.cells_of base.old }
    {
        let Patch { rect, planes, .. } = *self;
        let memory = &mut self.samples;
        fetch_into(base, k, cell, rect, planes, memory, work);
    }

    /// Copies the cell of a plane from a cache into a window, if it is held.
    pub fn find<C: Cache>(
        &mut self,
        cache: &mut C,
        plane: u32,
        k: u32,
        cell: Rect,
        window: Rect,
    ) -> bool
        requires inside { LiesIn window self.old.rect }
        requires plane { plane < length (C.marks cache.old).stamps }
        requires size { (C.held cache.old).holds plane k ≡ true → length ((C.held cache.old).samples plane k)
            ≡ area_of cell * self.old.planes }
        ensures found { result ≡ (C.held cache.old).holds plane k }
        ensures rect { self.new.rect ≡ self.old.rect }
        ensures planes { self.new.planes ≡ self.old.planes }
        ensures copies { result ≡ true → CopiesFrom self.old self.new
            (record { rect = cell; planes = self.old.planes; samples = (C.held cache.old).samples plane k }) window }
        ensures stays { result ≡ false → self.new ≡ self.old }
        ensures held { SameHeld (C.held cache.old) (C.held cache.new) }
        ensures brings { result ≡ true → C.kept cache.new ≡ brought (C.kept cache.old) plane k }
        ensures leaves { result ≡ false → C.kept cache.new ≡ C.kept cache.old }
        ensures marks { C.marks cache.new ≡ C.marks cache.old }
    {
        let Patch { rect, planes, .. } = *self;
        let memory = &mut self.samples;
        find_into(cache, plane, k, cell, window, rect, planes, memory)
    }
}

/// Runs a stage over a cell, into the memory of a part that contains it.
fn run_into<S: Stage, L: Ledger>(
    stage: &S,
    input: Shape,
    lower: &View<'_>,
    cell: Rect,
    rect: Rect,
    planes: u32,
    memory: &mut [u16],
    work: &mut Steps<L>,
)
    requires shape { IsShape input }
    requires takes { S.takes stage.now input }
    requires cell { IsPart cell (S.shaped stage.now input) }
    requires inside { LiesIn cell rect }
    requires need { LiesIn (S.needed stage.now input cell) lower.now.rect }
    requires lower { lower.now.planes ≡ input.planes }
    requires planes { planes ≡ (S.shaped stage.now input).planes }
    requires room { area_of rect * planes ≤ length memory.old }
    ensures made { (P : Plane) → IsPlane P input → AgreesWith P lower.now (S.needed stage.now input cell)
        → CopiesFrom (part_in rect planes memory.old) (part_in rect planes memory.new)
        (lent_crop (S.apply stage.now P) cell) rect }
    ensures work { work.new ≡ work.old + 1 }
{
    let count = rect.area() as usize * planes as usize;
    run_tile(
        stage,
        input,
        lower,
        cell,
        rect,
        planes,
        &mut memory[..count],
        work,
    );
}

/// The same, into the samples of the part.
fn run_tile<S: Stage, L: Ledger>(
    stage: &S,
    input: Shape,
    lower: &View<'_>,
    cell: Rect,
    rect: Rect,
    planes: u32,
    samples: &mut [u16],
    work: &mut Steps<L>,
)
    requires shape { IsShape input }
    requires takes { S.takes stage.now input }
    requires cell { IsPart cell (S.shaped stage.now input) }
    requires inside { LiesIn cell rect }
    requires need { LiesIn (S.needed stage.now input cell) lower.now.rect }
    requires lower { lower.now.planes ≡ input.planes }
    requires planes { planes ≡ (S.shaped stage.now input).planes }
    requires long { length samples.old ≡ area_of rect * planes }
    ensures made { (P : Plane) → IsPlane P input → AgreesWith P lower.now (S.needed stage.now input cell)
        → CopiesFrom (record { rect = rect; planes = planes; samples = samples.old })
        (record { rect = rect; planes = planes; samples = samples.new })
        (lent_crop (S.apply stage.now P) cell) rect }
    ensures work { work.new ≡ work.old + 1 }
{
    let mut tile = TileMut::new(rect, planes, samples);
    tile.focus(cell);
    stage.run(lower, input, &mut tile, work);
}

/// Fetches a cell, into the memory of a part that contains it.
fn fetch_into<B: Base, L: Ledger>(
    base: &mut B,
    k: u32,
    cell: Rect,
    rect: Rect,
    planes: u32,
    memory: &mut [u16],
    work: &mut Steps<L>,
)
    requires cell { slice_get (B.cells_of base.old) k ≡ Some cell }
    requires inside { LiesIn cell rect }
    requires planes { planes ≡ (B.plane base.old).planes }
    requires room { area_of rect * planes ≤ length memory.old }
    ensures fetched { CopiesFrom (part_in rect planes memory.old) (part_in rect planes memory.new)
        (lent_crop (B.plane base.old) cell) rect }
    ensures work { work.new ≡ work.old + 1 }
    ensures count { B.fetches base.new ≡ raised (B.fetches base.old) 1 }
    ensures plane { B.plane base.new ≡ B.plane base.old }
    ensures cells { B.cells_of base.new ≡ B.cells_of base.old }
{
    let count = rect.area() as usize * planes as usize;
    fetch_tile(base, k, cell, rect, planes, &mut memory[..count], work);
}

/// The same, into the samples of the part.
fn fetch_tile<B: Base, L: Ledger>(
    base: &mut B,
    k: u32,
    cell: Rect,
    rect: Rect,
    planes: u32,
    samples: &mut [u16],
    work: &mut Steps<L>,
)
    requires cell { slice_get (B.cells_of base.old) k ≡ Some cell }
    requires inside { LiesIn cell rect }
    requires planes { planes ≡ (B.plane base.old).planes }
    requires long { length samples.old ≡ area_of rect * planes }
    ensures fetched { CopiesFrom (record { rect = rect; planes = planes; samples = samples.old })
        (record { rect = rect; planes = planes; samples = samples.new })
        (lent_crop (B.plane base.old) cell) rect }
    ensures work { work.new ≡ work.old + 1 }
    ensures count { B.fetches base.new ≡ raised (B.fetches base.old) 1 }
    ensures plane { B.plane base.new ≡ B.plane base.old }
    ensures cells { B.cells_of base.new ≡ B.cells_of base.old }
{
    let mut tile = TileMut::new(rect, planes, samples);
    tile.focus(cell);
    base.fetch(k, &mut tile, work);
}

/// Copies a cell that is held into the memory of a part.
fn find_into<C: Cache>(
    cache: &mut C,
    plane: u32,
    k: u32,
    cell: Rect,
    window: Rect,
    rect: Rect,
    planes: u32,
    memory: &mut [u16],
) -> bool
    requires inside { LiesIn window rect }
    requires plane { plane < length (C.marks cache.old).stamps }
    requires size { (C.held cache.old).holds plane k ≡ true → length ((C.held cache.old).samples plane k)
        ≡ area_of cell * planes }
    requires room { area_of rect * planes ≤ length memory.old }
    ensures found { result ≡ (C.held cache.old).holds plane k }
    ensures copies { result ≡ true → CopiesFrom (part_in rect planes memory.old) (part_in rect planes memory.new)
        (record { rect = cell; planes = planes; samples = (C.held cache.old).samples plane k }) window }
    ensures stays { result ≡ false → memory.new ≡ memory.old }
    ensures held { SameHeld (C.held cache.old) (C.held cache.new) }
    ensures brings { result ≡ true → C.kept cache.new ≡ brought (C.kept cache.old) plane k }
    ensures leaves { result ≡ false → C.kept cache.new ≡ C.kept cache.old }
    ensures marks { C.marks cache.new ≡ C.marks cache.old }
{
    let count = rect.area() as usize * planes as usize;
    find_tile(
        cache,
        plane,
        k,
        cell,
        window,
        rect,
        planes,
        &mut memory[..count],
    )
}

/// The same, into the samples of the part.
fn find_tile<C: Cache>(
    cache: &mut C,
    plane: u32,
    k: u32,
    cell: Rect,
    window: Rect,
    rect: Rect,
    planes: u32,
    samples: &mut [u16],
) -> bool
    requires inside { LiesIn window rect }
    requires plane { plane < length (C.marks cache.old).stamps }
    requires size { (C.held cache.old).holds plane k ≡ true → length ((C.held cache.old).samples plane k)
        ≡ area_of cell * planes }
    requires long { length samples.old ≡ area_of rect * planes }
    ensures found { result ≡ (C.held cache.old).holds plane k }
    ensures copies { result ≡ true → CopiesFrom (record { rect = rect; planes = planes; samples = samples.old })
        (record { rect = rect; planes = planes; samples = samples.new })
        (record { rect = cell; planes = planes; samples = (C.held cache.old).samples plane k }) window }
    ensures stays { result ≡ false → samples.new ≡ samples.old }
    ensures held { SameHeld (C.held cache.old) (C.held cache.new) }
    ensures brings { result ≡ true → C.kept cache.new ≡ brought (C.kept cache.old) plane k }
    ensures leaves { result ≡ false → C.kept cache.new ≡ C.kept cache.old }
    ensures marks { C.marks cache.new ≡ C.marks cache.old }
{
    let mut tile = TileMut::new(rect, planes, samples);
    tile.focus(window);
    cache.find(plane, k, cell, &mut tile)
}
