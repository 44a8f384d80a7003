//! Sessions: stages over a base, of which rectangles are made and single stages replaced.

ghost use Rattle.std.specs.Prelude.{◌≡◌, ℕ, ◌+◌, ◌-◌, ◌*◌, ◌%◌, ◌<◌, ◌≤◌, ◌^◌, [], length, slice_get, slice_set, true};
ghost use Rattle.std.specs.Prelude.{false, Some, IfOk, IfErr, OnOk, OnErr};
ghost use Rattle.plane_view.specs.Plane.{crop};
ghost use Rattle.plane_view.specs.Rectangles.{area_of};
ghost use Rattle.plane_view.specs.Shapes.{IsShape};
ghost use Rattle.std.specs.Map.{keys_of};
ghost use Rattle.stage_core.specs.Bases.{raised};
ghost use Rattle.stage_core.specs.Planes.{IsPart, IsPlane};
ghost use Rattle.stage_core.specs.Stages.{shape_of};
ghost use Rattle.stage_chain.specs.Chains.{TakeInTurn, whole_of};
ghost use Rattle.stage_deps.specs.Stamping.{begun, changed};
ghost use Rattle.kept_cells.specs.Tiling.{held_in};
ghost use Rattle.region_session.specs.Sessions.{fetched_of, kept_of, keys_after, missing_fetches, missing_runs, ran_of};
ghost use Rattle.region_session.specs.Sessions.{samples_kept};
ghost use Rattle.region_session.specs.Stacks.{IsFirstRefusal, IsShapeOver, last_shape, plane_shape};

use crate::bands::make;
use crate::layers::{Layer, Needed, layers_of};
use crate::patch::Patch;
use crate::planes::Source;
use crate::{OpenFault, ShapeChanged, Tally};
use kept_cells::{Tiles, copy_into};
use plane_view::{Rect, Shape};
use stage_core::{Base, Stage, Steps};
use std::alloc::{AllocError, Global};
use std::marker::Model;
use std::sync::ledger::Ledger;
use tile_cache::Key;

/// Stages one after the other over a base, and cells that are kept under a budget. Contracts see the base's plane,
/// cells and count of fetches, the stages, the stamps and changes, the keys that are held, and how many cells were
/// fetched and run.
///
/// Plane 0 is the base's, with the base's cells; plane k is what stage k, counted from 1, makes of the plane below,
/// with the square cells of its grid. A cell is held where its key with the present stamp of its plane is, and is then
/// right: the crop of its plane under the present stages. There are at most 65,536 keys, and no more samples than the
/// budget.
#[derive(Drop)]
pub struct Session<B: Base, S: Stage> {
    source: Source<B>,
    stages: Vec<S>,
    layers: Vec<Layer>,
    needed: Vec<Needed>,
    patch: Patch,
    tiles: Tiles,
    side: u32,
    ran: u64,
}

impl<B: Base, S: Stage> Model for Session<B, S> {
    ghost use Rattle.std.specs.Prelude.{length};
    ghost use Rattle.tile_cache.specs.Cache.{sizes};
    ghost use Rattle.region_session.specs.Sessions.{Opened};
    ghost use Rattle.region_session.specs.inner.Soundness.{AreSound};

    ghost Value = { Opened S };

    ghost view = { λ s. record {
      plane = B.plane s.source.base;
      cells = B.cells_of s.source.base;
      fetches = B.fetches s.source.base;
      stages = s.stages.items;
      side = s.side;
      budget = s.tiles.cells.budget;
      fetched = s.source.fetched;
      ran = s.ran;
      stamps = s.tiles.stamps;
      keys = sizes s.tiles.cells.pairs;
    } };

    ghost invariant = { λ s. AreSound S.takes S.shaped S.apply (B.plane s.source.base) (B.cells_of s.source.base)
        s.source.cells.items
        s.stages.items s.layers.items (length s.needed.items) s.side s.tiles };
}

impl<B: Base, S: Stage> Session<B, S> {
    /// Opens 1 to 64 stages over a base, with cells of a side of 16 to 512, a multiple of 16, and a budget of samples
    /// of at most 2^30. No cell is held yet, and there was no change.
    ///
    /// # Errors
    ///
    /// `Shape` only where a stage refuses the shape of the plane below it, with the number of the first such one. Over
    /// a stage that refuses no session is opened. `Memory` when out of memory, which may come before a refusal is seen.
    /// The base and the stages are dropped.
    pub fn open(
        alloc: Global,
        base: B,
        stages: Vec<S>,
        side: u32,
        budget: u64,
    ) -> Result<Session<B, S>, OpenFault>
        requires some { 1 ≤ length stages.items }
        requires few { length stages.items ≤ 64 }
        requires least { 16 ≤ side }
        requires most { side ≤ 512 }
        requires multiple { side % 16 ≡ 0 }
        requires budget { budget ≤ 2 ^ 30 }
        ensures opened { IfOk result (λ session. session ≡ record {
          plane = B.plane base;
          cells = B.cells_of base;
          fetches = B.fetches base;
          stages = stages.items;
          side = side;
          budget = budget;
          fetched = 0;
          ran = 0;
          stamps = begun (length stages.items);
          keys = [];
        }) }
        ensures takes { OnOk result (TakeInTurn S.takes S.shaped stages.items (shape_of (B.plane base))) }
        ensures refused { IfErr result (λ fault. (k : ℕ) → fault ≡ OpenFault.Shape k
            → IsFirstRefusal S.takes S.shaped stages.items (shape_of (B.plane base)) k) }
    {
        let layers = layers_of(alloc, base.shape(), &stages)?;
        let cells = cells_of(alloc, &base)?;
        let mut needed = Vec::new(alloc);
        needed.resize_with(stages.len() + 1, || Needed::new(alloc))?;
        let tiles = Tiles::new(alloc, stages.len() as u32, budget)?;
        Ok(Session {
            source: Source {
                base,
                cells,
                fetched: 0,
            },
            stages,
            layers,
            needed,
            patch: Patch::new(alloc),
            tiles,
            side,
            ran: 0,
        })
    }

    /// The shape of the last plane: each stage takes what the one before makes.
    pub fn shape(&self) -> Shape
        ensures shape { result ≡ last_shape S.shaped (shape_of self.now.plane) self.now.stages }
        ensures limits { IsShape result }
        ensures takes { TakeInTurn S.takes S.shaped self.now.stages (shape_of self.now.plane) }
        ensures plane { IsPlane (whole_of S.apply self.now.stages self.now.plane) result }
    {
        let _base = self.source.base.shape();
        self.layers[self.layers.len() - 1].shape
    }

    /// Stage `k`, counted from 1.
    pub fn stage(&self, k: u32) -> &S
        requires least { 1 ≤ k }
        requires most { k ≤ length self.now.stages }
        ensures { slice_get self.now.stages (k - 1) ≡ Some result.now }
    {
        &self.stages[k as usize - 1]
    }

    /// Puts a stage in the place of stage `k`, counted from 1. One that isn't equal to it is a change of plane `k`:
    /// from that plane up the planes get a new stamp, so that no cell of them is held. All keys stay.
    ///
    /// # Errors
    ///
    /// Exactly where it makes another shape of the plane below than the present one, or refuses it. Then nothing
    /// changes, and the new stage is dropped.
    pub fn replace(&mut self, k: u32, stage: S) -> Result<(), ShapeChanged>
        requires least { 1 ≤ k }
        requires most { k ≤ length self.old.stages }
        requires changes { self.old.stamps.changes < 2 ^ 40 }
        ensures replaced { OnOk result (self.new ≡ record self.old {
          stages = slice_set self.old.stages (k - 1) stage;
          stamps = self.new.stamps;
        }) }
        ensures equal { OnOk result ((former : S) → slice_get self.old.stages (k - 1) ≡ Some former
            → S.eq former stage ≡ true
            → self.new.stamps ≡ self.old.stamps) }
        ensures other { OnOk result ((former : S) → slice_get self.old.stages (k - 1) ≡ Some former
            → S.eq former stage ≡ false
            → self.new.stamps ≡ changed k self.old.stamps) }
        ensures same { OnOk result
            (IsShapeOver S.takes S.shaped stage (plane_shape S.shaped (shape_of self.old.plane) self.old.stages (k - 1))
            (Some (plane_shape S.shaped (shape_of self.old.plane) self.old.stages k))) }
        ensures had { IfErr result (λ fault. fault.had ≡ plane_shape S.shaped (shape_of self.old.plane) self.old.stages
            k) }
        ensures got { IfErr result
            (λ fault. IsShapeOver S.takes S.shaped stage (plane_shape S.shaped (shape_of self.old.plane) self.old.stages
            (k - 1)) fault.got) }
        ensures changed { IfErr result (λ fault. fault.got ≡ Some fault.had → ⊥) }
        ensures takes { TakeInTurn S.takes S.shaped self.old.stages (shape_of self.old.plane) }
        ensures unchanged { OnErr result (self.new ≡ self.old) }
    {
        let Layer { input, shape } = self.layers[k as usize - 1];
        let got = stage.shape(input);
        if got != Some(shape) {
            return Err(ShapeChanged { had: shape, got });
        }
        let equal = self.stages[k as usize - 1] == stage;
        change_unless(equal, &mut self.tiles, k);
        self.stages[k as usize - 1] = stage;
        Ok(())
    }

    /// Writes a rectangle of the last plane, which has pixels: row by row, the planes of a pixel side by side. As many
    /// cells are fetched and run as it needs that aren't held, and `work` and the counts rise by so many. What is
    /// needed of a plane are the cells that meet what the missing ones of the plane above rest on.
    ///
    /// Keys of needed cells that were held come to the front, from the last plane down; then those of missing cells are
    /// put, from plane 0 up, within a plane by rising number. Under a budget of 0, where no key is held, none is held
    /// after.
    ///
    /// # Errors
    ///
    /// Out of memory. Then `out` holds anything, the counts have any value, and any keys may be held; the base's plane,
    /// the stages and the stamps stay, and each cell that is held is right.
    pub fn band<L: Ledger>(
        &mut self,
        rect: Rect,
        out: &mut [u16],
        work: &mut Steps<L>,
    ) -> Result<(), AllocError>
        requires rect { IsPart rect (last_shape S.shaped (shape_of self.old.plane) self.old.stages) }
        requires long { length out.old
            ≡ area_of rect * (last_shape S.shaped (shape_of self.old.plane) self.old.stages).planes }
        ensures crop { OnOk result (out.new ≡ (crop (whole_of S.apply self.old.stages self.old.plane) rect).samples) }
        ensures work { OnOk result
            (work.new ≡ work.old + (missing_fetches S.shaped S.needed self.old rect + missing_runs S.shaped S.needed
            self.old rect)) }
        ensures session { OnOk result (self.new ≡ record self.old {
          fetches = raised self.old.fetches (missing_fetches S.shaped S.needed self.old rect);
          fetched = raised self.old.fetched (missing_fetches S.shaped S.needed self.old rect);
          ran = raised self.old.ran (missing_runs S.shaped S.needed self.old rect);
          keys = keys_after S.shaped S.needed self.old rect;
        }) }
        ensures nothing { OnOk result (self.old.budget ≡ 0 → self.old.keys ≡ [] → self.new.keys ≡ []) }
        ensures kept_as_was { self.new ≡ record self.old {
          fetches = self.new.fetches;
          fetched = self.new.fetched;
          ran = self.new.ran;
          keys = self.new.keys;
        } }
    {
        let alloc = *self.source.cells.allocator();
        let _shape = self.source.base.shape();
        make(
            alloc,
            &mut self.source,
            self.side,
            &self.stages,
            &self.layers,
            &mut self.needed,
            &[rect],
            &mut self.tiles,
            &mut self.patch,
            &mut self.ran,
            work,
        )?;
        copy_into(rect, self.patch.planes(), out, &self.patch.view());
        Ok(())
    }

    /// How many cells were fetched since opening, held at 2^64 - 1.
    pub fn fetched(&self) -> u64
        ensures { result ≡ self.now.fetched }
    {
        self.source.fetched
    }

    /// How many cells were run since opening, held at 2^64 - 1.
    pub fn ran(&self) -> u64
        ensures { result ≡ self.now.ran }
    {
        self.ran
    }

    /// How many changes there were.
    pub fn changes(&self) -> u64
        ensures { result ≡ self.now.stamps.changes }
    {
        self.tiles.stamps.changes()
    }

    /// How many samples are kept.
    pub fn kept(&self) -> u64
        ensures sum { result ≡ samples_kept self.now }
        ensures within { result ≤ self.now.budget }
    {
        self.tiles.total()
    }

    /// The budget of samples that it was opened with.
    pub fn budget(&self) -> u64
        ensures { result ≡ self.now.budget }
    {
        self.tiles.budget
    }

    /// The side of the cells that it was opened with, from 16 to 512.
    pub fn side(&self) -> u32
        ensures side { result ≡ self.now.side }
        ensures least { 16 ≤ result }
        ensures most { result ≤ 512 }
    {
        self.side
    }

    /// The keys that are held, the most recent first.
    ///
    /// # Errors
    ///
    /// Out of memory.
    pub fn keys(&self) -> Result<Vec<Key>, AllocError>
        ensures { IfOk result (λ keys. keys.items ≡ keys_of self.now.keys) }
    {
        self.tiles.cells.keys()
    }

    /// Ends the session: the numbers of the tally rise by its own, at most to 2^64 - 1.
    pub fn close(self, into: &mut Tally)
        ensures fetched { fetched_of into.new ≡ raised (fetched_of into.old) self.fetched }
        ensures ran { ran_of into.new ≡ raised (ran_of into.old) self.ran }
        ensures kept { kept_of into.new ≡ raised (kept_of into.old) (samples_kept self) }
        ensures nothing { self.fetched ≡ 0 → self.ran ≡ 0 → samples_kept self ≡ 0 → into.new ≡ into.old }
    {
        into.raise(self.fetched(), self.ran(), self.kept());
    }
}

/// The rectangles of a base's cells.
fn cells_of<B: Base>(alloc: Global, base: &B) -> Result<Vec<Rect>, AllocError>
    ensures { IfOk result (λ cells. cells.items ≡ B.cells_of base.now) }
{
    let mut cells = Vec::new(alloc);
    for k in 0..base.cells() {
        cells.push(base.cell(k))?;
    }
    Ok(cells)
}

/// One change more, of plane `k`, unless a stage was replaced by an equal one.
fn change_unless(equal: bool, tiles: &mut Tiles, k: u32)
    requires some { 1 ≤ k }
    requires plane { k < length tiles.old.stamps.stamps }
    requires few { tiles.old.stamps.changes < 2 ^ 40 }
    ensures equal { equal ≡ true → tiles.new.stamps ≡ tiles.old.stamps }
    ensures other { equal ≡ false → tiles.new.stamps ≡ changed k tiles.old.stamps }
    ensures planes { length tiles.new.stamps.stamps ≡ length tiles.old.stamps.stamps }
    ensures cells { tiles.new.cells ≡ tiles.old.cells }
    ensures stale { equal ≡ false → (p n : ℕ) → k ≤ p → p < length tiles.old.stamps.stamps
        → (held_in tiles.new.cells tiles.new.stamps.stamps).holds p n ≡ false }
    ensures holds { (p n : ℕ) → p < k → (held_in tiles.new.cells tiles.new.stamps.stamps).holds p n
        ≡ (held_in tiles.old.cells tiles.old.stamps.stamps).holds p n }
    ensures samples { (p n : ℕ) → p < k → (held_in tiles.new.cells tiles.new.stamps.stamps).samples p n
        ≡ (held_in tiles.old.cells tiles.old.stamps.stamps).samples p n }
{
    if !equal {
        tiles.change(k);
    }
}
