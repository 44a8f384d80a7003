//! One plane over a cache: its needed cells that are held are copied, and the missing ones fetched or run, and put.

ghost use Rattle.std.specs.Prelude.{◌≡◌, ℕ, ◌+◌, ◌*◌, ◌<◌, ◌≤◌, ◌^◌, ◌++◌, List, length, map, true, false, OnOk};
ghost use Rattle.std.specs.List.{All};
ghost use Rattle.std.specs.List.Sorted.{IsStrictlyIncreasing};
ghost use Rattle.plane_view.specs.Plane.{Plane};
ghost use Rattle.plane_view.specs.Rectangles.{LiesIn};
ghost use Rattle.plane_view.specs.Shapes.{IsShape};
ghost use Rattle.plane_view.specs.Lent.{AgreesWith};
ghost use Rattle.stage_core.specs.Bases.{AreCells, raised};
ghost use Rattle.stage_core.specs.Planes.{IsPart, IsPlane};
ghost use Rattle.stage_core.specs.Stages.{shape_of};
ghost use Rattle.stage_deps.specs.Cells.{cell_at, cells_at, meeting};
ghost use Rattle.stage_deps.specs.Grids.{grid_cells};
ghost use Rattle.kept_cells.specs.Held.{HasSizes, IsRight, SameHeld, TakesOf, TakesUpTo, fresh, missing};
ghost use Rattle.kept_cells.specs.Kept.{brought_each, keep_base, put_each, size_of};
ghost use Rattle.region_session.specs.inner.Parts.{HasCells, HasWanted, HaveSizes, Shows};

use crate::layers::Needed;
use crate::patch::Patch;
use kept_cells::Cache;
use plane_view::{Rect, Shape, View};
use stage_core::{Base, Stage, Steps};
use stage_deps::{Grid, hull, meeting_cells, needs_of, rects_of};
use std::alloc::{AllocError, Global};
use std::sync::ledger::Ledger;

/// A base, the rectangles of its cells, and how many of them were fetched.
#[derive(Drop)]
pub(crate) struct Source<B> {
    pub base: B,
    pub cells: Vec<Rect>,
    pub fetched: u64,
}

/// A part of a rectangle that has all pixels of it that are in one of these.
fn window_of(around: Rect, wanted: &[Rect]) -> Rect
    ensures inside { LiesIn result around }
    ensures has { HasWanted result around wanted.now }
{
    match around.meet(&hull(wanted)) {
        Some(window) => window,
        None => around,
    }
}

/// Copies the cells of these numbers that are held into a window of a part of their plane, and tells the numbers of the
/// others.
fn copy_fresh<C: Cache>(
    cache: &mut C,
    plane: u32,
    numbers: &[u32],
    rects: &[Rect],
    window: Rect,
    patch: &mut Patch,
    rest: &mut Vec<u32>,
) -> Result<(), AllocError>
    requires plane { plane < length (C.marks cache.old).stamps }
    requires rects { length rects.now ≡ length numbers.now }
    requires window { LiesIn window patch.old.rect }
    requires sizes { HaveSizes (C.held cache.old) plane patch.old.planes numbers.now rects.now }
    ensures rect { patch.new.rect ≡ patch.old.rect }
    ensures planes { patch.new.planes ≡ patch.old.planes }
    ensures held { SameHeld (C.held cache.old) (C.held cache.new) }
    ensures marks { C.marks cache.new ≡ C.marks cache.old }
    ensures missing { OnOk result (rest.new.items ≡ missing (C.held cache.old) plane numbers.now) }
    ensures kept { OnOk result (C.kept cache.new ≡ brought_each (C.kept cache.old) plane
        (fresh (C.held cache.old) plane numbers.now)) }
    ensures cells { OnOk result ((P : Plane) (wanted cells : List Rect) → HasWanted window patch.old.rect wanted
        → P.planes ≡ patch.old.planes → rects.now ≡ cells_at cells numbers.now
        → All (λ k. k < length cells) numbers.now → IsRight (C.held cache.old) plane P cells
        → HasCells P patch.new wanted cells (fresh (C.held cache.old) plane numbers.now)) }
{
    rest.clear();
    for i in 0..numbers.len() {
        if !patch.find(cache, plane, numbers[i], rects[i], window) {
            rest.push(numbers[i])?;
        }
    }
    Ok(())
}

/// Fetches the missing cells of these numbers into a part of the base's plane, and puts them.
fn fetch_missing<B: Base, C: Cache, L: Ledger>(
    alloc: Global,
    base: &mut B,
    cells: &[Rect],
    cache: &mut C,
    numbers: &[u32],
    patch: &mut Patch,
    work: &mut Steps<L>,
) -> Result<(), AllocError>
    requires plane { 0 < length (C.marks cache.old).stamps }
    requires shape { IsShape (shape_of (B.plane base.old)) }
    requires own { AreCells (B.cells_of base.old) (shape_of (B.plane base.old)) }
    requires cells { cells.now ≡ B.cells_of base.old }
    requires numbers { All (λ k. k < length (B.cells_of base.old)) numbers.now }
    requires inside { All (λ k. LiesIn (cell_at (B.cells_of base.old) k) patch.old.rect) numbers.now }
    requires planes { patch.old.planes ≡ (B.plane base.old).planes }
    requires rising { IsStrictlyIncreasing numbers.now }
    requires absent { All (λ k. (C.held cache.old).holds 0 k ≡ false) numbers.now }
    ensures rect { patch.new.rect ≡ patch.old.rect }
    ensures planes { patch.new.planes ≡ patch.old.planes }
    ensures marks { C.marks cache.new ≡ C.marks cache.old }
    ensures copied { OnOk result ((wanted : List Rect) (done : List ℕ)
        → HasCells (B.plane base.old) patch.old wanted (B.cells_of base.old) done
        → HasCells (B.plane base.old) patch.new wanted (B.cells_of base.old) (done ++ numbers.now)) }
    ensures right { IsRight (C.held cache.old) 0 (B.plane base.old) (B.cells_of base.old)
        → IsRight (C.held cache.new) 0 (B.plane base.old) (B.cells_of base.old) }
    ensures others { TakesOf (C.held cache.old) (C.held cache.new) 0 }
    ensures kept { OnOk result (C.kept cache.new ≡ put_each (C.kept cache.old) 0
        (size_of (B.cells_of base.old) (B.plane base.old).planes) numbers.now) }
    ensures work { OnOk result (work.new ≡ work.old + length numbers.now) }
    ensures count { OnOk result (B.fetches base.new ≡ raised (B.fetches base.old) (length numbers.now)) }
    ensures base_plane { B.plane base.new ≡ B.plane base.old }
    ensures base_cells { B.cells_of base.new ≡ B.cells_of base.old }
{
    for k in numbers {
        let cell = cells[*k as usize];
        patch.fetch(base, *k, cell, work);
        cache.put(alloc, 0, *k, cell, &patch.view())?;
    }
    Ok(())
}

/// Runs a stage over the missing cells of these numbers, from a part of the plane below into a part of its own plane,
/// and puts them.
pub(crate) fn run_missing<S: Stage, C: Cache, L: Ledger>(
    alloc: Global,
    cache: &mut C,
    plane: u32,
    stage: &S,
    input: Shape,
    grid: &Grid,
    numbers: &[u32],
    lower: &View<'_>,
    patch: &mut Patch,
    work: &mut Steps<L>,
) -> Result<(), AllocError>
    requires plane { plane < length (C.marks cache.old).stamps }
    requires shape { IsShape input }
    requires takes { S.takes stage.now input }
    requires grid { grid.now.shape ≡ S.shaped stage.now input }
    requires numbers { All (λ k. k < length (grid_cells grid.now.shape grid.now.side)) numbers.now }
    requires inside { All (λ k. LiesIn (cell_at (grid_cells grid.now.shape grid.now.side) k) patch.old.rect)
        numbers.now }
    requires needs { All (λ k. LiesIn (S.needed stage.now input (cell_at (grid_cells grid.now.shape grid.now.side) k))
        lower.now.rect) numbers.now }
    requires lower { lower.now.planes ≡ input.planes }
    requires planes { patch.old.planes ≡ grid.now.shape.planes }
    requires rising { IsStrictlyIncreasing numbers.now }
    requires absent { All (λ k. (C.held cache.old).holds plane k ≡ false) numbers.now }
    ensures rect { patch.new.rect ≡ patch.old.rect }
    ensures planes { patch.new.planes ≡ patch.old.planes }
    ensures marks { C.marks cache.new ≡ C.marks cache.old }
    ensures copied { OnOk result ((P : Plane) (wanted : List Rect) (done : List ℕ) → IsPlane P input
        → All (λ k. AgreesWith P lower.now
        (S.needed stage.now input (cell_at (grid_cells grid.now.shape grid.now.side) k))) numbers.now
        → HasCells (S.apply stage.now P) patch.old wanted (grid_cells grid.now.shape grid.now.side) done
        → HasCells (S.apply stage.now P) patch.new wanted (grid_cells grid.now.shape grid.now.side) (done
        ++ numbers.now)) }
    ensures right { (P : Plane) → IsPlane P input
        → All (λ k. AgreesWith P lower.now
        (S.needed stage.now input (cell_at (grid_cells grid.now.shape grid.now.side) k))) numbers.now
        → IsRight (C.held cache.old) plane (S.apply stage.now P) (grid_cells grid.now.shape grid.now.side)
        → IsRight (C.held cache.new) plane (S.apply stage.now P) (grid_cells grid.now.shape grid.now.side) }
    ensures others { TakesOf (C.held cache.old) (C.held cache.new) plane }
    ensures kept { OnOk result (C.kept cache.new ≡ put_each (C.kept cache.old) plane
        (size_of (grid_cells grid.now.shape grid.now.side) grid.now.shape.planes) numbers.now) }
    ensures work { OnOk result (work.new ≡ work.old + length numbers.now) }
{
    for k in numbers {
        let cell = grid.rect(*k);
        patch.run(stage, input, lower, cell, work);
        cache.put(alloc, plane, *k, cell, &patch.view())?;
    }
    Ok(())
}

/// Opens a part of the base's plane over the cells that meet these rectangles of it: those that are held are copied,
/// and the others fetched once and put.
pub(crate) fn fetch_wanted<B: Base, C: Cache, L: Ledger>(
    alloc: Global,
    source: &mut Source<B>,
    wanted: &[Rect],
    own: &mut Needed,
    cache: &mut C,
    patch: &mut Patch,
    work: &mut Steps<L>,
) -> Result<(), AllocError>
    requires plane { 0 < length (C.marks cache.old).stamps }
    requires cells { source.old.cells.items ≡ B.cells_of source.old.base }
    requires wanted { All (λ rect. IsPart rect (shape_of (B.plane source.old.base))) wanted.now }
    requires right { IsRight (C.held cache.old) 0 (B.plane source.old.base) (B.cells_of source.old.base) }
    ensures planes { OnOk result (patch.new.planes ≡ (B.plane source.old.base).planes) }
    ensures shows { OnOk result (All (Shows (B.plane source.old.base) patch.new) wanted.now) }
    ensures work { OnOk result
        (work.new ≡ work.old + length
        (missing (C.held cache.old) 0 (meeting (B.cells_of source.old.base) wanted.now))) }
    ensures count { OnOk result (B.fetches source.new.base ≡ raised (B.fetches source.old.base)
        (length (missing (C.held cache.old) 0 (meeting (B.cells_of source.old.base) wanted.now)))) }
    ensures fetched { OnOk result
        (source.new.fetched ≡ raised source.old.fetched
        (length (missing (C.held cache.old) 0 (meeting (B.cells_of source.old.base) wanted.now)))) }
    ensures kept { OnOk result (C.kept cache.new ≡ keep_base (C.held cache.old) (C.kept cache.old)
        (B.plane source.old.base).planes (B.cells_of source.old.base) wanted.now) }
    ensures right { IsRight (C.held cache.new) 0 (B.plane source.old.base) (B.cells_of source.old.base) }
    ensures above { TakesUpTo (C.held cache.old) (C.held cache.new) 0 }
    ensures marks { C.marks cache.new ≡ C.marks cache.old }
    ensures base_plane { B.plane source.new.base ≡ B.plane source.old.base }
    ensures base_cells { B.cells_of source.new.base ≡ B.cells_of source.old.base }
    ensures cells { source.new.cells.items ≡ source.old.cells.items }
{
    let shape = source.base.shape();
    meeting_cells(&source.cells, wanted, &mut own.numbers)?;
    rects_of(&source.cells, &own.numbers, &mut own.rects)?;
    let around = hull(&own.rects);
    patch.reset(around, shape.planes)?;
    let window = window_of(around, wanted);
    copy_fresh(
        cache,
        0,
        &own.numbers,
        &own.rects,
        window,
        patch,
        &mut own.missing,
    )?;
    fetch_missing(
        alloc,
        &mut source.base,
        &source.cells,
        cache,
        &own.missing,
        patch,
        work,
    )?;
    source.fetched = source.fetched.saturating_add(own.missing.len() as u64);
    Ok(())
}

/// Opens a part of a stage's plane over the cells that meet these rectangles of it: those that are held are copied, and
/// what the others rest on is told.
pub(crate) fn open_wanted<S: Stage, C: Cache>(
    plane: u32,
    stage: &S,
    input: Shape,
    grid: &Grid,
    wanted: &[Rect],
    own: &mut Needed,
    cache: &mut C,
    patch: &mut Patch,
) -> Result<(), AllocError>
    requires plane { plane < length (C.marks cache.old).stamps }
    requires shape { IsShape input }
    requires takes { S.takes stage.now input }
    requires grid { grid.now.shape ≡ S.shaped stage.now input }
    requires sizes { HasSizes (C.held cache.old) plane grid.now.shape.planes (grid_cells grid.now.shape grid.now.side) }
    ensures lower { own.new.lower ≡ own.old.lower }
    ensures planes { OnOk result (patch.new.planes ≡ grid.now.shape.planes) }
    ensures lie { OnOk result (All (λ rect. LiesIn rect patch.new.rect)
        (cells_at (grid_cells grid.now.shape grid.now.side)
        (meeting (grid_cells grid.now.shape grid.now.side) wanted.now))) }
    ensures missing { OnOk result (own.new.missing.items ≡ missing (C.held cache.old) plane
        (meeting (grid_cells grid.now.shape grid.now.side) wanted.now)) }
    ensures needs { OnOk result (own.new.needs.items ≡ map (S.needed stage.now input)
        (cells_at (grid_cells grid.now.shape grid.now.side)
        (missing (C.held cache.old) plane (meeting (grid_cells grid.now.shape grid.now.side) wanted.now)))) }
    ensures kept { OnOk result (C.kept cache.new ≡ brought_each (C.kept cache.old) plane
        (fresh (C.held cache.old) plane (meeting (grid_cells grid.now.shape grid.now.side) wanted.now))) }
    ensures cells { OnOk result ((P : Plane) → P.planes ≡ grid.now.shape.planes
        → IsRight (C.held cache.old) plane P (grid_cells grid.now.shape grid.now.side)
        → HasCells P patch.new wanted.now (grid_cells grid.now.shape grid.now.side)
        (fresh (C.held cache.old) plane (meeting (grid_cells grid.now.shape grid.now.side) wanted.now))) }
    ensures held { SameHeld (C.held cache.old) (C.held cache.new) }
    ensures marks { C.marks cache.new ≡ C.marks cache.old }
{
    grid.meeting(wanted, &mut own.numbers)?;
    grid.rects_of(&own.numbers, &mut own.rects)?;
    let around = hull(&own.rects);
    patch.reset(around, grid.shape.planes)?;
    let window = window_of(around, wanted);
    copy_fresh(
        cache,
        plane,
        &own.numbers,
        &own.rects,
        window,
        patch,
        &mut own.missing,
    )?;
    grid.rects_of(&own.missing, &mut own.rects)?;
    needs_of(stage, input, &own.rects, &mut own.needs)
}
