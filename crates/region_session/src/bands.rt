//! A part of the last plane over a cache, by the missing cells of each plane that it needs.

ghost use Rattle.std.specs.Prelude.{◌≡◌, ℕ, ◌+◌, ◌*◌, ◌<◌, ◌≤◌, ◌^◌, length, OnOk};
ghost use Rattle.std.specs.List.{All};
ghost use Rattle.plane_view.specs.Shapes.{IsShape};
ghost use Rattle.stage_core.specs.Bases.{raised};
ghost use Rattle.stage_core.specs.Planes.{IsPart, IsPlane};
ghost use Rattle.stage_core.specs.Stages.{shape_of};
ghost use Rattle.stage_chain.specs.Chains.{whole_of};
ghost use Rattle.kept_cells.specs.Held.{AreRight, IsRight, TakesUpTo};
ghost use Rattle.kept_cells.specs.Kept.{keep};
ghost use Rattle.kept_cells.specs.Missing.{count_of_fetches, count_of_runs};
ghost use Rattle.kept_cells.specs.Tiers.{tiers_of};
ghost use Rattle.region_session.specs.inner.Layers.{AreLayers};
ghost use Rattle.region_session.specs.inner.Parts.{Shows};
ghost use Rattle.region_session.specs.Stacks.{last_shape};

use crate::layers::{Layer, Needed};
use crate::patch::Patch;
use crate::planes::{Source, fetch_wanted, open_wanted, run_missing};
use kept_cells::Cache;
use plane_view::Rect;
use stage_core::{Base, Stage, Steps};
use stage_deps::Grid;
use std::alloc::{AllocError, Global};
use std::sync::ledger::Ledger;

/// Makes a patch a part of the last plane that contains these rectangles of it. The needed cells that are held are
/// copied on the way down, each other one is fetched or run once and put on the way up, and nothing is done below a
/// plane of which no cell is missing.
pub(crate) fn make<B: Base, S: Stage, C: Cache, L: Ledger>(
    alloc: Global,
    source: &mut Source<B>,
    side: u32,
    stages: &[S],
    layers: &[Layer],
    needed: &mut [Needed],
    wanted: &[Rect],
    cache: &mut C,
    patch: &mut Patch,
    ran: &mut u64,
    work: &mut Steps<L>,
) -> Result<(), AllocError>
    requires least { 16 ≤ side }
    requires most { side ≤ 512 }
    requires few { length stages.now ≤ 64 }
    requires stamped { length stages.now < length (C.marks cache.old).stamps }
    requires cells { source.old.cells.items ≡ B.cells_of source.old.base }
    requires layers { AreLayers S.takes S.shaped (shape_of (B.plane source.old.base)) stages.now layers.now }
    requires needed { length needed.old ≡ length stages.now + 1 }
    requires wanted { All (λ rect. IsPart rect (last_shape S.shaped (shape_of (B.plane source.old.base)) stages.now))
        wanted.now }
    requires base_right { IsRight (C.held cache.old) 0 (B.plane source.old.base) (B.cells_of source.old.base) }
    requires right { AreRight S.apply (C.held cache.old) 0 (B.plane source.old.base)
        (tiers_of S.shaped side (shape_of (B.plane source.old.base)) stages.now) }
    ensures whole { OnOk result (IsPlane (whole_of S.apply stages.now (B.plane source.old.base))
        (last_shape S.shaped (shape_of (B.plane source.old.base)) stages.now)) }
    ensures planes { OnOk result
        (patch.new.planes ≡ (last_shape S.shaped (shape_of (B.plane source.old.base)) stages.now).planes) }
    ensures shows { OnOk result (All (Shows (whole_of S.apply stages.now (B.plane source.old.base)) patch.new)
        wanted.now) }
    ensures work { OnOk result (work.new ≡ work.old
        + (count_of_fetches (C.held cache.old) S.needed (B.cells_of source.old.base)
        (tiers_of S.shaped side (shape_of (B.plane source.old.base)) stages.now) wanted.now
        + count_of_runs (C.held cache.old) S.needed 0
        (tiers_of S.shaped side (shape_of (B.plane source.old.base)) stages.now) wanted.now)) }
    ensures count { OnOk result (B.fetches source.new.base ≡ raised (B.fetches source.old.base)
        (count_of_fetches (C.held cache.old) S.needed (B.cells_of source.old.base)
        (tiers_of S.shaped side (shape_of (B.plane source.old.base)) stages.now) wanted.now)) }
    ensures fetched { OnOk result (source.new.fetched ≡ raised source.old.fetched
        (count_of_fetches (C.held cache.old) S.needed (B.cells_of source.old.base)
        (tiers_of S.shaped side (shape_of (B.plane source.old.base)) stages.now) wanted.now)) }
    ensures ran { OnOk result (ran.new ≡ raised ran.old
        (count_of_runs (C.held cache.old) S.needed 0 (tiers_of S.shaped side (shape_of (B.plane source.old.base))
        stages.now) wanted.now)) }
    ensures kept { OnOk result (C.kept cache.new ≡ keep (C.held cache.old) S.needed (C.kept cache.old)
        (B.plane source.old.base).planes
        (B.cells_of source.old.base) (tiers_of S.shaped side (shape_of (B.plane source.old.base)) stages.now)
        wanted.now) }
    ensures base_right { IsRight (C.held cache.new) 0 (B.plane source.old.base) (B.cells_of source.old.base) }
    ensures right { AreRight S.apply (C.held cache.new) 0 (B.plane source.old.base)
        (tiers_of S.shaped side (shape_of (B.plane source.old.base)) stages.now) }
    ensures above { TakesUpTo (C.held cache.old) (C.held cache.new) (length stages.now) }
    ensures marks { C.marks cache.new ≡ C.marks cache.old }
    ensures plane { B.plane source.new.base ≡ B.plane source.old.base }
    ensures base_cells { B.cells_of source.new.base ≡ B.cells_of source.old.base }
    ensures cells { source.new.cells.items ≡ source.old.cells.items }
{
    prove!(*ran <= u64::MAX);
    prove!(source.fetched <= u64::MAX);
    let _shape = source.base.shape();
    let Some((own, rest)) = needed.split_last_mut() else {
        unreachable!();
    };
    let Some((stage, below)) = stages.split_last() else {
        return fetch_wanted(alloc, source, wanted, own, cache, patch, work);
    };
    let Some((layer, lower_layers)) = layers.split_last() else {
        unreachable!();
    };
    let plane = stages.len() as u32;
    let grid = Grid::new(layer.shape, side);
    open_wanted(plane, stage, layer.input, &grid, wanted, own, cache, patch)?;
    if own.missing.is_empty() {
        return Ok(());
    }
    make(
        alloc,
        source,
        side,
        below,
        lower_layers,
        rest,
        &own.needs,
        cache,
        &mut own.lower,
        ran,
        work,
    )?;
    run_missing(
        alloc,
        cache,
        plane,
        stage,
        layer.input,
        &grid,
        &own.missing,
        &own.lower.view(),
        patch,
        work,
    )?;
    *ran = ran.saturating_add(own.missing.len() as u64);
    Ok(())
}
