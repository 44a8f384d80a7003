//! Cells under a budget, with the present stamp of each plane.

ghost use Rattle.std.specs.Prelude.{◌≡◌, ℕ, ◌+◌, ◌≤◌, ◌^◌, [], IfOk};
ghost use Rattle.tile_cache.specs.Cache.{cache};
ghost use Rattle.stage_deps.specs.Stamping.{begun};
ghost use Rattle.kept_cells.specs.inner.Keys.{KeysUpTo};

use stage_deps::Stamps;
use std::alloc::{AllocError, Global};
use tile_cache::TileCache;

/// Cells by their keys, under a budget of samples, and the present stamp of each plane.
#[derive(Drop)]
pub struct Tiles {
    pub cells: TileCache,
    pub stamps: Stamps,
    pub budget: u64,
    ghost keys: { KeysUpTo stamps.changes cells.pairs },
    ghost same: { budget ≡ cells.budget },
}

impl Tiles {
    /// No cell, and stamps of planes 0 to `stages`. The budget is at most 2^30.
    ///
    /// # Errors
    ///
    /// Out of memory.
    pub fn new(alloc: Global, stages: u32, budget: u64) -> Result<Tiles, AllocError>
        requires { budget ≤ 2 ^ 30 }
        ensures cells { IfOk result (λ tiles. tiles.cells ≡ cache [] 65536 budget) }
        ensures stamps { IfOk result (λ tiles. tiles.stamps ≡ begun stages) }
    {
        Ok(Tiles {
            cells: TileCache::new(alloc, 65536, budget)?,
            stamps: Stamps::new(alloc, stages)?,
            budget,
        })
    }
}
