//! What a cache holds after cells are put and looked up.

ghost use Rattle.std.specs.Prelude.{◌≡◌};
ghost use Rattle.tile_cache.specs.Cache.{after_get};

use crate::{Key, TileCache};
use std::alloc::{AllocError, Global};
use std::process::Abort;
use std::test::Fail;

#[derive(Clone, Copy)]
enum Step {
    // A cell of so many samples.
    Put(u32, usize),
    Get(u32),
}

use Step::{Get, Put};

fn key(cell: u32) -> Key {
    Key {
        stage: 1,
        cell,
        stamp: 7,
    }
}

fn put_new(alloc: Global, cache: &mut TileCache, cell: u32, size: usize) -> Result<(), AllocError> {
    let samples = vec![in alloc; 9u16; size]?;
    let key = key(cell);
    if cache.holds(&key) {
        return Ok(());
    }
    cache.put(key, samples)
}

/// Takes the steps, and compares the cells that are held after each, and how many samples they have.
fn take_steps(
    rt: &impl Abort,
    alloc: Global,
    mut cache: TileCache,
    steps: &[(Step, &[u32], u64)],
) -> Result<(), AllocError> {
    for (step, cells, total) in steps {
        match *step {
            Put(cell, size) => put_new(alloc, &mut cache, cell, size)?,
            Get(cell) => {
                cache.get(&key(cell));
            }
        }
        let keys = cache.keys()?;
        assert!(rt; keys.iter().map(|key| key.cell).eq(cells.iter().copied()));
        assert!(rt; cache.total() == *total && cache.len() as usize == cells.len());
    }
    Ok(())
}

#[test]
fn drops_the_last_until_the_new_one_fits(rt: HostRuntime) -> Result<(), Fail> {
    let cache = TileCache::new(rt.alloc(), 2, 10)?;
    let steps: [(Step, &[u32], u64); 9] = [
        (Put(1, 6), &[1], 6),
        (Put(2, 4), &[2, 1], 10),
        (Put(3, 11), &[2, 1], 10),
        (Get(1), &[1, 2], 10),
        (Put(4, 4), &[4, 1], 10),
        (Get(3), &[4, 1], 10),
        // A cell of the whole budget, and one of no samples.
        (Put(5, 10), &[5], 10),
        (Put(6, 0), &[6, 5], 10),
        (Put(7, 0), &[7, 6], 0),
    ];
    Ok(take_steps(&rt, rt.alloc(), cache, &steps)?)
}

#[test]
fn holds_one_cell_in_one_slot(rt: HostRuntime) -> Result<(), Fail> {
    let cache = TileCache::new(rt.alloc(), 1, 10)?;
    let steps: [(Step, &[u32], u64); 2] = [(Put(1, 3), &[1], 3), (Put(2, 3), &[2], 3)];
    Ok(take_steps(&rt, rt.alloc(), cache, &steps)?)
}

#[test]
fn holds_only_empty_cells_under_no_budget(rt: HostRuntime) -> Result<(), Fail> {
    let cache = TileCache::new(rt.alloc(), 2, 0)?;
    let steps: [(Step, &[u32], u64); 2] = [(Put(1, 1), &[], 0), (Put(2, 0), &[2], 0)];
    Ok(take_steps(&rt, rt.alloc(), cache, &steps)?)
}

/// A caller that looks at a cell and goes on with the cache.
fn first_sample(cache: &mut TileCache, key: &Key) -> Option<u16>
    ensures { cache.new ≡ after_get key.now cache.old }
{
    cache.get(key)?.first().copied()
}

#[test]
fn lends_the_samples_of_one_key(rt: HostRuntime) -> Result<(), Fail> {
    let alloc = rt.alloc();
    let mut cache = TileCache::new(alloc, 2, 10)?;
    put_new(alloc, &mut cache, 1, 3)?;
    let held = key(1);
    assert_eq!(rt; first_sample(&mut cache, &held), Some(9));
    for other in [
        Key { stage: 2, ..held },
        Key { cell: 2, ..held },
        Key { stamp: 8, ..held },
    ] {
        assert_eq!(rt; first_sample(&mut cache, &other), None);
        assert_eq!(rt; cache.holds(&other), false);
    }
    assert_eq!(rt; cache.holds(&held), true);
    assert_eq!(rt; cache.is_empty(), false);
    Ok(())
}
