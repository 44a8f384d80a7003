//! Cells of samples under a budget, the most recent first.
#![tactic(auto)]

ghost use Rattle.std.specs.Prelude.{◌≡◌, ◌≤◌, ◌<◌, ◌^◌, ◌↔◌, true, IsTrue, [], length};
ghost use Rattle.std.specs.Prelude.{IfOk, OnOk, OnErr, None, is_some, option_map};
ghost use Rattle.std.specs.Borrow.{sem};
ghost use Rattle.std.specs.List.{sum_by, IsDistinct};
ghost use Rattle.std.specs.Map.{lookup, keys_of};
ghost use Rattle.lru.specs.LruCache.{lru_cache};
ghost use Rattle.tile_cache.specs.Kept.{kept, has_room, put_in};
ghost use Rattle.tile_cache.specs.Cache.{cache, same_key, sizes, total_size, after_get, after_drops, after_put};
ghost use Rattle.tile_cache.specs.inner.Inside.{entry_size};
ghost use Rattle.tile_cache.specs.Ends.{ends_as};

use lru::LruCache;
use std::alloc::{AllocError, Global};
use std::marker::Model;
use std::num::NonZeroUsize;

/// A cell of a plane, as it was at a stamp.
#[derive(Clone, Copy, Debug, PartialEq, Eq, Hash)]
pub struct Key {
    /// The number of the plane, 0 being the base's.
    pub stage: u32,
    /// The number of the cell in its plane.
    pub cell: u32,
    /// The number of the change that the cell was made after.
    pub stamp: u64,
}

/// Cells by their keys, the most recent first, under a budget of samples. Contracts see the list of pairs of a key and
/// samples. Keys are distinct, there are at most `slots` pairs, and all together have at most `budget` samples.
#[derive(Drop)]
pub struct TileCache {
    cells: LruCache<Key, Vec<u16>>,
    slots: u32,
    budget: u64,
    total: u64,
}

impl Model for TileCache {
    ghost use Rattle.tile_cache.specs.Pairs.{Cache};
    ghost use Rattle.tile_cache.specs.inner.Inside.{cache_view, IsSound};

    ghost Value = { Cache };

    ghost view = { cache_view };

    ghost invariant = { IsSound };
}

impl TileCache {
    /// An empty cache of 1 to 65,536 slots, and of a budget of samples of at most 2^30.
    ///
    /// # Errors
    ///
    /// Out of memory.
    pub fn new(alloc: Global, slots: u32, budget: u64) -> Result<TileCache, AllocError>
        requires some_slots { 0 < slots }
        requires few_slots { slots ≤ 65536 }
        requires small_budget { budget ≤ 2 ^ 30 }
        ensures { IfOk result (λ c. c ≡ cache [] slots budget) }
    {
        let capacity = NonZeroUsize::new(slots as usize).unwrap();
        Ok(TileCache {
            cells: LruCache::sparse(alloc, capacity)?,
            slots,
            budget,
            total: 0,
        })
    }

    /// How many samples all cells have.
    pub fn total(&self) -> u64
        ensures total { result ≡ total_size self.now.pairs }
        ensures within { result ≤ self.now.budget }
    {
        self.total
    }

    /// How many cells there are.
    pub fn len(&self) -> u32
        ensures count { result ≡ length self.now.pairs }
        ensures within { result ≤ self.now.slots }
        ensures distinct { IsDistinct same_key (keys_of self.now.pairs) }
    {
        self.cells.len() as u32
    }

    /// Whether there are no cells.
    pub fn is_empty(&self) -> bool
        ensures { IsTrue result ↔ (self.now.pairs ≡ []) }
    {
        self.cells.is_empty()
    }

    /// Whether the cell of a key is held. The order stays.
    pub fn holds(&self, key: &Key) -> bool
        ensures { result ≡ is_some (lookup (same_key key.now) self.now.pairs) }
    {
        self.cells.contains(key)
    }

    /// The samples of a key's cell, if it is held. Its pair comes to the front.
    pub fn get(&mut self, key: &Key) -> Option<&[u16]>
        ensures* after { sem 𝓛 (ends_as self.entry (after_get key.now self.old)) }
        ensures samples { option_map (λ cell. cell.now) result ≡ lookup (same_key key.now) self.old.pairs }
    {
        self.bring_to_front(key);
        self.peek(key)
    }

    /// The pair of the key, if it is there, comes to the front.
    fn bring_to_front(&mut self, key: &Key)
        ensures { self.new ≡ after_get key.now self.old }
    {
        self.cells.promote(key);
    }

    /// The samples of a key's cell, if it is held. The order stays.
    fn peek(&self, key: &Key) -> Option<&[u16]>
        ensures { option_map (λ cell. cell.now) result ≡ lookup (same_key key.now) self.now.pairs }
    {
        match self.cells.peek(key) {
            Some(cell) => Some(cell.as_slice()),
            None => None,
        }
    }

    /// The keys, the most recent first.
    ///
    /// # Errors
    ///
    /// Out of memory.
    pub fn keys(&self) -> Result<Vec<Key>, AllocError>
        ensures { IfOk result (λ keys. keys.items ≡ keys_of self.now.pairs) }
    {
        let alloc = *self.cells.allocator();
        let mut keys = Vec::new(alloc);
        for (key, _) in &self.cells {
            keys.push(*key)?;
        }
        Ok(keys)
    }

    /// Puts a cell whose key isn't held in front. Cells are dropped from the end until it fits the budget and the
    /// slots. A cell of more samples than the budget is dropped itself, and the list stays.
    ///
    /// # Errors
    ///
    /// Out of memory; then the cell is dropped, and so are those that made room for it.
    pub fn put(&mut self, key: Key, cell: Vec<u16>) -> Result<(), AllocError>
        requires { lookup (same_key key) self.old.pairs ≡ None }
        ensures stored { OnOk result (self.new ≡ after_put key cell.items self.old) }
        ensures sizes { OnOk result (sizes self.new.pairs
            ≡ put_in (λ item. item.1) self.old.slots self.old.budget (key, length cell.items) (sizes self.old.pairs)) }
        ensures refused { OnErr result (self.new ≡ after_drops (length cell.items) self.old) }
        ensures only_within { OnErr result (length cell.items ≤ self.old.budget) }
    {
        let size = cell.len() as u64;
        if self.budget < size {
            return Ok(());
        }
        self.total = make_room(&mut self.cells, self.total, size, self.slots, self.budget);
        match self.cells.put(key, cell) {
            Ok(_) => {
                self.total += size;
                Ok(())
            }
            Err(_) => Err(AllocError),
        }
    }
}

/// Whether one cell more, of so many samples, fits the budget and the slots.
fn has_room_for(
    size: u64,
    cells: &LruCache<Key, Vec<u16>>,
    total: u64,
    slots: u32,
    budget: u64,
) -> bool
    requires sum { total ≡ sum_by entry_size cells.now.entries }
    requires within { total ≤ budget }
    requires fits { size ≤ budget }
    requires small { budget ≤ 2 ^ 30 }
    ensures { result ≡ has_room entry_size slots budget size cells.now.entries }
{
    total + size <= budget && cells.len() < slots as usize
}

/// Drops the last cells until there is room for one more, and answers how many samples are left.
fn make_room(
    cells: &mut LruCache<Key, Vec<u16>>,
    total: u64,
    size: u64,
    slots: u32,
    budget: u64,
) -> u64
    requires sum { total ≡ sum_by entry_size cells.old.entries }
    requires within { total ≤ budget }
    requires fits { size ≤ budget }
    requires small { budget ≤ 2 ^ 30 }
    requires some { 0 < slots }
    ensures entries { cells.new ≡ lru_cache (kept entry_size slots budget size cells.old.entries) cells.old.cap }
    ensures total { result ≡ sum_by entry_size cells.new.entries }
    ensures room { has_room entry_size slots budget size cells.new.entries ≡ true }
{
    let mut left = total;
    'drops: while !has_room_for(size, cells, left, slots, budget) {
        let Some((_, cell)) = cells.pop_lru() else {
            return left;
        };
        left -= cell.len() as u64;
    }
    left
}

#[cfg(test)]
mod tests;
