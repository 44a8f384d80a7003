//! The keys that a session holds, compared with a plain computation of the rule.

ghost use Rattle.std.specs.Prelude.{◌≡◌, ◌<◌, ◌≤◌, ◌^◌, length};

use super::counting::{Done, Near, Whole, make_rect, open};
use super::kept::look;
use plane_view::{Rect, Shape};
use region_session::Session;
use stage_core::Steps;
use stage_deps::Grid;
use std::alloc::{AllocError, Global};
use std::marker::Brand;
use std::sync::ledger::{Blank, Ledger};
use tile_cache::Key;

/// A key, the number of samples of its cell, and the cell.
#[derive(Clone, Copy, Debug, PartialEq, Eq)]
struct Item {
    key: Key,
    size: u64,
}

/// The keys that a session of seven stages holds, the most recent first, as the rule says it.
#[derive(Drop)]
struct Plain {
    items: Vec<Item>,
    stamps: [u64; 8],
    looks: [u32; 8],
    changes: u64,
    budget: u64,
}

impl Plain {
    fn new(alloc: Global, budget: u64) -> Plain {
        Plain {
            items: Vec::new(alloc),
            stamps: [0; 8],
            looks: [0, 0, 0, 2, 0, 0, 0, 0],
            changes: 0,
            budget,
        }
    }

    /// Stage `k` looks so many pixels round itself.
    fn look(&mut self, k: usize, by: u32)
        requires { k ≤ 7 }
    {
        if self.looks[k] == by {
            return;
        }
        self.looks[k] = by;
        self.changes = self.changes.saturating_add(1);
        let changes = self.changes;
        self.stamps[k..].fill(changes);
    }

    /// The item of a key comes to the front, if it is held.
    fn bring(&mut self, alloc: Global, key: Key) -> Result<bool, AllocError> {
        let mut items = Vec::new(alloc);
        for item in &self.items {
            if item.key == key {
                items.push(*item)?;
            }
        }
        let found = !items.is_empty();
        for item in &self.items {
            if item.key != key {
                items.push(*item)?;
            }
        }
        self.items = items;
        Ok(found)
    }

    /// A new item comes to the front, and of the others the first that the budget leaves room for stay.
    fn put(&mut self, alloc: Global, new: Item) -> Result<(), AllocError> {
        if new.size <= self.budget {
            let mut items = Vec::new(alloc);
            items.push(new)?;
            let mut sum = new.size;
            for item in &self.items {
                sum = sum.saturating_add(item.size);
                if sum <= self.budget {
                    items.push(*item)?;
                }
            }
            self.items = items;
        }
        Ok(())
    }

    /// Looks up the cells of a plane that meet one of the rectangles. Of those that aren't held it tells the items, and
    /// what they rest on.
    fn open(
        &mut self,
        alloc: Global,
        plane: u32,
        cells: &[Rect],
        wanted: &[Rect],
        missing: &mut Vec<Item>,
    ) -> Result<Vec<Rect>, AllocError>
        requires { plane ≤ 7 }
    {
        let stamp = self.stamps[plane as usize];
        let by = self.looks[plane as usize];
        let mut below = Vec::new(alloc);
        let mut cell = 0u32;
        for rect in cells {
            if wanted.iter().any(|other| rect.meet(other).is_some()) {
                let key = Key {
                    stage: plane,
                    cell,
                    stamp,
                };
                if !self.bring(alloc, key)? {
                    let size = rect.area();
                    missing.push(Item { key, size })?;
                    below.push(rect.grow(by, &WHOLE))?;
                }
            }
            cell = cell.saturating_add(1);
        }
        Ok(below)
    }

    /// A rectangle of the last plane is made.
    fn band(&mut self, alloc: Global, rect: Rect, cells: &[Rect]) -> Result<(), AllocError> {
        let mut missing = Vec::new(alloc);
        let mut wanted = vec![in alloc; rect; 1]?;
        for i in 0..7u32 {
            wanted = self.open(alloc, 7 - i, cells, &wanted, &mut missing)?;
        }
        self.open(alloc, 0, &[WHOLE], &wanted, &mut missing)?;
        for plane in 0..8u32 {
            for item in &missing {
                if item.key.stage == plane {
                    self.put(alloc, *item)?;
                }
            }
        }
        Ok(())
    }

    /// Whether these are its keys.
    fn has(&self, keys: &[Key]) -> bool {
        let mut rest = keys.iter();
        for item in &self.items {
            if rest.next() != Some(&item.key) {
                return false;
            }
        }
        rest.next().is_none()
    }
}

/// The last plane.
const WHOLE: Rect = Rect {
    top: 0,
    left: 0,
    bottom: 40,
    right: 48,
};

/// The next of a list of numbers that look random, below a limit.
fn next(state: &mut u32, below: u32) -> u32
    requires { 0 < below }
    ensures { result < below }
{
    *state = state.wrapping_mul(1664525).wrapping_add(1013904223);
    (*state >> 16) % below
}

/// A rectangle of the last plane.
fn next_rect(state: &mut u32) -> Rect {
    let top = next(state, 40);
    let left = next(state, 48);
    let bottom = (top + 1 + next(state, 20)).min(40);
    let right = (left + 1 + next(state, 20)).min(48);
    Rect {
        top,
        left,
        bottom,
        right,
    }
}

/// Makes a rectangle after what may be a change, in the session and by the rule, and tells whether both hold the same
/// keys.
fn step<'a, L: Ledger>(
    alloc: Global,
    session: &mut Session<Whole<'a>, Near<'a>>,
    plain: &mut Plain,
    done: &'a Done,
    cells: &[Rect],
    state: &mut u32,
    out: &mut [u16],
    work: &mut Steps<L>,
) -> Result<bool, AllocError>
    requires stages { length session.old.stages ≡ 7 }
    ensures stages { length session.new.stages ≡ 7 }
{
    if next(state, 3) == 0 {
        let k = 1 + next(state, 7);
        let by = next(state, 3);
        look(session, k, by, done);
        plain.look(k as usize, by);
    }
    let rect = next_rect(state);
    make_rect(session, rect, out, work)?;
    plain.band(alloc, rect, cells)?;
    Ok(plain.has(&session.keys()?))
}

/// In how many of 60 steps both hold the same keys.
fn steps<'a, L: Ledger>(
    alloc: Global,
    session: &mut Session<Whole<'a>, Near<'a>>,
    plain: &mut Plain,
    done: &'a Done,
    blank: Blank,
) -> Result<u32, AllocError>
    requires name { blank.name ≡ L.name }
    requires parts { blank.parts ≡ L.parts }
    requires some { 0 < blank.parts }
    requires stages { length session.old.stages ≡ 7 }
{
    let mut work = Steps::<L>::new(blank);
    let shape = Shape {
        rows: 40,
        cols: 48,
        planes: 1,
    };
    let cells = Grid::new(shape, 16).cells(alloc)?;
    let mut out = vec![in alloc; 0u16; 1920]?;
    let mut state = 1;
    let mut same = 0u32;
    for _ in 0..60 {
        if step(
            alloc, session, plain, done, &cells, &mut state, &mut out, &mut work,
        )? {
            same = same.saturating_add(1);
        }
    }
    Ok(same)
}

/// The same under a budget.
fn same_keys(alloc: Global, budget: u64) -> Option<u32>
    requires { budget ≤ 2 ^ 30 }
{
    let done = [Done::new(), Done::new(), Done::new()];
    let Ok(mut session) = open(alloc, 40, 48, 16, budget, 40, &done) else {
        return None;
    };
    let mut plain = Plain::new(alloc, budget);
    steps::<Brand>(alloc, &mut session, &mut plain, &done[2], Blank::new(1)).ok()
}

#[test]
fn holds_the_keys_of_the_rule(rt: HostRuntime) {
    assert!(rt; same_keys(rt.alloc(), 1 << 28) == Some(60));
    assert!(rt; same_keys(rt.alloc(), 4000) == Some(60));
    assert!(rt; same_keys(rt.alloc(), 768) == Some(60));
    assert!(rt; same_keys(rt.alloc(), 0) == Some(60));
}
