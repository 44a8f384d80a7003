//! A frame's samples as its segments are fetched, against a formula.

ghost use Rattle.std.specs.Prelude.{◌≡◌, ◌<◌};

use dng_tags::{FrameFault, MAX_BYTES, read_frame};
use frame_segments::Segments;
use plane_view::{Rect, TileMut, View};
use stage_core::{Base, Steps};
use std::alloc::{AllocError, Global};
use std::marker::Brand;
use std::sync::ledger::{Blank, Ledger};

/// What each sample of a raw image is, by its row and its column.
#[derive(Clone, Copy)]
pub enum Formula {
    /// (4099 * (r % period) + 641 * c) % 2^depth.
    Repeated { depth: u32, period: u32 },
    /// (number + 37 * r + 101 * c + r * c) % 4096.
    Made { number: u32 },
}

impl Formula {
    fn sample(self, r: u32, c: u32) -> u32 {
        match self {
            Formula::Repeated { depth, period } => {
                let down = r.checked_rem(period).unwrap_or(0).wrapping_mul(4099);
                let sample = down.wrapping_add(c.wrapping_mul(641));
                sample & 1u32.wrapping_shl(depth).wrapping_sub(1)
            }
            Formula::Made { number } => {
                let across = c.wrapping_mul(101).wrapping_add(r.wrapping_mul(c));
                number.wrapping_add(r.wrapping_mul(37)).wrapping_add(across) & 4095
            }
        }
    }
}

/// How many samples of a cell are wrong.
fn wrong_in(view: &View<'_>, rect: Rect, formula: Formula) -> u32
    requires rect { view.now.rect ≡ rect }
    requires planes { view.now.planes ≡ 1 }
{
    let mut wrong = 0u32;
    for r in rect.top..rect.bottom {
        for c in rect.left..rect.right {
            if u32::from(view.at(r, c, 0)) != formula.sample(r, c) {
                wrong = wrong.saturating_add(1);
            }
        }
    }
    wrong
}

/// How many samples are seen where each cell is fetched, and how many of them are wrong.
fn fetched<B: Base, L: Ledger>(
    alloc: Global,
    base: &mut B,
    formula: Formula,
    blank: Blank,
) -> Result<(u64, u32), AllocError>
    requires name { blank.name ≡ L.name }
    requires parts { blank.parts ≡ L.parts }
    requires some { 0 < blank.parts }
    requires planes { (B.plane base.old).planes ≡ 1 }
{
    let mut work = Steps::<L>::new(blank);
    let mut seen = 0u64;
    let mut wrong = 0u32;
    for k in 0..base.cells() {
        let rect = base.cell(k);
        let mut cell = vec![in alloc; 0u16; rect.area() as usize]?;
        base.fetch(k, &mut TileMut::new(rect, 1, &mut cell), &mut work);
        wrong = wrong.saturating_add(wrong_in(&View::new(rect, 1, &cell), rect, formula));
        seen = seen.saturating_add(rect.area());
    }
    Ok((seen, wrong))
}

/// How many samples of a frame's file are read back, and how many of them are wrong.
pub fn read_back(alloc: Global, file: &[u8], formula: Formula) -> Result<(u64, u32), FrameFault> {
    if file.len() as u64 > MAX_BYTES {
        return Err(FrameFault::TooLong);
    }
    let frame = read_frame(alloc, file)?;
    let mut segments = Segments::open(alloc, file, &frame)?;
    match fetched::<Segments<'_>, Brand>(alloc, &mut segments, formula, Blank::new(1)) {
        Ok(counts) => Ok(counts),
        Err(_) => Err(FrameFault::Memory),
    }
}
