//! A base whose cells are pixels, fetched cell by cell.

ghost use Rattle.std.specs.Prelude.{◌≡◌, ◌+◌, ◌-◌, ◌^◌, ◌<◌, ◌≤◌, length, map};
ghost use Rattle.std.specs.List.{range_with_len};

use crate::{Base, Steps};
use plane_view::{Rect, Shape, TileMut, View};
use std::marker::Brand;
use std::sync::ledger::{Blank, Ledger};
use std::test::Fail;

/// A plane of one row, of which each pixel is a cell.
#[derive(Drop)]
struct Pixels {
    samples: Vec<u16>,
    fetched: u64,
    ghost some: { 0 < length samples.items },
    ghost few: { length samples.items ≤ 8192 },
    ghost held: { fetched ≤ 2 ^ 64 - 1 },
}

impl Base for Pixels {
    ghost plane = { λ b. record { rows = 1; cols = length b.samples.items; planes = 1; samples = b.samples.items } };

    ghost cells_of = { λ b. map (λ k. record { top = 0; left = k; bottom = 1; right = k + 1 })
        (range_with_len 0 (length b.samples.items)) };

    ghost fetches = { λ b. b.fetched };

    ghost held = { λ b. b.held };

    fn shape(&self) -> Shape {
        Shape {
            rows: 1,
            cols: self.samples.len() as u32,
            planes: 1,
        }
    }

    fn cells(&self) -> u32 {
        self.samples.len() as u32
    }

    fn cell(&self, k: u32) -> Rect {
        Rect {
            top: 0,
            left: k,
            bottom: 1,
            right: k + 1,
        }
    }

    fn fetch<L: Ledger>(&mut self, _k: u32, out: &mut TileMut<'_>, work: &mut Steps<L>) {
        out.copy_from(&View::new(self.shape().rect(), 1, &self.samples));
        self.fetched = self.fetched.saturating_add(1);
        work.tick();
    }
}

/// Fetches each cell of a base whose cells are pixels.
fn fetch_all<B: Base, L: Ledger>(base: &mut B, pixels: &mut [u16], blank: Blank)
    requires name { blank.name ≡ L.name }
    requires parts { blank.parts ≡ L.parts }
    requires some { 0 < blank.parts }
    requires planes { (B.plane base.old).planes ≡ 1 }
{
    let mut work = Steps::<L>::new(blank);
    for k in 0..base.cells() {
        let rect = base.cell(k);
        if rect.area() == 1 && (k as usize) < pixels.len() {
            let mut pixel = [0];
            base.fetch(k, &mut TileMut::new(rect, 1, &mut pixel), &mut work);
            pixels[k as usize] = pixel[0];
        }
    }
}

#[test]
fn fetches_cell_by_cell(rt: HostRuntime) -> Result<(), Fail> {
    let samples = Vec::from_array(rt.alloc(), [7, 0, 65535])?;
    let mut base = Pixels {
        samples,
        fetched: 0,
    };
    let mut pixels = [1; 4];
    fetch_all::<Pixels, Brand>(&mut base, &mut pixels, Blank::new(1));
    assert_eq!(rt; pixels, [7, 0, 65535, 1]);
    assert_eq!(rt; base.fetched, 3);
    assert_eq!(rt; base.shape().rect().area(), 3);
    Ok(())
}
