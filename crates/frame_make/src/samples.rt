//! The samples of made frames.

ghost use Rattle.std.specs.Prelude.{◌≡◌, ◌≤◌, ◌<◌, IfOk};
ghost use Rattle.frame_make.specs.Made.{made_row, made_sample, made_samples};

use std::alloc::{AllocError, Global};

/// The sample at a row and a column.
fn made_sample(number: u32, row: u32, col: u32) -> u16
    requires row { row ≤ 8192 }
    requires col { col ≤ 8192 }
    ensures { result ≡ made_sample number row col }
{
    let row = u64::from(row);
    let col = u64::from(col);
    ((u64::from(number) + 37 * row + 101 * col + row * col) % 4096) as u16
}

/// The samples of a row.
#[tactic(auto, unfolding(crate::specs::Made::made_row))]
pub fn made_row(alloc: Global, number: u32, w: u32, row: u32) -> Result<Vec<u16>, AllocError>
    requires w { w ≤ 8192 }
    requires row { row ≤ 8192 }
    ensures { IfOk result (λ samples. samples.items ≡ made_row number w row) }
{
    let mut samples = Vec::with_capacity(alloc, w as usize)?;
    for col in 0..w {
        samples.push(made_sample(number, row, col))?;
    }
    Ok(samples)
}

/// The samples of all rows.
#[tactic(auto, unfolding(crate::specs::Made::made_samples))]
pub fn made_samples(alloc: Global, number: u32, w: u32, h: u32) -> Result<Vec<u16>, AllocError>
    requires w { w ≤ 8192 }
    requires h { h ≤ 8192 }
    ensures { IfOk result (λ samples. samples.items ≡ made_samples number w h) }
{
    let mut samples = Vec::with_capacity(alloc, w as usize * h as usize)?;
    for row in 0..h {
        samples.extend_from_slice(&made_row(alloc, number, w, row)?)?;
    }
    Ok(samples)
}
