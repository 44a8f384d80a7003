//! The group of the levels of black and white.

ghost use Rattle.std.specs.Prelude.{◌≡◌, ◌-◌, ◌*◌, ◌≤◌, ◌<◌, ◌<ℤ◌, ◌⊎◌, ℕ, ℤ, pos, length, replicate, IfErr, IfOk};
ghost use Rattle.std.specs.Prelude.{IsTrue, Ok, Some};
ghost use Rattle.plane_view.specs.Rectangles.{IsNonEmpty, height, width};
ghost use Rattle.tag_rules.specs.Answers.{Answers};
ghost use Rattle.dng_tags.specs.Black.{levels_of, levels_or, levels_under, repeat_in, repeat_of, spanning, table_of};
ghost use Rattle.dng_tags.specs.Black.{white_of};
ghost use Rattle.dng_tags.specs.Facts.{AreLevels};
ghost use Rattle.tag_rules.specs.Quantities.{AreWithin, level_scale, on_scale};
ghost use Rattle.tag_rules.specs.Tags.{are_fractions, rule_of};
ghost use Rattle.tag_rules.specs.declared.faults.FrameFault.TheVariants.{Levels as LevelsFault, Memory as MemoryFault};

use crate::record::Levels;
use crate::span::span;
use lists::Items;
use plane_view::Rect;
use std::alloc::Global;
use tag_rules::{Directories, Fractions, FrameFault, LEVELS, Tag, Whole};

/// The most rows or columns of a pattern of black levels.
const MAX_REPEAT: u32 = 8;

/// The greatest white level.
const MAX_WHITE: u32 = 65535;

/// The size of a pattern of black levels.
#[derive(Clone, Copy, Debug, PartialEq, Eq)]
pub struct Repeat {
    pub rows: u32,
    pub cols: u32,
}

/// The levels of an active area.
///
/// # Errors
///
/// `Levels`, `Memory`, and what reading the tags is refused for.
#[tactic(auto, unfolding(crate::specs::Black::levels_of, crate::specs::Black::table_of, crate::specs::Black::spanning))]
pub fn read_levels(
    alloc: Global,
    dirs: &Directories<'_>,
    depth: u32,
    active: Rect,
) -> Result<Levels, FrameFault>
    requires depth { depth ≤ 16 }
    requires some { IsNonEmpty active }
    requires rows { active.bottom ≤ 8192 }
    requires cols { active.right ≤ 8192 }
    ensures answer { Answers result (levels_of dirs.now depth active) }
    ensures range { IfOk result (λ levels. AreLevels levels (height active) (width active)) }
{
    let rows = active.bottom - active.top;
    let cols = active.right - active.left;
    let table = dirs.shorts(alloc, Tag::LinearizationTable)?;
    let repeat = read_repeat(dirs)?;
    let count = repeat.rows * repeat.cols;
    let black = read_list(alloc, dirs, Tag::BlackLevel, count, count)?;
    let delta_h = read_list(alloc, dirs, Tag::BlackLevelDeltaH, cols, 0)?;
    let delta_v = read_list(alloc, dirs, Tag::BlackLevelDeltaV, rows, 0)?;
    let white = read_white(dirs, depth)?;
    let levels = Levels {
        table,
        black_rows: repeat.rows,
        black_cols: repeat.cols,
        black,
        delta_h,
        delta_v,
        white,
    };
    if span(&levels, rows, cols) <= 0 {
        return Err(FrameFault::Levels);
    }
    Ok(levels)
}

/// The size of the pattern of black levels.
#[tactic(auto, unfolding(crate::specs::Black::repeat_of))]
fn read_repeat(dirs: &Directories<'_>) -> Result<Repeat, FrameFault>
    ensures answer { result ≡ repeat_of dirs.now }
    ensures rows { IfOk result (λ repeat. (1 ≤ repeat.rows) × (repeat.rows ≤ 8)) }
    ensures cols { IfOk result (λ repeat. (1 ≤ repeat.cols) × (repeat.cols ≤ 8)) }
{
    let repeat = match dirs.whole(Tag::BlackLevelRepeatDim)? {
        Some(dims) => Repeat {
            rows: dims.at(0),
            cols: dims.at(1),
        },
        None => Repeat { rows: 1, cols: 1 },
    };
    if !(1..=MAX_REPEAT).contains(&repeat.rows) || !(1..=MAX_REPEAT).contains(&repeat.cols) {
        return Err(FrameFault::Levels);
    }
    Ok(repeat)
}

/// As many levels as are wanted; where the tag is absent, `zeros` zeros.
#[tactic(auto, unfolding(crate::specs::Black::levels_under))]
fn read_list(
    alloc: Global,
    dirs: &Directories<'_>,
    tag: Tag,
    count: u32,
    zeros: u32,
) -> Result<Items<i32>, FrameFault>
    requires kinds { IsTrue (are_fractions (rule_of tag).kinds) }
    ensures answer { Answers result (levels_under dirs.now tag count zeros) }
    ensures within { IfOk result (AreWithin 16777216) }
    ensures counts { IfOk result (λ levels. (length levels ≡ zeros) ⊎ (length levels ≡ count)) }
{
    match dirs.fractions(tag)? {
        Some(fractions) => levels_in(alloc, &fractions, count),
        None => Ok(Items::from_vec(zero_levels(alloc, zeros)?)),
    }
}

/// As many levels as are wanted.
fn levels_in(alloc: Global, fractions: &Fractions<'_>, count: u32) -> Result<Items<i32>, FrameFault>
    ensures answer { Answers result (levels_or count 0 (Some fractions.now)) }
    ensures within { IfOk result (AreWithin 16777216) }
    ensures counts { IfOk result (λ levels. length levels ≡ count) }
{
    if fractions.len() != count {
        return Err(FrameFault::Levels);
    }
    let mut levels = zero_levels(alloc, count)?;
    if !LEVELS.read(fractions, levels.as_mut_slice()) {
        return Err(FrameFault::Levels);
    }
    Ok(Items::from_vec(levels))
}

/// This many zeros.
fn zero_levels(alloc: Global, count: u32) -> Result<Vec<i32>, FrameFault>
    ensures ok { IfOk result (λ levels. levels.items ≡ replicate count (pos 0)) }
    ensures err { IfErr result (λ fault. fault ≡ MemoryFault) }
{
    match vec![in alloc; 0; count as usize] {
        Ok(levels) => Ok(levels),
        Err(_) => Err(FrameFault::Memory),
    }
}

/// The white level, which is the greatest sample of the depth where the tag is absent.
#[tactic(auto, unfolding(crate::specs::Black::white_of))]
fn read_white(dirs: &Directories<'_>, depth: u32) -> Result<u32, FrameFault>
    requires { depth ≤ 16 }
    ensures answer { result ≡ white_of dirs.now depth }
    ensures range { IfOk result (λ white. (1 ≤ white) × (white ≤ 65535)) }
{
    let white = dirs.number(Tag::WhiteLevel)?.unwrap_or((1 << depth) - 1);
    if !(1..=MAX_WHITE).contains(&white) {
        return Err(FrameFault::Levels);
    }
    Ok(white)
}
