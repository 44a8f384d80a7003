//! Linear values of raw ones: the linearisation table, the black levels, and the scale from black to white (DNG 1.6,
//! chapter 5, "Mapping Raw Values to Linear Reference Values").
#![tactic(auto)]

ghost use Rattle.std.specs.Prelude.{ℕ, pos, None, ◌≤ℤ◌};
ghost use Rattle.dng_tags.specs.Black.{span_of};
ghost use Rattle.dng_tags.specs.Facts.{AreLevels};
ghost use Rattle.dng_tags.specs.declared.record.Levels.{Levels};
ghost use Rattle.linearise.specs.Settings.{under};

mod blacks;
mod fault;
mod parts;
mod rows;
mod scale;
mod settings;
mod stage;

pub use fault::LineariseFault;
pub use stage::Linearise;

/// The levels of a frame's own record, where no setting counts, are never refused by [`Linearise::new`]: its white is
/// above every black level.
pub fn frame_spans()
    ensures { (levels : Levels) (rows cols : ℕ) → AreLevels levels rows cols
        → span_of (under levels None None) rows cols ≤ℤ pos 0 → ⊥ }
{}
