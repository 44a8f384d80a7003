//! Frames made by a formula, for programs and tests that need a frame of any size: one strip of samples of 12 bits.
#![tactic(auto)]

ghost use Rattle.std.specs.Prelude.{ℕ, ◌≡◌, ◌≤◌, ◌^◌, length, None, Ok};
ghost use Rattle.dng_tags.specs.Frame.{frame_of};
ghost use Rattle.dng_tags.specs.Raw.{raw, undecoded};
ghost use Rattle.frame_make.specs.Accepted.{AreSides, made_frame, made_plane};
ghost use Rattle.frame_make.specs.Made.{made_bytes};
ghost use Rattle.frame_make.specs.declared.Make.{Make as AnyMake};

mod frame;
mod samples;
mod strips;

pub use frame::make_frame;

/// How the samples of a made frame stand in its strip.
#[derive(Clone, Copy, Debug, PartialEq, Eq)]
pub enum Make {
    /// Two bytes each, the lesser first.
    Plain16,
    /// 12 bits each, packed. A row ends in zero bits up to a whole byte.
    Packed12,
    /// One lossless JPEG stream of precision 12, by predictor 1.
    Lossless,
}

/// Each made frame is accepted: it isn't too long, its record is the one of a frame that is one strip, the strip is
/// decoded, and the raw plane is that of the samples.
pub fn made_is_accepted()
    ensures length { (number w h : ℕ) (kind : AnyMake) → AreSides w h → length (made_bytes number w h kind) ≤ 2 ^ 28 }
    ensures frame { (number w h : ℕ) (kind : AnyMake) → AreSides w h
        → frame_of (made_bytes number w h kind) ≡ Ok (made_frame number w h kind) }
    ensures decoded { (number w h : ℕ) (kind : AnyMake) → AreSides w h
        → undecoded (made_bytes number w h kind) (made_frame number w h kind) ≡ None }
    ensures plane { (number w h : ℕ) (kind : AnyMake) → AreSides w h
        → raw (made_bytes number w h kind) (made_frame number w h kind) ≡ made_plane number w h }
{}
