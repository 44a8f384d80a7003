//! Demosaicing: after Malvar, He and Cutler, "High-quality linear interpolation for demosaicing of Bayer-patterned
//! color images" (2004), and by means of the nearest samples.
#![tactic(auto)]

mod filters;
mod pattern;
mod planes;
mod rows;
mod stage;
mod windows;

ghost use Rattle.std.specs.Prelude.{◌≡◌};

pub use planes::whole;
pub use stage::Demosaic;

/// How colours are filled in.
#[derive(Clone, Copy, Debug, PartialEq, Eq)]
pub enum Kind {
    /// By the filters of Malvar, He and Cutler.
    Malvar,
    /// By means of the nearest samples of the wanted colour.
    Bilinear,
}

impl Kind {
    ghost use Rattle.malvar.specs.Demosaic.{reach_of};

    /// How many rows and columns away it reads samples.
    #[inline(always)]
    fn reach(self) -> u32
        ensures { result ≡ reach_of self }
    {
        match self {
            Kind::Malvar => 2,
            Kind::Bilinear => 1,
        }
    }
}
