//! Why linear values can't be made.

use std::alloc::AllocError;
use std::error::Error;
use std::fmt;

/// Why a stage of linear values can't be made.
#[derive(Clone, Copy, Debug, PartialEq, Eq)]
pub enum LineariseFault {
    /// The white level isn't above every black level of the area.
    Levels,
    /// Out of memory, for the black levels or the table.
    Memory,
}

impl fmt::Display for LineariseFault {
    fn fmt<W: fmt::Write>(&self, f: &mut fmt::Formatter<W>) -> fmt::Result {
        match self {
            LineariseFault::Levels => write!(f, "the white level isn't above every black level"),
            LineariseFault::Memory => write!(f, "out of memory"),
        }
    }
}

impl Error for LineariseFault {}

impl From<AllocError> for LineariseFault {
    ghost use Rattle.std.specs.Prelude.{◌≡◌};
    ghost use Rattle.linearise.specs.declared.fault.LineariseFault.TheVariants.{Memory};

    ghost from_gives = { λ _ fault. fault ≡ Memory };

    fn from(_: AllocError) -> LineariseFault {
        LineariseFault::Memory
    }
}
