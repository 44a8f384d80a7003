//! Why a session isn't opened, or a stage not replaced.

use plane_view::Shape;
use std::alloc::AllocError;
use std::error::Error;
use std::fmt;

/// Why a session isn't opened.
#[derive(Clone, Copy, Debug, PartialEq, Eq)]
pub enum OpenFault {
    /// This stage, counted from 1, is the first that refuses the shape of the plane below it.
    Shape { stage: u32 },
    /// Out of memory.
    Memory,
}

impl fmt::Display for OpenFault {
    fn fmt<W: fmt::Write>(&self, f: &mut fmt::Formatter<W>) -> fmt::Result {
        match self {
            OpenFault::Shape { stage } => write!(
                f,
                "stage {stage} refuses the shape of the plane below it"
            ),
            OpenFault::Memory => write!(f, "out of memory"),
        }
    }
}

impl Error for OpenFault {}

impl From<AllocError> for OpenFault {
    ghost use Rattle.std.specs.Prelude.{◌≡◌};
    ghost use Rattle.region_session.specs.declared.faults.OpenFault.TheVariants.{Memory};

    ghost from_gives = { λ _ fault. fault ≡ Memory };

    fn from(_: AllocError) -> OpenFault {
        OpenFault::Memory
    }
}

/// A stage wasn't replaced, since the new one makes another shape of the plane below, or refuses it.
#[derive(Clone, Copy, Debug, PartialEq, Eq)]
pub struct ShapeChanged {
    /// The shape of what the present stage makes.
    pub had: Shape,
    /// The shape of what the new one would make; `None` where it refuses the plane below.
    pub got: Option<Shape>,
}

impl fmt::Display for ShapeChanged {
    fn fmt<W: fmt::Write>(&self, f: &mut fmt::Formatter<W>) -> fmt::Result {
        match self.got {
            Some(_) => write!(
                f,
                "the new stage makes a plane of another shape than the present one"
            ),
            None => write!(f, "the new stage refuses the plane below it"),
        }
    }
}

impl Error for ShapeChanged {}
