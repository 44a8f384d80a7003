//! Why settings give a frame no stages.

use linearise::LineariseFault;
use std::alloc::AllocError;
use thiserror::Error;

/// Why settings give a frame no stages.
#[derive(Clone, Copy, Debug, PartialEq, Eq, Error)]
pub enum PlanFault {
    /// They name a forward matrix that the frame doesn't have.
    #[error("the frame doesn't have the forward matrix that is asked for")]
    Matrix,
    /// Under them the white level isn't above the greatest black level.
    #[error("the white level isn't above the black level")]
    Levels,
    /// Memory ran out.
    #[error("out of memory")]
    Memory,
}

impl From<AllocError> for PlanFault {
    ghost use Rattle.std.specs.Prelude.{◌≡◌};
    ghost use Rattle.dev_stages.specs.declared.fault.PlanFault.TheVariants.{Memory};

    ghost from_gives = { λ _ fault. fault ≡ Memory };

    fn from(_: AllocError) -> PlanFault {
        PlanFault::Memory
    }
}

impl From<LineariseFault> for PlanFault {
    ghost use Rattle.std.specs.Prelude.{◌≡◌};
    ghost use Rattle.dev_stages.specs.inner.Faults.{linear_fault};

    ghost from_gives = { λ linear fault. fault ≡ linear_fault linear };

    fn from(fault: LineariseFault) -> PlanFault {
        match fault {
            LineariseFault::Levels => PlanFault::Levels,
            LineariseFault::Memory => PlanFault::Memory,
        }
    }
}
