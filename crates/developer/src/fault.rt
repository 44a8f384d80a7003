//! Why an answer is cut short.

use crate::writing::{Cause, Stop};
use raw_io::WriteFault;
use thiserror::Error;

/// Why an answer is cut short.
#[derive(Clone, Copy, Debug, PartialEq, Eq, Error)]
pub enum AnswerFault {
    /// A write failed: of the answer's bytes, as many as this tells were written.
    #[error("a write failed")]
    Write(WriteFault),
    /// There was no memory.
    #[error("out of memory")]
    Memory,
}

impl From<Stop> for AnswerFault {
    ghost use Rattle.std.specs.Prelude.{◌≡◌};
    ghost use Rattle.developer.specs.inner.Writes.{fault_by};

    ghost from_gives = { λ stop fault. fault ≡ fault_by stop };

    fn from(stop: Stop) -> AnswerFault {
        match stop.cause {
            Cause::Write => AnswerFault::Write(WriteFault {
                written: stop.written,
            }),
            Cause::Memory => AnswerFault::Memory,
        }
    }
}

impl From<AnswerFault> for Cause {
    ghost use Rattle.std.specs.Prelude.{◌≡◌};
    ghost use Rattle.developer.specs.Answered.{cause_of};

    ghost from_gives = { λ fault cause. cause ≡ cause_of fault };

    fn from(fault: AnswerFault) -> Cause {
        match fault {
            AnswerFault::Write(_) => Cause::Write,
            AnswerFault::Memory => Cause::Memory,
        }
    }
}
