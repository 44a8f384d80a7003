//! How a run ends.

ghost use Rattle.std.specs.Prelude.{◌≡◌};
ghost use Rattle.developer.specs.Run.{status_number};
ghost use Rattle.developer.specs.inner.Endings.{status_after, status_of};

use crate::writing::Cause;
use raw_io::{Failed, WriteFault};
use std::alloc::AllocError;

/// How a run ended.
#[derive(Clone, Copy, Debug, PartialEq, Eq)]
pub enum Status {
    /// Each line of the script was answered.
    Done,
    /// The words aren't those of the usage line.
    Usage,
    /// The frame was refused.
    Frame,
    /// The settings file was refused.
    Settings,
    /// A read of the frame, of the settings file or of the script failed.
    ReadFault,
    /// A write failed.
    WriteFault,
    /// Memory ran out.
    Memory,
    /// The script has more than 2^24 bytes.
    ScriptTooLong,
}

impl Status {
    /// The number with which the program ends.
    pub fn number(self) -> u8
        ensures { result ≡ status_number self }
    {
        match self {
            Status::Done => 0,
            Status::Usage => 1,
            Status::Frame => 2,
            Status::Settings => 3,
            Status::ReadFault => 4,
            Status::WriteFault => 5,
            Status::Memory => 6,
            Status::ScriptTooLong => 7,
        }
    }
}

/// Why a run ends before it has answered a whole script: each early end is the status of the same name.
#[derive(Clone, Copy, Debug, PartialEq, Eq)]
pub(crate) enum Ending {
    /// The words aren't those of the usage line, which was written.
    Usage,
    /// The frame was refused, and its line was written.
    Frame,
    /// The settings file was refused, and its line was written.
    Settings,
    /// A read failed.
    ReadFault,
    /// A write failed.
    WriteFault,
    /// Memory ran out.
    Memory,
    /// The script is too long, and the complete lines of its prefix were answered.
    ScriptTooLong,
}

impl Ending {
    /// The status of a run that ends so.
    pub(crate) fn status(self) -> Status
        ensures { result ≡ status_of self }
    {
        match self {
            Ending::Usage => Status::Usage,
            Ending::Frame => Status::Frame,
            Ending::Settings => Status::Settings,
            Ending::ReadFault => Status::ReadFault,
            Ending::WriteFault => Status::WriteFault,
            Ending::Memory => Status::Memory,
            Ending::ScriptTooLong => Status::ScriptTooLong,
        }
    }
}

/// The status of a run that ended early, or with its script.
pub(crate) fn status_after(ended: Result<(), Ending>) -> Status
    ensures { result ≡ status_after ended }
{
    match ended {
        Ok(()) => Status::Done,
        Err(ending) => ending.status(),
    }
}

impl From<WriteFault> for Ending {
    ghost use Rattle.developer.specs.declared.status.Ending.TheVariants as endings;

    ghost from_gives = { λ _ e. e ≡ endings.WriteFault };

    fn from(_: WriteFault) -> Self {
        Ending::WriteFault
    }
}

impl From<AllocError> for Ending {
    ghost use Rattle.developer.specs.declared.status.Ending.TheVariants as endings;

    ghost from_gives = { λ _ e. e ≡ endings.Memory };

    fn from(_: AllocError) -> Self {
        Ending::Memory
    }
}

impl From<Failed> for Ending {
    ghost use Rattle.developer.specs.declared.status.Ending.TheVariants as endings;

    ghost from_gives = { λ _ e. e ≡ endings.ReadFault };

    fn from(_: Failed) -> Self {
        Ending::ReadFault
    }
}

impl From<Cause> for Ending {
    ghost use Rattle.developer.specs.inner.Endings.{ending_of};

    ghost from_gives = { λ cause e. e ≡ ending_of cause };

    fn from(cause: Cause) -> Self {
        match cause {
            Cause::Write => Ending::WriteFault,
            Cause::Memory => Ending::Memory,
        }
    }
}
