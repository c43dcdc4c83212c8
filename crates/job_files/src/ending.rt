ghost use Rattle.std.specs.Prelude.{◌≡◌};
ghost use Rattle.job_files.specs.Statuses.{check_status, status_of};

use crate::check_ending::CheckEnding;
use crate::inputs::InputFile;
use rotating_pick::OutOfMemory;
use std::alloc::{AllocError, AllocFailed};
use switch_plan::PlanFault;

/// What a job writes.
#[derive(Clone, Copy, Debug, PartialEq, Eq)]
pub enum Written {
    /// The file of this output.
    Output(u32),
    /// The report's file.
    Report,
    /// The journal's file.
    Journal,
    /// The packets file.
    Packets,
    StandardOutput,
}

/// How a command ends.
#[derive(Clone, Copy, Debug, PartialEq, Eq)]
pub enum Ending {
    /// All is written.
    Done,
    /// The words are not those of a job.
    Usage,
    /// A read of the file was refused.
    ReadFault(InputFile),
    /// The file has more bytes than a file may have.
    TooLong(InputFile),
    /// What the files hold is refused.
    Refused(PlanFault),
    /// The run's journal has this many bytes, more than a journal file may have.
    JournalTooLong(u64),
    /// The packets file would have this many bytes, more than it may have.
    PacketsTooLong(u64),
    OutOfMemory,
    /// A call on what was being written was refused.
    WriteFault(Written),
    /// The end of a check.
    Checked(CheckEnding),
}

impl From<OutOfMemory> for Ending {
    ghost use Rattle.std.specs.Prelude.{◌≡◌};
    ghost use Rattle.job_files.specs.declared.ending.Ending.TheVariants.{OutOfMemory as NoMemory};

    ghost from_gives = { λ _ ending. ending ≡ NoMemory };

    fn from(_error: OutOfMemory) -> Ending {
        Ending::OutOfMemory
    }
}

impl From<AllocError> for Ending {
    ghost use Rattle.std.specs.Prelude.{◌≡◌};
    ghost use Rattle.job_files.specs.declared.ending.Ending.TheVariants.{OutOfMemory as NoMemory};

    ghost from_gives = { λ _ ending. ending ≡ NoMemory };

    fn from(_error: AllocError) -> Ending {
        Ending::OutOfMemory
    }
}

impl<T: Drop> From<AllocFailed<T>> for Ending {
    ghost use Rattle.std.specs.Prelude.{◌≡◌};
    ghost use Rattle.job_files.specs.declared.ending.Ending.TheVariants.{OutOfMemory as NoMemory};

    ghost from_gives = { λ _ ending. ending ≡ NoMemory };

    fn from(_error: AllocFailed<T>) -> Ending {
        Ending::OutOfMemory
    }
}

impl Ending {
    /// The exit status, 0 to 7.
    pub fn status(self) -> u8
        ensures { result ≡ status_of self }
    {
        match self {
            Ending::Done => 0,
            Ending::Usage => 2,
            Ending::ReadFault(_) => 3,
            Ending::TooLong(_)
            | Ending::Refused(_)
            | Ending::JournalTooLong(_)
            | Ending::PacketsTooLong(_) => 4,
            Ending::OutOfMemory => 5,
            Ending::WriteFault(_) => 6,
            Ending::Checked(ending) => check_status(ending),
        }
    }
}

// The exit status of a check.
fn check_status(ending: CheckEnding) -> u8
    ensures { result ≡ check_status ending }
{
    match ending {
        CheckEnding::Yes => 0,
        CheckEnding::ReadFault => 3,
        CheckEnding::TooLong | CheckEnding::Bad { .. } => 4,
        CheckEnding::OutOfMemory => 5,
        CheckEnding::OutFault => 6,
        CheckEnding::No { .. } => 7,
    }
}
