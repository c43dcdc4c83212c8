use std::alloc::{AllocError, AllocFailed};
use std::error::Error;
use std::fmt;

/// Why a port's packets have no arrival slots.
#[derive(Clone, Copy, Debug, PartialEq, Eq, Hash)]
pub enum PaceFault {
    /// The packets have more arrival slots than a port may have.
    TooLong {
        /// Their arrival slots: the last one plus one.
        slots: u64,
    },
    /// There was no memory for the answer.
    OutOfMemory,
}

impl fmt::Display for PaceFault {
    fn fmt<W: fmt::Write>(&self, f: &mut fmt::Formatter<W>) -> fmt::Result {
        match self {
            PaceFault::TooLong { slots } => write!(f, "too many arrival slots: {slots}"),
            PaceFault::OutOfMemory => f.write_str("out of memory"),
        }
    }
}

impl Error for PaceFault {}

impl From<AllocError> for PaceFault {
    ghost use Rattle.std.specs.Prelude.{◌≡◌};
    ghost use Rattle.line_pace.specs.declared.fault.PaceFault.TheVariants.{OutOfMemory};

    ghost from_gives = { λ _ fault. fault ≡ OutOfMemory };

    fn from(_error: AllocError) -> PaceFault {
        PaceFault::OutOfMemory
    }
}

impl<T: Drop> From<AllocFailed<T>> for PaceFault {
    ghost use Rattle.std.specs.Prelude.{◌≡◌};
    ghost use Rattle.line_pace.specs.declared.fault.PaceFault.TheVariants.{OutOfMemory};

    ghost from_gives = { λ _ fault. fault ≡ OutOfMemory };

    fn from(_error: AllocFailed<T>) -> PaceFault {
        PaceFault::OutOfMemory
    }
}
