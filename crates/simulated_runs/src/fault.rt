use rotating_pick::OutOfMemory;
use std::error::Error;
use std::fmt;

/// Why a job was not simulated.
#[derive(Clone, Copy, Debug, PartialEq, Eq)]
pub enum SimulationFault {
    /// The queues would have places for more cells than the limit.
    TooManyCells {
        /// For how many.
        cells: u64,
    },
    /// There was no memory.
    OutOfMemory,
}

impl fmt::Display for SimulationFault {
    ghost use Rattle.std.specs.Prelude.{Some};
    ghost use Rattle.simulated_runs.specs.Faults.{text_of};

    ghost output = { λ fault. Some (text_of fault) };

    fn fmt<W: fmt::Write>(&self, f: &mut fmt::Formatter<W>) -> fmt::Result {
        match self {
            SimulationFault::TooManyCells { cells } => write!(f, "too many cells: {cells}"),
            SimulationFault::OutOfMemory => f.write_str("out of memory"),
        }
    }
}

impl Error for SimulationFault {}

impl From<OutOfMemory> for SimulationFault {
    ghost use Rattle.std.specs.Prelude.{◌≡◌};
    ghost use Rattle.simulated_runs.specs.declared.fault.SimulationFault.TheVariants.{OutOfMemory as NoMemory};

    ghost from_gives = { λ _ fault. fault ≡ NoMemory };

    fn from(_error: OutOfMemory) -> SimulationFault {
        SimulationFault::OutOfMemory
    }
}
