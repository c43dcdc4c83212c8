ghost use Rattle.std.specs.Prelude.{◌≡◌};
ghost use Rattle.simulation_command.specs.Endings.{status_of};

use command_words::WordsFault;
use outside::Failed;
use rotating_pick::OutOfMemory;
use simulated_runs::SimulationFault;

/// Why a command stops.
#[derive(Clone, Copy, Debug, PartialEq, Eq)]
pub enum CommandFault {
    /// The words mean no simulation.
    Usage,
    /// The queues would have places for more than 67,108,864 cells.
    TooManyCells {
        /// For how many.
        cells: u64,
    },
    /// There was no memory.
    OutOfMemory,
    /// A call on standard output was refused.
    OutFault,
}

impl CommandFault {
    /// The exit status, 2 or 4 to 6.
    pub fn status(self) -> u8
        ensures { result ≡ status_of self }
    {
        match self {
            CommandFault::Usage => 2,
            CommandFault::TooManyCells { .. } => 4,
            CommandFault::OutOfMemory => 5,
            CommandFault::OutFault => 6,
        }
    }
}

impl From<WordsFault> for CommandFault {
    ghost use Rattle.std.specs.Prelude.{◌≡◌};
    ghost use Rattle.simulation_command.specs.FaultSteps.{words_fault};

    ghost from_gives = { λ fault into. into ≡ words_fault fault };

    fn from(fault: WordsFault) -> CommandFault {
        match fault {
            WordsFault::Usage => CommandFault::Usage,
            WordsFault::OutOfMemory => CommandFault::OutOfMemory,
        }
    }
}

impl From<SimulationFault> for CommandFault {
    ghost use Rattle.std.specs.Prelude.{◌≡◌};
    ghost use Rattle.simulation_command.specs.FaultSteps.{run_fault};

    ghost from_gives = { λ fault into. into ≡ run_fault fault };

    fn from(fault: SimulationFault) -> CommandFault {
        match fault {
            SimulationFault::TooManyCells { cells } => CommandFault::TooManyCells { cells },
            SimulationFault::OutOfMemory => CommandFault::OutOfMemory,
        }
    }
}

impl From<OutOfMemory> for CommandFault {
    ghost use Rattle.std.specs.Prelude.{◌≡◌};
    ghost use Rattle.simulation_command.specs.declared.fault.CommandFault.TheVariants.{OutOfMemory as NoMemory};

    ghost from_gives = { λ _ into. into ≡ NoMemory };

    fn from(_error: OutOfMemory) -> CommandFault {
        CommandFault::OutOfMemory
    }
}

impl From<Failed> for CommandFault {
    ghost use Rattle.std.specs.Prelude.{◌≡◌};
    ghost use Rattle.simulation_command.specs.declared.fault.CommandFault.TheVariants.{OutFault};

    ghost from_gives = { λ _ into. into ≡ OutFault };

    fn from(_failed: Failed) -> CommandFault {
        CommandFault::OutFault
    }
}
