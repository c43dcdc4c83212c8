ghost use Rattle.std.specs.Prelude.{◌≡◌};

use forward_table::TableFault;
use pcap_records::PcapFault;
use rotating_pick::OutOfMemory;
use std::alloc::{AllocError, AllocFailed};
use std::error::Error;
use std::fmt;

/// Why a job is refused before its first slot.
#[derive(Clone, Copy, Debug, PartialEq, Eq)]
pub enum PlanFault {
    /// The table's text is no table. The fault is never out of memory.
    Table(TableFault),
    /// A file is no capture. The fault is never out of memory.
    Capture {
        /// The least port whose file is none.
        port: u32,
        /// Why.
        fault: PcapFault,
    },
    /// Two captures differ in their link types.
    MixedLink {
        /// That of port 0, as a file's header has it.
        first: u32,
        /// The first other.
        other: u32,
    },
    /// A port has more arrival slots than the limit for this number of ports.
    TooManySlots {
        /// The least such port.
        port: u32,
        /// Its arrival slots.
        slots: u64,
    },
    /// The captures have more packets than the limit. Only a long job has this limit.
    TooManyPackets {
        /// How many packets.
        packets: u64,
    },
    /// The packets have more cells, counted for each output, than the limit for this number of ports.
    TooManyCells {
        /// How many cells.
        cells: u64,
    },
    /// There was no memory for the plan.
    OutOfMemory,
}

impl fmt::Display for PlanFault {
    ghost use Rattle.std.specs.Prelude.{Some};
    ghost use Rattle.switch_plan.specs.FaultTexts.{text_of};

    ghost output = { λ fault. Some (text_of fault) };

    fn fmt<W: fmt::Write>(&self, f: &mut fmt::Formatter<W>) -> fmt::Result {
        match self {
            PlanFault::Table(fault) => write!(f, "{fault}"),
            PlanFault::Capture { port, fault } => write!(f, "capture {port}: {fault}"),
            PlanFault::MixedLink { first, other } => write!(f, "link types {first} and {other}"),
            PlanFault::TooManySlots { port, slots } => {
                write!(f, "too many slots: port {port} has {slots}")
            }
            PlanFault::TooManyPackets { packets } => write!(f, "too many packets: {packets}"),
            PlanFault::TooManyCells { cells } => write!(f, "too many cells: {cells}"),
            PlanFault::OutOfMemory => f.write_str("out of memory"),
        }
    }
}

impl Error for PlanFault {}

impl From<OutOfMemory> for PlanFault {
    ghost use Rattle.std.specs.Prelude.{◌≡◌};
    ghost use Rattle.switch_plan.specs.declared.fault.PlanFault.TheVariants.{OutOfMemory as NoMemory};

    ghost from_gives = { λ _ fault. fault ≡ NoMemory };

    fn from(_error: OutOfMemory) -> PlanFault {
        PlanFault::OutOfMemory
    }
}

impl From<AllocError> for PlanFault {
    ghost use Rattle.std.specs.Prelude.{◌≡◌};
    ghost use Rattle.switch_plan.specs.declared.fault.PlanFault.TheVariants.{OutOfMemory as NoMemory};

    ghost from_gives = { λ _ fault. fault ≡ NoMemory };

    fn from(_error: AllocError) -> PlanFault {
        PlanFault::OutOfMemory
    }
}

impl<T: Drop> From<AllocFailed<T>> for PlanFault {
    ghost use Rattle.std.specs.Prelude.{◌≡◌};
    ghost use Rattle.switch_plan.specs.declared.fault.PlanFault.TheVariants.{OutOfMemory as NoMemory};

    ghost from_gives = { λ _ fault. fault ≡ NoMemory };

    fn from(_error: AllocFailed<T>) -> PlanFault {
        PlanFault::OutOfMemory
    }
}
