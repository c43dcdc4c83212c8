ghost use Rattle.std.specs.Prelude.{◌≡◌};

use std::alloc::{AllocError, AllocFailed};
use std::error::Error;
use std::fmt;

/// Why a text is no table. Lines are counted from 1, all lines of the text.
#[derive(Clone, Copy, Debug, PartialEq, Eq)]
pub enum TableFault {
    /// The route line is not of the form.
    BadLine {
        /// The number of the line.
        line: u32,
    },
    /// A bit of the address beyond the prefix length is set.
    HostBits {
        /// The number of the line.
        line: u32,
    },
    /// The list of ports names a port that the switch does not have.
    BadPort {
        /// The number of the line.
        line: u32,
        /// The first such port of the list.
        port: u32,
    },
    /// The level is over 3.
    BadLevel {
        /// The number of the line.
        line: u32,
    },
    /// An earlier line has the same address and length, or both are `*`.
    Repeated {
        /// The number of the line.
        line: u32,
        /// The number of the first such earlier line.
        first: u32,
    },
    /// The text has more than 4,096 route lines.
    TooManyLines {
        /// How many route lines it has.
        count: u32,
    },
    /// There was no memory for the table.
    OutOfMemory,
}

impl fmt::Display for TableFault {
    ghost use Rattle.std.specs.Prelude.{Some};
    ghost use Rattle.forward_table.specs.Texts.{text_of};

    ghost output = { λ fault. Some (text_of fault) };

    fn fmt<W: fmt::Write>(&self, f: &mut fmt::Formatter<W>) -> fmt::Result {
        match self {
            TableFault::BadLine { line } => write!(f, "table line {line}: bad line"),
            TableFault::HostBits { line } => write!(f, "table line {line}: host bits"),
            TableFault::BadPort { line, port } => write!(f, "table line {line}: port {port}"),
            TableFault::BadLevel { line } => write!(f, "table line {line}: level"),
            TableFault::Repeated { line, first } => {
                write!(f, "table line {line}: repeats line {first}")
            }
            TableFault::TooManyLines { count } => write!(f, "table: {count} lines"),
            TableFault::OutOfMemory => f.write_str("out of memory"),
        }
    }
}

impl Error for TableFault {}

impl From<AllocError> for TableFault {
    ghost use Rattle.forward_table.specs.declared.faults.TableFault.TheVariants.{OutOfMemory};

    ghost from_gives = { λ _ e. e ≡ OutOfMemory };

    fn from(_error: AllocError) -> TableFault {
        TableFault::OutOfMemory
    }
}

impl<T: Drop> From<AllocFailed<T>> for TableFault {
    ghost use Rattle.forward_table.specs.declared.faults.TableFault.TheVariants.{OutOfMemory};

    ghost from_gives = { λ _ e. e ≡ OutOfMemory };

    fn from(_error: AllocFailed<T>) -> TableFault {
        TableFault::OutOfMemory
    }
}
