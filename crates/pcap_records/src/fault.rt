ghost use Rattle.std.specs.Prelude.{◌≡◌};
ghost use Rattle.pcap_records.specs.declared.fault.PcapFault.TheVariants.{OutOfMemory};

use std::alloc::{AllocError, AllocFailed};
use std::error::Error;
use std::fmt;

/// Why a file is no capture that is read here: the first fault in the order of this list, of which
/// out of memory alone may come in place of any answer.
#[derive(Clone, Copy, Debug, PartialEq, Eq)]
pub enum PcapFault {
    /// The file has `len` bytes, fewer than the 24 of a header.
    ShortHeader { len: u32 },
    /// The first four bytes are no magic in either byte order; `found` is their big-endian number.
    BadMagic { found: u32 },
    /// The version is not 2.4.
    BadVersion { major: u16, minor: u16 },
    /// The link type is neither 1 nor 101.
    BadLink { found: u32 },
    /// The file ends within the record that begins at byte `at`.
    CutRecord { at: u32 },
    /// The record that begins at byte `at` has a captured length `len` over 262,144.
    LongRecord { at: u32, len: u32 },
    /// There was no memory for the packets.
    OutOfMemory,
}

impl fmt::Display for PcapFault {
    ghost use Rattle.std.specs.Prelude.{Some};
    ghost use Rattle.pcap_records.specs.Texts.{text_of};

    ghost output = { λ fault. Some (text_of fault) };

    fn fmt<W: fmt::Write>(&self, f: &mut fmt::Formatter<W>) -> fmt::Result {
        match *self {
            PcapFault::ShortHeader { len } => write!(f, "short header, {len} bytes"),
            PcapFault::BadMagic { found } => write!(f, "bad magic {found:08x}"),
            PcapFault::BadVersion { major, minor } => write!(f, "version {major}.{minor}"),
            PcapFault::BadLink { found } => write!(f, "link type {found}"),
            PcapFault::CutRecord { at } => write!(f, "cut record at {at}"),
            PcapFault::LongRecord { at, len } => write!(f, "long record at {at}, {len} bytes"),
            PcapFault::OutOfMemory => write!(f, "out of memory"),
        }
    }
}

impl Error for PcapFault {}

impl From<AllocError> for PcapFault {
    ghost from_gives = { λ _ e. e ≡ OutOfMemory };

    fn from(_error: AllocError) -> PcapFault {
        PcapFault::OutOfMemory
    }
}

impl<T: Drop> From<AllocFailed<T>> for PcapFault {
    ghost from_gives = { λ _ e. e ≡ OutOfMemory };

    fn from(_error: AllocFailed<T>) -> PcapFault {
        PcapFault::OutOfMemory
    }
}
