ghost use Rattle.std.specs.Prelude.{◌≡◌, ◌+◌, ◌^◌, ◌<◌, ◌≤◌, ◌++◌, length, drop, IfOk, IfErr};
ghost use Rattle.pcap_records.specs.Format.{record_header, nanos_of};
ghost use Rattle.pcap_records.specs.Records.{IsStored, IsBroken};

use crate::capture::Stored;
use crate::fault::PcapFault;
use crate::limits::RECORD_HEADER_BYTES;
use crate::order::Order;
use cell_cutter::MAX_CAPTURED_BYTES;

// The last microsecond of a second.
const LAST_MICRO: u32 = 999_999;

// The last nanosecond of a second.
const LAST_NANO: u32 = 999_999_999;

// Nanoseconds in a microsecond.
pub const NANOS_PER_MICRO: u32 = 1_000;

// The four numbers in front of the captured bytes of a record.
#[derive(Clone, Copy)]
struct RecordHeader {
    seconds: u32,
    fraction: u32,
    captured: u32,
    original: u32,
}

/// Where the packet of the record that begins at byte `at` is stored, in a file of fewer than 2^32 bytes
/// whose numbers have this order and whose fractions of seconds are nanoseconds or microseconds.
///
/// The fault is a `CutRecord` at `at` where the file ends within the record, and a `LongRecord` where more
/// than 262,144 captured bytes are announced.
pub fn read_record(order: Order, nano: bool, bytes: &[u8], at: usize) -> Result<Stored, PcapFault>
    requires begins { at < length bytes.now }
    requires size { length bytes.now < 2 ^ 32 }
    ensures found { IfOk result (IsStored order nano bytes.now at) }
    ensures fault { IfErr result (IsBroken order (drop at bytes.now) at) }
{
    let left = bytes.len() - at;
    if left < RECORD_HEADER_BYTES {
        return Err(PcapFault::CutRecord { at: at as u32 });
    }
    let header = record_header_at(order, bytes, at);
    let len = header.captured;
    if len > MAX_CAPTURED_BYTES {
        return Err(PcapFault::LongRecord { at: at as u32, len });
    }
    if len as usize > left - RECORD_HEADER_BYTES {
        return Err(PcapFault::CutRecord { at: at as u32 });
    }
    Ok(Stored {
        seconds: header.seconds,
        nanos: nanos_in(nano, header.fraction),
        original: header.original,
        start: (at + RECORD_HEADER_BYTES) as u32,
        len,
    })
}

// The header of a record, of which all bytes are there.
fn record_header_at(order: Order, bytes: &[u8], at: usize) -> RecordHeader
    requires { at + 16 ≤ length bytes.now }
    ensures { drop at bytes.now
        ≡ record_header order result.seconds result.fraction result.captured result.original
        ++ drop (at + 16) bytes.now }
{
    RecordHeader {
        seconds: order.u32_at(bytes, at),
        fraction: order.u32_at(bytes, at + 4),
        captured: order.u32_at(bytes, at + 8),
        original: order.u32_at(bytes, at + 12),
    }
}

// A fraction of a second in nanoseconds; one beyond the second is the last of that second.
fn nanos_in(nano: bool, fraction: u32) -> u32
    ensures { result ≡ nanos_of nano fraction }
{
    if nano {
        fraction.min(LAST_NANO)
    } else {
        fraction.min(LAST_MICRO) * NANOS_PER_MICRO
    }
}
