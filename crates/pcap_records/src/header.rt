ghost use Rattle.std.specs.Prelude.{◌≡◌, ◌≢◌, ◌+◌, ◌^◌, ◌<◌, ◌≤◌, ◌++◌, ℕ, Bool, length, take, drop, IfOk, IfErr, IfSome, IfNone};
ghost use Rattle.pcap_records.specs.declared.order.Order.{Order};
ghost use Rattle.pcap_records.specs.Format.{number_bytes, magic, header_of, link_type};
ghost use Rattle.pcap_records.specs.Captures.{HasHeader};
ghost use Rattle.pcap_records.specs.Faults.{IsFault};

use crate::fault::PcapFault;
use crate::limits::FILE_HEADER_BYTES;
use crate::link::Link;
use crate::order::Order;

// The magic number of a file whose fractions are microseconds.
const MICRO_MAGIC: u32 = 0xa1b2_c3d4;

// The magic number of a file whose fractions are nanoseconds.
const NANO_MAGIC: u32 = 0xa1b2_3c4d;

// The version of the format that is read and written is 2.4: the number before the point.
pub const MAJOR: u16 = 2;

// The number after it.
pub const MINOR: u16 = 4;

/// What the header of a capture says.
#[derive(Clone, Copy, Debug, PartialEq, Eq)]
pub struct Header {
    /// The byte order of all numbers of the file.
    pub order: Order,
    /// Whether fractions of seconds are nanoseconds; otherwise they are microseconds.
    pub nano: bool,
    /// The link type of all packets.
    pub link: Link,
}

/// The header at the front of a file of fewer than 2^32 bytes, or the first fault in it. The records
/// follow from byte 24 on.
pub fn read_header(bytes: &[u8]) -> Result<Header, PcapFault>
    requires { length bytes.now < 2 ^ 32 }
    ensures found { IfOk result (λ h.
        HasHeader bytes.now (header_of h.order h.nano h.link) (drop 24 bytes.now)) }
    ensures fault { IfErr result (IsFault bytes.now) }
{
    if bytes.len() < FILE_HEADER_BYTES {
        return Err(PcapFault::ShortHeader {
            len: bytes.len() as u32,
        });
    }
    let (order, nano) = unit_of(bytes)?;
    let major = order.u16_at(bytes, 4);
    let minor = order.u16_at(bytes, 6);
    if major != MAJOR || minor != MINOR {
        return Err(PcapFault::BadVersion { major, minor });
    }
    let link = Link::of_number(order.u32_at(bytes, 20))?;
    Ok(Header { order, nano, link })
}

// The byte order and the unit that the magic says: whether fractions are nanoseconds.
fn unit_of(bytes: &[u8]) -> Result<(Order, bool), PcapFault>
    requires { 24 ≤ length bytes.now }
    ensures found { IfOk result (λ unit.
        bytes.now ≡ number_bytes unit.0 4 (magic unit.1) ++ drop 4 bytes.now) }
    ensures fault { IfErr result (IsFault bytes.now) }
{
    let found = Order::Big.u32_at(bytes, 0);
    if let Some(nano) = unit_of_magic(found) {
        return Ok((Order::Big, nano));
    }
    if let Some(nano) = unit_of_magic(Order::Little.u32_at(bytes, 0)) {
        return Ok((Order::Little, nano));
    }
    Err(PcapFault::BadMagic { found })
}

// Whether a magic number says that fractions are nanoseconds; None where it is no magic number.
fn unit_of_magic(number: u32) -> Option<bool>
    ensures found { IfSome result (λ nano. number ≡ magic nano) }
    ensures none { IfNone result ((nano : Bool) → number ≢ magic nano) }
{
    match number {
        MICRO_MAGIC => Some(false),
        NANO_MAGIC => Some(true),
        _ => None,
    }
}

// The magic number of a file whose fractions are nanoseconds, or else microseconds.
pub fn magic_number(nano: bool) -> u32
    ensures { result ≡ magic nano }
{
    if nano { NANO_MAGIC } else { MICRO_MAGIC }
}
