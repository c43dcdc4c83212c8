ghost use Rattle.std.specs.Prelude.{◌≡◌, ◌+◌, ◌-◌, ◌*◌, ◌<◌, ◌≤◌, ◌++◌, length, take, min};
ghost use Rattle.cell_cutter.specs.Messages.{message_header, message, cells_of_packet};
ghost use Rattle.cell_cutter.specs.Cells.{IsCellForm, cell_of, part, padded};

use crate::cell::Cell;
use crate::sizes::{MAX_CAPTURED_BYTES, MAX_FORWARDED_BYTES, MESSAGE_HEADER_BYTES, PAYLOAD_BYTES};
use rotating_pick::{Kind, LEVELS, MAX_PORTS};

/// A packet as it is to be cut: what its capture said of it, and its captured bytes.
#[derive(Clone, Copy, Debug)]
pub struct Packet<'a> {
    /// The input port that it came from, 0 to 63.
    pub input: u8,
    /// Its priority level, 0 to 3.
    pub level: u8,
    /// Whether it leaves by one output or by several.
    pub kind: Kind,
    /// Its time: seconds.
    pub seconds: u32,
    /// Its time: nanoseconds of the second.
    pub nanos: u32,
    /// Its original length in bytes, before the capture cut it.
    pub original: u32,
    /// Its captured bytes.
    pub bytes: &'a [u8],
}

/// How many cells a packet of `len` captured bytes has, for `len` at most 262,144: its message of
/// 16 + `len` bytes by 56, rounded up.
pub fn cells_of(len: u32) -> u32
    requires { len ≤ MAX_CAPTURED_BYTES }
    ensures { result ≡ cells_of_packet len }
{
    (MESSAGE_HEADER_BYTES as u32 + len).div_ceil(PAYLOAD_BYTES as u32)
}

/// Cell `k` of the packet's message, for a packet of at most 65,535 captured bytes, with `input` below
/// 64, `level` below 4, and `k` below its number of cells. It is made from the packet's bytes alone: the
/// message itself is built nowhere.
pub fn cut(packet: &Packet<'_>, k: u16) -> Cell
    requires len { length packet.now.bytes.now ≤ MAX_FORWARDED_BYTES }
    requires input { packet.now.input < MAX_PORTS }
    requires level { packet.now.level < LEVELS }
    requires number { k < cells_of_packet (length packet.now.bytes.now) }
    ensures cell { let p = packet.now in result ≡ cell_of p.input p.level p.kind (message p.seconds p.nanos p.original p.bytes.now) k }
    ensures form { IsCellForm result }
{
    let left = MESSAGE_HEADER_BYTES + packet.bytes.len() - usize::from(k) * PAYLOAD_BYTES;
    let used = left.min(PAYLOAD_BYTES);
    Cell {
        input: packet.input,
        level: packet.level,
        kind: packet.kind,
        last: left <= PAYLOAD_BYTES,
        used: used as u8,
        number: k,
        payload: payload_of(packet, k, used),
    }
}

// The payload of cell `k`, which has `used` bytes of the message.
fn payload_of(packet: &Packet<'_>, k: u16, used: usize) -> [u8; PAYLOAD_BYTES]
    requires len { length packet.now.bytes.now ≤ MAX_FORWARDED_BYTES }
    requires number { k < cells_of_packet (length packet.now.bytes.now) }
    requires used { used ≡ min PAYLOAD_BYTES (MESSAGE_HEADER_BYTES + length packet.now.bytes.now - PAYLOAD_BYTES * k) }
    ensures { let p = packet.now in result ≡ padded (part k (message p.seconds p.nanos p.original p.bytes.now)) }
{
    if k == 0 {
        first_payload(packet, used - MESSAGE_HEADER_BYTES)
    } else {
        let from = usize::from(k) * PAYLOAD_BYTES - MESSAGE_HEADER_BYTES;
        padded(&packet.bytes[from..from + used])
    }
}

// The payload of the first cell: the header, `count` captured bytes, and zeros.
fn first_payload(packet: &Packet<'_>, count: usize) -> [u8; PAYLOAD_BYTES]
    requires len { length packet.now.bytes.now ≤ MAX_FORWARDED_BYTES }
    requires there { count ≤ length packet.now.bytes.now }
    requires room { count ≤ PAYLOAD_BYTES - MESSAGE_HEADER_BYTES }
    ensures { let p = packet.now in result ≡ padded (message_header p.seconds p.nanos (length p.bytes.now) p.original ++ take count p.bytes.now) }
{
    let mut payload = [0; PAYLOAD_BYTES];
    payload[..MESSAGE_HEADER_BYTES].copy_from_slice(&header_of(packet));
    payload[MESSAGE_HEADER_BYTES..MESSAGE_HEADER_BYTES + count].copy_from_slice(
        &packet.bytes[..count],
    );
    payload
}

// The header of the packet's message.
fn header_of(packet: &Packet<'_>) -> [u8; MESSAGE_HEADER_BYTES]
    requires { length packet.now.bytes.now ≤ MAX_FORWARDED_BYTES }
    ensures { let p = packet.now in result ≡ message_header p.seconds p.nanos (length p.bytes.now) p.original }
{
    let captured = packet.bytes.len() as u32;
    let mut header = [0; MESSAGE_HEADER_BYTES];
    header[..4].copy_from_slice(&packet.seconds.to_be_bytes());
    header[4..8].copy_from_slice(&packet.nanos.to_be_bytes());
    header[8..12].copy_from_slice(&captured.to_be_bytes());
    header[12..].copy_from_slice(&packet.original.to_be_bytes());
    header
}

// The bytes, followed by zeros.
fn padded(bytes: &[u8]) -> [u8; PAYLOAD_BYTES]
    requires { length bytes.now ≤ PAYLOAD_BYTES }
    ensures { result ≡ padded bytes.now }
{
    let mut payload = [0; PAYLOAD_BYTES];
    payload[..bytes.len()].copy_from_slice(bytes);
    payload
}
