ghost use Rattle.std.specs.Prelude.{◌≡◌, ℕ, ◌+◌, ◌*◌, ◌^◌, ◌<◌, ◌≤◌, List, length, map, All, IfOk, IfSome, sum_by, count_by, slice_index_or};
ghost use Rattle.cell_cutter.specs.Messages.{cells_of_packet};
ghost use Rattle.pcap_records.specs.declared.capture.Stored.{Stored};
ghost use Rattle.pcap_records.specs.Packets.{IsWithin, packet_in, packets_of};
ghost use Rattle.switch_plan.specs.Traffic.{file_of, time_of, stamp_of, least_in, least_time, pace_of, earlier, is_nano};

use cell_cutter::{MAX_CAPTURED_BYTES, cells_of};
use line_pace::{Pace, Stamp};
use pcap_records::{Capture, Stored};
use switch_words::Speed;

/// Nanoseconds of a second.
const NANOS_PER_SECOND: u64 = 1_000_000_000;

// The time of a packet in nanoseconds.
fn time_of(packet: &Stored) -> u64
    ensures value { (bytes : List ℕ) → result ≡ time_of (packet_in bytes packet.now) }
    ensures early { result < 2 ^ 62 }
{
    u64::from(packet.seconds) * NANOS_PER_SECOND + u64::from(packet.nanos)
}

// The lesser of a time and the least before it.
fn earlier(least: Option<u64>, time: u64) -> Option<u64>
    ensures { result ≡ earlier least time }
{
    match least {
        None => Some(time),
        Some(before) => Some(before.min(time)),
    }
}

// The least time of these packets and of what came before them.
fn least_in(least: Option<u64>, packets: &[Stored]) -> Option<u64>
    ensures { (bytes : List ℕ) → result ≡ least_in least (map (packet_in bytes) packets.now) }
{
    let mut least = least;
    for packet in packets {
        least = earlier(least, time_of(packet));
    }
    least
}

// The least time of all packets of all captures, where there is one.
fn least_time(captures: &[Capture]) -> Option<u64>
    ensures { result ≡ least_time (map file_of captures.now) }
{
    let mut least = None;
    for capture in captures {
        least = least_in(least, &capture.packets);
    }
    least
}

/// The pace of all ports: with slots from the least time of all packets on, or one packet after the other.
pub(crate) fn pace_of(speed: Speed, captures: &[Capture]) -> Pace
    ensures { result ≡ pace_of speed (map file_of captures.now) }
{
    match speed {
        Speed::Untimed => Pace::Line,
        Speed::SlotMicros(slot) => Pace::Micros {
            slot,
            base: least_time(captures).unwrap_or(0),
        },
        Speed::LineRate(mbps) => Pace::Rate {
            mbps,
            base: least_time(captures).unwrap_or(0),
        },
    }
}

/// Whether some capture counts in nanoseconds.
pub(crate) fn is_nano(captures: &[Capture]) -> bool
    ensures { result ≡ is_nano (map file_of captures.now) }
{
    captures.iter().any(|capture| capture.nano)
}

/// When a packet came, and how long it occupies the line.
pub(crate) fn stamp_of(packet: &Stored) -> Stamp
    requires { packet.now.len ≤ MAX_CAPTURED_BYTES }
    ensures time { (bytes : List ℕ) → result.time ≡ time_of (packet_in bytes packet.now) }
    ensures early { result.time < 2 ^ 62 }
    ensures cells { result.cells ≡ cells_of_packet packet.now.len }
{
    Stamp {
        time: time_of(packet),
        cells: cells_of(packet.len),
    }
}
