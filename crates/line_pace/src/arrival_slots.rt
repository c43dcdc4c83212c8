ghost use Rattle.std.specs.Prelude.{◌≡◌, ℕ, ◌<◌, ◌≤◌, ◌↔◌, length, All, OnOk, IfOk, IsErrOf};
ghost use Rattle.line_pace.specs.Arrivals.{IsPace, CanCome, arrival_slots, slots_taken};

use crate::fault::PaceFault;
use crate::pace::{Pace, Stamp};
use std::alloc::{AllocError, Global};

/// The most slots that a port's packets may take to come.
pub const MAX_ARRIVAL_SLOTS: u64 = 131_072;

/// The most packets of one capture.
pub const MAX_CAPTURE_PACKETS: usize = 1_048_576;

/// The arrival slot of each packet of a port: the slot in which its last cell comes. Packets come in
/// the order of the capture, one cell a slot; at a pace none starts before the slot of its time.
///
/// For at most 1,048,576 packets of 1 to 4,682 cells, none before the pace's base, and at a line rate all at
/// times below 2^62 nanoseconds. `TooLong` comes exactly where the last arrival slot plus one is over 131,072, and names that number.
pub fn arrivals(alloc: Global, packets: &[Stamp], pace: Pace) -> Result<Vec<u32>, PaceFault>
    requires pace { IsPace pace }
    requires packets { All (CanCome pace) packets.now }
    requires few { length packets.now ≤ MAX_CAPTURE_PACKETS }
    ensures slots { IfOk result (λ slots. slots.items ≡ arrival_slots pace packets.now) }
    ensures within { OnOk result (slots_taken (arrival_slots pace packets.now) ≤ MAX_ARRIVAL_SLOTS) }
    ensures too_long { (n : ℕ) → IsErrOf result (PaceFault.TooLong n) ↔ ((n ≡ slots_taken (arrival_slots pace packets.now)) × (MAX_ARRIVAL_SLOTS < n)) }
{
    let slots = slots_taken(packets, &pace);
    if slots > MAX_ARRIVAL_SLOTS {
        return Err(PaceFault::TooLong { slots });
    }
    Ok(listed(alloc, packets, &pace)?)
}

// The arrival slots, where they are not too many.
fn listed(alloc: Global, packets: &[Stamp], pace: &Pace) -> Result<Vec<u32>, AllocError>
    requires pace { IsPace pace.now }
    requires packets { All (CanCome pace.now) packets.now }
    requires within { slots_taken (arrival_slots pace.now packets.now) ≤ MAX_ARRIVAL_SLOTS }
    ensures { IfOk result (λ slots. slots.items ≡ arrival_slots pace.now packets.now) }
{
    let mut slots = Vec::with_capacity(alloc, packets.len())?;
    let mut free = 0;
    for packet in packets {
        let arrival = pace.arrival(free, packet);
        slots.push(arrival as u32)?;
        free = arrival + 1;
    }
    Ok(slots)
}

// How many slots the packets take to come.
fn slots_taken(packets: &[Stamp], pace: &Pace) -> u64
    requires pace { IsPace pace.now }
    requires packets { All (CanCome pace.now) packets.now }
    requires few { length packets.now ≤ MAX_CAPTURE_PACKETS }
    ensures { result ≡ slots_taken (arrival_slots pace.now packets.now) }
{
    let mut free = 0;
    for packet in packets {
        free = pace.arrival(free, packet) + 1;
    }
    free
}
