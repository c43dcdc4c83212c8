ghost use Rattle.std.specs.Prelude.{◌≡◌, ◌≢◌, ℕ, ◌+◌, ◌<◌, ◌≤◌, ◌↔◌, length, slice_get, Option, Some, IsTrue};
ghost use Rattle.card_core.specs.declared.plan.Planned.{Planned as APlanned};
ghost use Rattle.card_core.specs.Plans.{IsPlanned, AreRising};

use crate::plan::Planned;
use cell_cutter::MAX_FORWARDED_BYTES;
use rotating_pick::{LEVELS, MAX_PORTS, is_among, is_empty};

/// Whether each packet is well formed, of a switch of `n` ports and with `bytes` captured bytes in all.
pub(crate) fn are_planned(n: u32, bytes: usize, packets: &[Planned]) -> bool
    requires some { 0 < n }
    requires size { n ≤ MAX_PORTS }
    ensures { IsTrue result ↔ ((k : ℕ) (packet : APlanned) → slice_get packets.now k ≡ Some packet → IsPlanned n bytes packet) }
{
    for packet in packets {
        if !is_planned(n, bytes, *packet) {
            return false;
        }
    }
    true
}

// Whether the packet is.
fn is_planned(n: u32, bytes: usize, packet: Planned) -> bool
    requires some { 0 < n }
    requires size { n ≤ MAX_PORTS }
    ensures { IsTrue result ↔ IsPlanned n bytes packet }
{
    packet.start as usize + packet.len as usize <= bytes
        && u32::from(packet.level) < LEVELS
        && is_among(n, packet.fan)
        && (is_empty(packet.fan) || packet.len as usize <= MAX_FORWARDED_BYTES)
}

/// Whether each packet arrives in a later slot than those before it.
pub(crate) fn are_rising(packets: &[Planned]) -> bool
    ensures { IsTrue result ↔ AreRising packets.now }
{
    let mut least: u64 = 0;
    for packet in packets {
        let arrival = u64::from(packet.arrival);
        if arrival < least {
            return false;
        }
        least = arrival + 1;
    }
    true
}
