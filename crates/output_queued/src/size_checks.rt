ghost use Rattle.std.specs.Prelude.{◌≡◌, ◌≢◌, ℕ, ◌+◌, ◌<◌, ◌≤◌, ◌↔◌, List, map, length, slice_get, Some, IsTrue};
ghost use Rattle.voq_banks.specs.declared.limits.TheConstants.{MAX_DEPTH};
ghost use Rattle.card_core.specs.declared.limits.TheConstants.{MAX_ARRIVALS};
ghost use Rattle.rotating_pick.specs.declared.limits.TheConstants.{MAX_PORTS};
ghost use Rattle.output_queued.specs.declared.coming.Coming.{Coming as AComing};
ghost use Rattle.output_queued.specs.Switches.{IsComing, IsInput, AreEarly};

use crate::coming::Coming;
use card_core::MAX_ARRIVALS;
use cell_cutter::MAX_FORWARDED_CELLS;
use rotating_pick::{LEVELS, MAX_PORTS, is_among, is_empty};
use voq_banks::MAX_DEPTH;

/// Whether there are 1 to 64 ports, a list of packets for each, and a depth of 1 to 131,072.
pub(crate) fn are_sizes(n: u32, depth: u32, inputs: &[Vec<Coming>]) -> bool
    ensures { IsTrue result ↔ ((0 < n) × (n ≤ MAX_PORTS) × (0 < depth) × (depth ≤ MAX_DEPTH) × (length inputs.now ≡ n)) }
{
    0 < n && n <= MAX_PORTS && 0 < depth && depth <= MAX_DEPTH && inputs.len() == n as usize
}

/// Whether the packets of each input are well formed, of a switch of `n` ports, and arrive in slots below 131,072.
pub(crate) fn are_inputs(n: u32, inputs: &[Vec<Coming>]) -> bool
    requires some { 0 < n }
    requires size { n ≤ MAX_PORTS }
    ensures { IsTrue result ↔ (((i : ℕ) (coming : List AComing) → slice_get (map (λ list. list.items) inputs.now) i ≡ Some coming → IsInput n coming)
        × ((i : ℕ) (coming : List AComing) → slice_get (map (λ list. list.items) inputs.now) i ≡ Some coming → AreEarly coming)) }
{
    for coming in inputs {
        if !is_input(n, coming) {
            return false;
        }
    }
    true
}

// Whether each packet of an input is well formed, and arrives in a later slot than those before it, below 131,072.
fn is_input(n: u32, coming: &[Coming]) -> bool
    requires some { 0 < n }
    requires size { n ≤ MAX_PORTS }
    ensures { IsTrue result ↔ (IsInput n coming.now × AreEarly coming.now) }
{
    let mut least: u64 = 0;
    for packet in coming {
        if !is_coming(n, *packet) {
            return false;
        }
        let slot = u64::from(packet.slot);
        if slot < least {
            return false;
        }
        least = slot + 1;
    }
    true
}

// Whether the packet is well formed, and arrives in a slot below 131,072.
fn is_coming(n: u32, packet: Coming) -> bool
    requires some { 0 < n }
    requires size { n ≤ MAX_PORTS }
    ensures { IsTrue result ↔ (IsComing n packet × (packet.slot < MAX_ARRIVALS)) }
{
    0 < packet.cells
        && packet.cells <= MAX_FORWARDED_CELLS
        && u32::from(packet.level) < LEVELS
        && !is_empty(packet.fan)
        && is_among(n, packet.fan)
        && packet.slot < MAX_ARRIVALS
}
