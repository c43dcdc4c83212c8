ghost use Rattle.std.specs.Prelude.{◌≡◌, ℕ, ◌^◌, ◌<◌, ◌≤◌, map, length, slice_get, Some, IfOk};
ghost use Rattle.card_core.specs.StateSteps.{HasRooms, AreFew};
ghost use Rattle.output_queued.specs.declared.coming.Coming.{Coming as AComing};
ghost use Rattle.output_queued.specs.Switches.{planned_of, IsComing};

use crate::coming::Coming;
use card_core::Rooms;
use rotating_pick::MAX_PORTS;
use std::alloc::{AllocError, Global};

/// The rooms of all packets, of a switch of `n` ports.
pub(crate) fn count_rooms(alloc: Global, n: u32, coming: &[Coming]) -> Result<Rooms, AllocError>
    requires size { n ≤ MAX_PORTS }
    requires few { length coming.now < 2 ^ 32 }
    requires packets { (k : ℕ) (c : AComing) → slice_get coming.now k ≡ Some c → IsComing n c }
    ensures ports { IfOk result (λ rooms. rooms.ports ≡ n) }
    ensures rooms { IfOk result (λ rooms. HasRooms n (map planned_of coming.now) rooms.unicast rooms.multicast) }
    ensures few { IfOk result (λ rooms. AreFew (length coming.now) rooms.unicast rooms.multicast) }
{
    let mut rooms = Rooms::make(alloc, n)?;
    for packet in coming {
        rooms.count(packet.fan, packet.level);
    }
    Ok(rooms)
}
