ghost use Rattle.std.specs.Prelude.{◌≡◌, ℕ, ◌+◌, ◌-◌, ◌^◌, ◌<◌, ◌≤◌, List, ◌∷◌, [], ◌++◌, length, slice_get, Some, IfOk};
ghost use Rattle.rotating_pick.specs.PortSets.{IsAmong};
ghost use Rattle.card_core.specs.declared.plan.Planned.{Planned as APlanned};
ghost use Rattle.card_core.specs.StateSteps.{HasRooms, AreFew};

use crate::plan::Planned;
use rotating_pick::{LEVEL_COUNT, LEVELS, MAX_PORTS, Ports, is_empty, only};
use std::alloc::{AllocError, Global};
use std::marker::Model;

/// How many packets will enter each queue of an input.
#[derive(Drop)]
pub struct Rooms {
    pub(crate) ports: u32,
    pub(crate) unicast: Vec<u32>,
    pub(crate) multicast: [u32; LEVEL_COUNT],
}

impl Model for Rooms {
    ghost use Rattle.std.specs.Prelude.{◌≡◌, ◌*◌, ◌≤◌, length};
    ghost use Rattle.rotating_pick.specs.declared.limits.TheConstants.{LEVELS, MAX_PORTS};
    ghost use Rattle.card_core.specs.InputQueues.{QueueRooms};

    ghost Value = { QueueRooms };

    ghost view = { λ r. record { ports = r.ports; unicast = r.unicast.items; multicast = r.multicast } };

    ghost invariant = { λ r. (r.ports ≤ MAX_PORTS) × (length r.unicast.items ≡ LEVELS * r.ports) };
}

impl Rooms {
    /// No packets, for an input of a switch of `n` ports, at most 64. It takes all memory that the counts need.
    pub fn make(alloc: Global, n: u32) -> Result<Rooms, AllocError>
        requires size { n ≤ MAX_PORTS }
        ensures ports { IfOk result (λ rooms. rooms.ports ≡ n) }
        ensures rooms { IfOk result (λ rooms. HasRooms n [] rooms.unicast rooms.multicast) }
        ensures few { IfOk result (λ rooms. AreFew 0 rooms.unicast rooms.multicast) }
    {
        let unicast = vec![in alloc; 0; (LEVELS * n) as usize]?;
        Ok(Rooms {
            ports: n,
            unicast,
            multicast: [0; LEVEL_COUNT],
        })
    }

    /// Counts a packet with this fan-out, of the switch's ports, and this level, 0 to 3, at the queue that it is
    /// to enter. One that goes nowhere enters none. Fewer than 4,294,967,295 are counted at each queue.
    pub fn count(&mut self, fan: Ports, level: u8)
        requires few { AreFew (2 ^ 32 - 2) self.old.unicast self.old.multicast }
        requires level { level < LEVELS }
        requires fan { IsAmong self.old.ports fan }
        ensures ports { self.new.ports ≡ self.old.ports }
        ensures rooms { (before : List APlanned) (packet : APlanned) → packet.fan ≡ fan → packet.level ≡ level
            → HasRooms self.old.ports before self.old.unicast self.old.multicast
            → HasRooms self.old.ports (before ++ packet ∷ []) self.new.unicast self.new.multicast }
        ensures few { (k : ℕ) → AreFew k self.old.unicast self.old.multicast → AreFew (k + 1) self.new.unicast self.new.multicast }
    {
        if is_empty(fan) {
            return;
        }
        let level = level as usize;
        match only(fan) {
            Some(output) => self.unicast[LEVEL_COUNT * output as usize + level] += 1,
            None => self.multicast[level] += 1,
        }
    }
}

/// The rooms of all packets, of a switch of `n` ports.
pub(crate) fn count_rooms(alloc: Global, n: u32, packets: &[Planned]) -> Result<Rooms, AllocError>
    requires size { n ≤ MAX_PORTS }
    requires few { length packets.now < 2 ^ 32 }
    requires packets { (k : ℕ) (packet : APlanned) → slice_get packets.now k ≡ Some packet → (packet.level < LEVELS) × (packet.fan < 2 ^ n) }
    ensures ports { IfOk result (λ rooms. rooms.ports ≡ n) }
    ensures rooms { IfOk result (λ rooms. HasRooms n packets.now rooms.unicast rooms.multicast) }
    ensures few { IfOk result (λ rooms. AreFew (length packets.now) rooms.unicast rooms.multicast) }
{
    let mut rooms = Rooms::make(alloc, n)?;
    for packet in packets {
        rooms.count(packet.fan, packet.level);
    }
    Ok(rooms)
}
