ghost use Rattle.std.specs.Prelude.{◌≡◌, ◌+◌, ◌^◌, ◌<◌, nat_lt, List, [], ◌∷◌, ◌++◌, true, false, Option, Some, IfOk, length, slice_get, slice_index};
ghost use Rattle.slot_match.specs.declared.matching.Served.{Served as APart};
ghost use Rattle.slot_match.specs.Rows.{sets_of};
ghost use Rattle.multicast_queue.specs.FanQueues.{first_name};
ghost use Rattle.slot_histories.specs.Parts.{IsPartOf};
ghost use Rattle.card_core.specs.Plans.{IsGoodPlan, plan_of};
ghost use Rattle.card_core.specs.Queues.{waiting, queue_in};
ghost use Rattle.card_core.specs.Posts.{queue_served};
ghost use Rattle.card_core.specs.StateSteps.{HasRooms};
ghost use Rattle.descriptor_runs.specs.InputSteps.{HasServed, ChangesAt, IsQueueOf, next_slot, row_in};

use card_core::{CardPlan, Planned, Queues, Rooms};
use cell_cutter::{CellName, cells_of};
use rotating_pick::{Kind, LEVELS, OutOfMemory, Ports, is_empty, only};
use slot_match::Served;
use std::alloc::Global;
use std::marker::Model;

/// An input of a run by descriptors: its packets, and queues of the numbers of those that wait.
#[derive(Drop)]
pub(crate) struct Input {
    plan: CardPlan,
    // The number of the next packet.
    next: u32,
    admitted: u32,
    dropped: u32,
    queues: Queues,
}

impl Model for Input {
    ghost use Rattle.card_core.specs.Plans.{plan_of};
    ghost use Rattle.descriptor_runs.specs.InputSteps.{InputValue};

    ghost Value = { InputValue };

    ghost view = { λ i. record {
      plan = plan_of i.plan;
      next = i.next;
      admitted = i.admitted;
      dropped = i.dropped;
      banks = i.queues.unicast;
      fans = i.queues.multicast;
    } };
}

impl Input {
    /// The input of a good plan before slot 0. It takes all memory that the queues need.
    pub(crate) fn make(alloc: Global, plan: CardPlan) -> Result<Input, OutOfMemory>
        requires good { IsGoodPlan (plan_of plan) }
        requires few { length plan.packets.items < 2 ^ 32 }
        ensures plan { IfOk result (λ input. input.plan ≡ plan_of plan) }
        ensures served { IfOk result (λ input. HasServed input [] false) }
    {
        let rooms = rooms_of(alloc, &plan)?;
        let queues = Queues::make(alloc, plan.depth, &rooms)?;
        Ok(Input {
            plan,
            next: 0,
            admitted: 0,
            dropped: 0,
            queues,
        })
    }

    /// The outputs that the row of the queues names at the level, 0 to 3, with the kind.
    pub(crate) fn outputs(&self, level: u8, kind: Kind) -> Ports
        requires { level < LEVELS }
        ensures { result ≡ slice_index (sets_of (row_in self.now) kind) level }
    {
        self.queues.row().outputs(level, kind)
    }

    /// The slot in which the next packet arrives, if one is to come.
    pub(crate) fn next_slot(&self) -> Option<u32>
        ensures { result ≡ next_slot self.now }
    {
        let packet = self.plan.packets.get(self.next as usize)?;
        Some(packet.arrival)
    }

    /// How many packets were admitted.
    pub(crate) fn admitted(&self) -> u32
        ensures { result ≡ self.now.admitted }
    {
        self.admitted
    }

    /// How many were dropped.
    pub(crate) fn dropped(&self) -> u32
        ensures { result ≡ self.now.dropped }
    {
        self.dropped
    }

    /// The packet of this number.
    pub(crate) fn packet(&self, number: u32) -> &Planned
        requires { number < length self.now.plan.packets }
        ensures { Some result.now ≡ slice_get self.now.plan.packets number }
    {
        &self.plan.packets[number as usize]
    }

    /// The port of the input.
    pub(crate) fn card(&self) -> u32
        ensures { result ≡ self.now.plan.card }
    {
        self.plan.card
    }

    /// The captured bytes of all packets.
    pub(crate) fn bytes(&self) -> &[u8]
        ensures { result.now ≡ self.now.plan.bytes }
    {
        &self.plan.bytes
    }

    /// The next packet arrives, which is that of slot `slot`: it enters its queue if it goes anywhere and fits.
    /// Answers the level and the kind of that queue, none where it goes nowhere.
    pub(crate) fn arrive(&mut self, slot: u32) -> Option<(u8, Kind)>
        requires { (served : List (Option APart)) × HasServed self.old served false × (slot ≡ length served) × (next_slot self.old ≡ Some slot)
            × (slot + 1 < 2 ^ 32) }
        ensures plan { self.new.plan ≡ self.old.plan }
        ensures arrived { (served : List (Option APart)) → HasServed self.old served false → slot ≡ length served → next_slot self.old ≡ Some slot
            → HasServed self.new served true }
        ensures changed { ChangesAt (row_in self.old) (row_in self.new) result }
    {
        let packet = self.plan.packets[self.next as usize];
        if !is_empty(packet.fan) {
            let cells = cells_of(packet.len);
            if self
                .queues
                .enter(packet.level, self.next, cells, packet.fan)
            {
                self.admitted += 1;
            } else {
                self.dropped += 1;
            }
        }
        self.next += 1;
        queue_of(packet.level, packet.fan)
    }

    /// Takes what was served off its queue. Answers the name of the cell that was its first.
    pub(crate) fn leave(&mut self, part: Served) -> CellName
        requires { (served : List (Option APart)) × HasServed self.old served true × IsPartOf (row_in self.old) part }
        ensures plan { self.new.plan ≡ self.old.plan }
        ensures next { self.new.next ≡ self.old.next }
        ensures left { (served : List (Option APart)) → HasServed self.old served true → IsPartOf (row_in self.old) part
            → HasServed self.new (served ++ Some part ∷ []) false }
        ensures changed { ChangesAt (row_in self.old) (row_in self.new) (Some (part.level, part.kind)) }
        ensures name { (served : List (Option APart)) → HasServed self.old served true → IsPartOf (row_in self.old) part
            → Some result ≡ first_name (waiting (queue_in self.old.plan (queue_served part) served (length served))) }
    {
        self.queues.leave(part)
    }

    /// Whether a packet is to come after those that have arrived.
    pub(crate) fn has_next(&self) -> bool
        ensures { result ≡ nat_lt self.now.next (length self.now.plan.packets) }
    {
        (self.next as usize) < self.plan.packets.len()
    }
}

// The level and the kind of the queue that a packet of the level for these outputs enters, none where it goes nowhere.
fn queue_of(level: u8, fan: Ports) -> Option<(u8, Kind)>
    ensures { IsQueueOf level fan result }
{
    if is_empty(fan) {
        return None;
    }
    match only(fan) {
        Some(_) => Some((level, Kind::Uni)),
        None => Some((level, Kind::Multi)),
    }
}

// How many packets of the plan enter each queue.
fn rooms_of(alloc: Global, plan: &CardPlan) -> Result<Rooms, OutOfMemory>
    requires good { IsGoodPlan (plan_of plan.now) }
    requires few { length plan.now.packets.items < 2 ^ 32 }
    ensures ports { IfOk result (λ rooms. rooms.ports ≡ plan.now.n) }
    ensures rooms { IfOk result (λ rooms. HasRooms plan.now.n plan.now.packets.items rooms.unicast rooms.multicast) }
{
    let mut rooms = Rooms::make(alloc, plan.n)?;
    for packet in &plan.packets {
        rooms.count(packet.fan, packet.level);
    }
    Ok(rooms)
}
