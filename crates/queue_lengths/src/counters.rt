ghost use Rattle.std.specs.Prelude.{◌≡◌, ◌≢◌, ℕ, ◌^◌, ◌<◌, ◌≤◌, ◌∷◌, [], ◌++◌, List, length, Option, slice_index, IfOk};
ghost use Rattle.rotating_pick.specs.PortSets.{IsAmong};
ghost use Rattle.rotating_pick.specs.declared.kinds.Kind.TheVariants.{Uni};
ghost use Rattle.rotating_pick.specs.declared.limits.TheConstants.{LEVELS, MAX_PORTS};
ghost use Rattle.slot_match.specs.declared.matching.Served.{Served as AServed};
ghost use Rattle.slot_histories.specs.Parts.{IsPartOf};
ghost use Rattle.card_core.specs.Plans.{Plan, IsGoodPlan, plan_of, queue_for};
ghost use Rattle.card_core.specs.Posts.{row_at, IsServable};
ghost use Rattle.queue_lengths.specs.Lengths.{place_of, count_of};
ghost use Rattle.queue_lengths.specs.Counters.{CountBefore, CountIn, arrival_in};
ghost use Rattle.queue_lengths.specs.Steps.{MayEnter, enters_at, lengths_with, place_left};

use crate::queue_count;
use card_core::{CardPlan, Planned, next_arrival};
use cell_cutter::cells_of;
use rotating_pick::{Kind, LEVELS, OutOfMemory, Ports, is_empty, only};
use slot_match::{Row, Served};
use std::alloc::Global;
use std::marker::Model;

/// A packet that came to an input.
#[derive(Clone, Copy, Debug)]
pub struct Arrival {
    /// Its number among the packets of the input, from 0 on.
    pub number: u32,
    pub packet: Planned,
    /// Whether it goes anywhere and its queue had room for it.
    pub admitted: bool,
}

/// How many cells wait in each queue of an input, kept slot by slot: the packet of a slot arrives, and then the slot
/// serves a part of the row or nothing. After [`QueueLengths::make`] it takes no memory.
#[derive(Drop)]
pub struct QueueLengths {
    ports: u32,
    depth: u32,
    packets: Vec<Planned>,
    // How many of the packets have come.
    next: u32,
    // The cells that wait, by the queue's place.
    lengths: Vec<u32>,
}

impl Model for QueueLengths {
    ghost use Rattle.std.specs.Prelude.{◌<◌, ◌^◌, length};
    ghost use Rattle.queue_lengths.specs.Counters.{Counters};

    ghost Value = { Counters };

    ghost view = { λ q. record { ports = q.ports; depth = q.depth; packets = q.packets.items; next = q.next; lengths = q.lengths.items } };

    ghost invariant = { λ q. length q.packets.items < 2 ^ 32 };
}

impl QueueLengths {
    /// The queues of an input that is to send what a plan of fewer than 2^32 packets says, before slot 0. It copies
    /// the plan's packets, without their bytes; out of memory is the only error.
    pub fn make(alloc: Global, plan: &CardPlan) -> Result<QueueLengths, OutOfMemory>
        requires good { IsGoodPlan (plan_of plan.now) }
        requires few { length (plan_of plan.now).packets < 2 ^ 32 }
        ensures { IfOk result (λ queues. CountBefore (plan_of plan.now) queues []) }
    {
        let packets = plan.packets.to_vec(alloc)?;
        let lengths = vec![in alloc; 0; queue_count(plan.n) as usize]?;
        Ok(QueueLengths {
            ports: plan.n,
            depth: plan.depth,
            packets,
            next: 0,
            lengths,
        })
    }

    /// Lets in the packet of slot `slot`, if one arrives and its queue has room for its cells.
    pub fn arrive(&mut self, slot: u32) -> Option<Arrival>
        requires { (plan : Plan) × (served : List (Option AServed)) × CountBefore plan self.old served × (length served ≡ slot) }
        ensures counts { (plan : Plan) (served : List (Option AServed)) → CountBefore plan self.old served → length served ≡ slot
            → CountIn plan self.new served }
        ensures arrival { (plan : Plan) (served : List (Option AServed)) → CountBefore plan self.old served → length served ≡ slot
            → result ≡ arrival_in plan served slot }
    {
        let packet = next_arrival(&self.packets, self.next, slot)?;
        let number = self.next;
        self.next += 1;
        let admitted = enter(self.ports, self.depth, &mut self.lengths, packet);
        Some(Arrival {
            number,
            packet,
            admitted,
        })
    }

    /// Takes off what the slot served: one cell of the queue, or of a multicast queue one only where the part is all that
    /// was left of its head's fan-out. `row` is the input's row of the slot.
    pub fn leave(&mut self, row: &Row, part: Option<Served>)
        requires { (plan : Plan) × (served : List (Option AServed)) × CountIn plan self.old served
            × (row.now ≡ row_at plan served (length served)) × IsServable row.now part }
        ensures { (plan : Plan) (served : List (Option AServed)) → CountIn plan self.old served
            → row.now ≡ row_at plan served (length served) → IsServable row.now part → CountBefore plan self.new (served ++ part ∷ []) }
    {
        let Some(part) = part else {
            return;
        };
        if let Some(place) = leaving(self.ports, row, part) {
            self.lengths[place as usize] -= 1;
        }
    }

    /// How many cells wait in the queue of this place, below [`crate::queue_count`] of the ports.
    pub fn length(&self, place: u32) -> u32
        requires { place < length self.now.lengths }
        ensures { result ≡ slice_index self.now.lengths place }
    {
        self.lengths[place as usize]
    }

    /// How many packets of the input there are.
    pub fn packets(&self) -> &[Planned]
        ensures { result.now ≡ self.now.packets }
    {
        self.packets.as_slice()
    }
}

/// The place of the queue of a packet with this fan-out, one or more of the ports, and level, 0 to 3, among the queues of
/// an input of a switch of `ports` ports.
pub fn queue_place(ports: u32, fan: Ports, level: u8) -> u32
    requires size { ports ≤ MAX_PORTS }
    requires some { fan ≢ 0 }
    requires among { IsAmong ports fan }
    requires level { level < LEVELS }
    ensures place { result ≡ place_of ports (queue_for fan level) }
    ensures inside { result < count_of ports }
{
    match only(fan) {
        Some(output) => LEVELS * output + u32::from(level),
        None => LEVELS * ports + u32::from(level),
    }
}

// Adds the packet's cells to its queue, if it goes anywhere and they fit. Answers whether it did.
fn enter(ports: u32, depth: u32, lengths: &mut [u32], packet: Planned) -> bool
    requires { MayEnter ports depth lengths.old packet }
    ensures test { result ≡ enters_at ports depth lengths.old packet }
    ensures lengths { lengths.new ≡ lengths_with ports lengths.old packet result }
{
    if is_empty(packet.fan) {
        return false;
    }
    let place = queue_place(ports, packet.fan, packet.level) as usize;
    let waiting = lengths[place];
    let cells = cells_of(packet.len);
    let fits = cells <= depth - waiting;
    if fits {
        lengths[place] = waiting + cells;
    }
    fits
}

// The place of the queue whose first cell leaves with a part of the row, if one does.
fn leaving(ports: u32, row: &Row, part: Served) -> Option<u32>
    requires size { ports ≤ MAX_PORTS }
    requires among { part.kind ≡ Uni → IsAmong ports part.outputs }
    requires part { IsPartOf row.now part }
    ensures { result ≡ place_left ports row.now part }
{
    match part.kind {
        Kind::Uni => Some(queue_place(ports, part.outputs, part.level)),
        Kind::Multi => {
            let whole = row.multi[part.level as usize] == part.outputs;
            whole.then_some(LEVELS * ports + u32::from(part.level))
        }
    }
}
