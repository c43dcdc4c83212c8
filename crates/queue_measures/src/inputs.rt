ghost use Rattle.std.specs.Prelude.{◌≡◌, ◌≢◌, ℕ, ◌∷◌, [], ◌++◌, ◌≤◌, ◌<◌};
ghost use Rattle.std.specs.Prelude.{List, length, Option, Some, None, IfOk, replicate, slice_index_or, slice_set};
ghost use Rattle.cell_cutter.specs.declared.sizes.TheConstants.{MAX_FORWARDED_BYTES};
ghost use Rattle.rotating_pick.specs.PortSets.{IsAmong};
ghost use Rattle.rotating_pick.specs.declared.limits.TheConstants.{LEVELS, MAX_PORTS};
ghost use Rattle.slot_match.specs.declared.matching.Served.{Served as AServed};
ghost use Rattle.card_core.specs.Plans.{Plan, IsGoodPlan, plan_of};
ghost use Rattle.card_core.specs.Posts.{row_at, IsServable};
ghost use Rattle.queue_lengths.specs.Lengths.{count_of};
ghost use Rattle.queue_lengths.specs.declared.counters.Arrival.{Arrival as AnArrival};
ghost use Rattle.queue_measures.specs.NotingSteps.{IsCounted, IsNoted, no_numbers};
ghost use Rattle.queue_measures.specs.Steps.{HasRoom, MayCount, with_arrival, with_arrivals, deepest_in};

use crate::numbers::{NO_NUMBERS, QueueNumbers};
use card_core::CardPlan;
use cell_cutter::cells_of;
use queue_lengths::{Arrival, QueueLengths, queue_count, queue_place};
use rotating_pick::{OutOfMemory, is_empty};
use slot_match::{Row, Served};
use std::alloc::{AllocError, Global};
use std::marker::Model;

/// An input: the lengths of its queues, and the numbers of each queue, by its place.
#[derive(Drop)]
pub(crate) struct Input {
    queues: QueueLengths,
    numbers: Vec<QueueNumbers>,
}

impl Model for Input {
    ghost use Rattle.std.specs.Prelude.{◌≤◌, length};
    ghost use Rattle.rotating_pick.specs.declared.limits.TheConstants.{MAX_PORTS};
    ghost use Rattle.queue_lengths.specs.Lengths.{count_of};
    ghost use Rattle.queue_measures.specs.NotingSteps.{Input as InputValue};

    ghost Value = { InputValue };

    ghost view = { λ i. record { counters = i.queues; numbers = i.numbers.items } };

    ghost invariant = { λ i. length i.numbers.items ≤ count_of MAX_PORTS };
}

impl Input {
    /// An input that is to send what a plan of fewer than 2^32 packets and cells says, before slot 0. Out of
    /// memory is the only error.
    pub(crate) fn make(alloc: Global, plan: &CardPlan) -> Result<Input, OutOfMemory>
        requires good { IsGoodPlan (plan_of plan.now) }
        requires counted { IsCounted (plan_of plan.now) }
        ensures { IfOk result (λ input. IsNoted (plan_of plan.now) input []) }
    {
        let queues = QueueLengths::make(alloc, plan)?;
        let numbers = unused(alloc, queue_count(plan.n))?;
        Ok(Input { queues, numbers })
    }

    /// Notes slot `slot`: the packet that arrives, and what the slot served of the input's row.
    pub(crate) fn note(&mut self, ports: u32, slot: u32, row: &Row, part: Option<Served>)
        requires { (plan : Plan) × (served : List (Option AServed)) × IsNoted plan self.old served × (length served ≡ slot) × (plan.ports ≡ ports)
            × (row.now ≡ row_at plan served (length served)) × IsServable row.now part }
        ensures { (plan : Plan) (served : List (Option AServed)) → IsNoted plan self.old served → length served ≡ slot → plan.ports ≡ ports
            → row.now ≡ row_at plan served (length served) → IsServable row.now part → IsNoted plan self.new (served ++ part ∷ []) }
    {
        let arrival = self.queues.arrive(slot);
        count_arrival(&mut self.numbers, &self.queues, ports, slot, arrival);
        self.queues.leave(row, part);
    }

    /// The numbers of the queues, by place.
    pub(crate) fn numbers(&self) -> &[QueueNumbers]
        ensures value { result.now ≡ self.now.numbers }
        ensures few { length result.now ≤ count_of MAX_PORTS }
    {
        self.numbers.as_slice()
    }

    /// The most cells that any of the queues held.
    pub(crate) fn deepest(&self) -> u32
        ensures { result ≡ deepest_in self.now.numbers }
    {
        let mut most = 0;
        for numbers in &self.numbers {
            most = most.max(numbers.peak);
        }
        most
    }
}

// The numbers of so many queues that no packet was for.
fn unused(alloc: Global, count: u32) -> Result<Vec<QueueNumbers>, AllocError>
    ensures { IfOk result (λ numbers. numbers.items ≡ replicate count no_numbers) }
{
    vec![in alloc; NO_NUMBERS; count as usize]
}

// Counts the packet that came in slot `slot`, if one did.
fn count_arrival(
    numbers: &mut [QueueNumbers],
    queues: &QueueLengths,
    ports: u32,
    slot: u32,
    arrival: Option<Arrival>,
)
    requires { (packet : AnArrival) → arrival ≡ Some packet → MayCount ports queues.now.lengths numbers.old packet }
    ensures { numbers.new ≡ with_arrivals ports slot queues.now.lengths arrival numbers.old }
{
    if let Some(packet) = arrival {
        count_packet(numbers, queues, ports, slot, packet);
    }
}

// Counts a packet that came in slot `slot` at its queue, if it goes anywhere.
fn count_packet(
    numbers: &mut [QueueNumbers],
    queues: &QueueLengths,
    ports: u32,
    slot: u32,
    arrival: Arrival,
)
    requires { MayCount ports queues.now.lengths numbers.old arrival }
    ensures { numbers.new ≡ with_arrival ports slot queues.now.lengths arrival numbers.old }
{
    let packet = arrival.packet;
    if !is_empty(packet.fan) {
        let place = queue_place(ports, packet.fan, packet.level);
        let cells = cells_of(packet.len);
        let length = queues.length(place);
        let counted = numbers[place as usize].with_packet(slot, cells, arrival.admitted, length);
        numbers[place as usize] = counted;
    }
}
