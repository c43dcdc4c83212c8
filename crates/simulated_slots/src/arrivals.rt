ghost use Rattle.std.specs.Prelude.{◌≡◌, ◌+◌, ◌<◌, ◌≤◌, ◌*◌, ◌^◌, [], ◌∷◌, length, option_to_list, IfOk};
ghost use Rattle.rotating_pick.specs.declared.limits.TheConstants.{MAX_PORTS};
ghost use Rattle.made_traffic.specs.Sources.{next_source};
ghost use Rattle.arrival_queues.specs.Queues.{empty_queues, queue_count};
ghost use Rattle.arrival_queues.specs.declared.limits.TheConstants.{MAX_CELLS};
ghost use Rattle.simulated_slots.specs.ArrivalSteps.{AllCame, AreArrivals, AreSources, HaveCome, HaveTold, KeepSizes, cell_from};
ghost use Rattle.simulated_slots.specs.TableSteps.{HasCounted};

use crate::count_table::CountTable;
use arrival_queues::{ArrivalQueues, Queueing};
use made_traffic::Source;
use rotating_pick::OutOfMemory;
use std::alloc::Global;

/// The queues of a switch, and what was counted of the cells that came.
#[derive(Drop)]
pub struct Arrivals {
    /// The queues.
    pub queues: ArrivalQueues,
    /// The inputs of the cells that came in measured slots.
    pub arrived: CountTable,
    /// The inputs of those of them that were dropped.
    pub dropped: CountTable,
    /// The most cells that a queue had, in all slots.
    pub peak: u32,
}

impl Arrivals {
    /// Empty queues. It takes all memory that they and the counts need.
    pub fn make(
        alloc: Global,
        queueing: Queueing,
        ports: u32,
        depth: u32,
    ) -> Result<Arrivals, OutOfMemory>
        requires some { 0 < ports }
        requires size { ports ≤ MAX_PORTS }
        requires room { queue_count queueing ports * depth ≤ MAX_CELLS }
        ensures queues { IfOk result (λ arrivals. arrivals.queues ≡ empty_queues queueing ports depth) }
        ensures arrived { IfOk result (λ arrivals. HasCounted arrivals.arrived []) }
        ensures dropped { IfOk result (λ arrivals. HasCounted arrivals.dropped []) }
        ensures peak { IfOk result (λ arrivals. arrivals.peak ≡ 0) }
        ensures sizes { IfOk result (AreArrivals ports 0) }
    {
        Ok(Arrivals {
            queues: ArrivalQueues::make(alloc, queueing, ports, depth)?,
            arrived: CountTable::make(alloc, ports)?,
            dropped: CountTable::make(alloc, ports)?,
            peak: 0,
        })
    }

    /// A cell comes in this slot, which is measured or not. It takes no memory.
    pub fn come(&mut self, slot: u32, input: u32, output: u32, measured: bool)
        requires input { input < self.old.queues.ports }
        requires output { output < self.old.queues.ports }
        requires counts { length self.old.arrived.counts ≡ self.old.queues.ports }
        requires counts_dropped { length self.old.dropped.counts ≡ self.old.queues.ports }
        requires few { self.old.arrived.total < 2 ^ 63 }
        requires few_dropped { self.old.dropped.total < 2 ^ 63 }
        ensures come { HaveCome measured (record { arrival = slot; input = input; output = output } ∷ []) self.old self.new }
        ensures sizes { KeepSizes self.old self.new }
    {
        let length = self.queues.enter(slot, input, output);
        if measured {
            self.arrived.note(input);
        }
        match length {
            Some(length) => self.peak = self.peak.max(length),
            None if measured => self.dropped.note(input),
            None => {},
        }
    }
}

/// The cells of a slot come, inputs in order: each source tells of its next slot, which is measured or not. It takes no
/// memory.
pub fn take_in(sources: &mut Vec<Source>, arrivals: &mut Arrivals, slot: u32, measured: bool)
    requires sources { AreSources arrivals.old.queues.ports sources.old.items }
    requires sizes { AreArrivals arrivals.old.queues.ports (MAX_PORTS * slot) arrivals.old }
    requires came { AllCame slot arrivals.old.queues }
    ensures told { HaveTold measured slot arrivals.old.queues.ports sources.old.items sources.new.items arrivals.old arrivals.new }
{
    for input in 0..arrivals.queues.ports() {
        take_in_from(
            &mut sources[input as usize],
            arrivals,
            slot,
            input,
            measured,
        );
    }
}

// The source of an input tells of a slot, and the cell that it tells of comes.
fn take_in_from(source: &mut Source, arrivals: &mut Arrivals, slot: u32, input: u32, measured: bool)
    requires input { source.old.input ≡ input }
    requires within { input < arrivals.old.queues.ports }
    requires ports { source.old.traffic.ports ≡ arrivals.old.queues.ports }
    requires counts { length arrivals.old.arrived.counts ≡ arrivals.old.queues.ports }
    requires counts_dropped { length arrivals.old.dropped.counts ≡ arrivals.old.queues.ports }
    requires few { arrivals.old.arrived.total < 2 ^ 63 }
    requires few_dropped { arrivals.old.dropped.total < 2 ^ 63 }
    ensures source { source.new ≡ next_source source.old }
    ensures come { HaveCome measured (option_to_list (cell_from slot source.old)) arrivals.old arrivals.new }
    ensures sizes { KeepSizes arrivals.old arrivals.new }
{
    if let Some(output) = source.next() {
        arrivals.come(slot, input, output, measured);
    }
}
