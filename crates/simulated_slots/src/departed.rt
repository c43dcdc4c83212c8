ghost use Rattle.std.specs.Prelude.{◌≡◌, ◌+◌, ◌-◌, ◌<◌, ◌≤◌, ◌*◌, ◌^◌, ℕ, [], ◌∷◌, length, option_to_list, Some, IfOk, IfSome};
ghost use Rattle.rotating_pick.specs.declared.limits.TheConstants.{MAX_PORTS};
ghost use Rattle.delay_counts.specs.declared.limits.TheConstants.{MAX_DELAYS};
ghost use Rattle.delay_counts.specs.CountSteps.{HasCounted as HasDelays};
ghost use Rattle.arrival_queues.specs.Queues.{head_of, queue_for, queues_without_head};
ghost use Rattle.simulated_slots.specs.Jobs.{queueing_of};
ghost use Rattle.simulated_slots.specs.ArrivalSteps.{AllCame};
ghost use Rattle.simulated_slots.specs.DepartureSteps.{AreDeparted, HaveDeparted, HaveServed};
ghost use Rattle.simulated_slots.specs.TableSteps.{HasBatched, HasCounted};

use crate::arbiter::Arbiter;
use crate::batch_table::BatchTable;
use crate::count_table::CountTable;
use arrival_queues::{ArrivalQueues, ArrivedCell};
use delay_counts::DelayCounts;
use rotating_pick::OutOfMemory;
use std::alloc::Global;

/// What was counted of the cells that departed.
#[derive(Drop)]
pub struct Departed {
    /// The inputs that the cells left.
    pub left: CountTable,
    /// The outputs for which they left.
    pub fed: CountTable,
    /// The delays of each batch, in slots.
    pub batches: BatchTable,
    /// All delays, in slots.
    pub delays: DelayCounts,
}

impl Departed {
    /// None of a switch of so many ports, in so many batches. It takes all memory that the counts need.
    pub fn make(alloc: Global, ports: u32, batches: u32) -> Result<Departed, OutOfMemory>
        ensures left { IfOk result (λ departed. HasCounted departed.left []) }
        ensures fed { IfOk result (λ departed. HasCounted departed.fed []) }
        ensures batches { IfOk result (λ departed. HasBatched departed.batches []) }
        ensures delays { IfOk result (λ departed. HasDelays departed.delays []) }
        ensures sizes { IfOk result (AreDeparted ports batches 0) }
    {
        Ok(Departed {
            left: CountTable::make(alloc, ports)?,
            fed: CountTable::make(alloc, ports)?,
            batches: BatchTable::make(alloc, batches)?,
            delays: DelayCounts::make(alloc)?,
        })
    }

    /// Each output is served in this slot, in order: the first cell of its queue leaves. The slot is one of a batch, or is
    /// not measured. It takes no memory.
    pub fn serve(
        &mut self,
        queues: &mut ArrivalQueues,
        arbiter: &Arbiter,
        slot: u32,
        batch: Option<u32>,
    )
        requires ports { queues.old.ports ≡ arbiter.now.places.ports }
        requires queueing { queues.old.queueing ≡ queueing_of arbiter.now.discipline }
        requires batch { IfSome batch (λ b. b < length self.old.batches.delays) }
        requires sizes { AreDeparted queues.old.ports (length self.old.batches.delays) (MAX_PORTS * slot) self.old }
        requires came { AllCame (slot + 1) queues.old }
        requires slot { slot + 1 < 2 ^ 32 }
        ensures served { HaveServed slot batch arbiter.now.discipline arbiter.now.matched queues.old.ports (length self.old.batches.delays)
            queues.old queues.new self.old self.new }
    {
        for output in 0..queues.ports() {
            if let Some(input) = arbiter.served(output) {
                self.leave(queues, input, output, slot, batch);
            }
        }
    }

    // The first cell of the queue of the cells from the input to the output leaves, if there is one.
    fn leave(
        &mut self,
        queues: &mut ArrivalQueues,
        input: u32,
        output: u32,
        slot: u32,
        batch: Option<u32>,
    )
        requires input { input < queues.old.ports }
        requires output { output < queues.old.ports }
        requires batch { IfSome batch (λ b. b < length self.old.batches.delays) }
        requires sizes { AreDeparted queues.old.ports (length self.old.batches.delays) (MAX_DELAYS - 1) self.old }
        requires came { AllCame (slot + 1) queues.old }
        requires slot { slot + 1 < 2 ^ 32 }
        ensures queues { queues.new ≡ queues_without_head queues.old (queue_for queues.old input output) }
        ensures departed { HaveDeparted slot batch (option_to_list (head_of queues.old (queue_for queues.old input output))) self.old self.new }
        ensures sizes { (most : ℕ) → AreDeparted queues.old.ports (length self.old.batches.delays) most self.old
            → AreDeparted queues.old.ports (length self.old.batches.delays) (most + 1) self.new }
    {
        if let (Some(cell), Some(batch)) = (queues.leave(input, output), batch) {
            self.note(cell, slot, batch);
        }
    }

    // A cell that leaves in a slot of the batch is counted.
    fn note(&mut self, cell: ArrivedCell, slot: u32, batch: u32)
        requires input { cell.input < length self.old.left.counts }
        requires output { cell.output < length self.old.fed.counts }
        requires batch { batch < length self.old.batches.delays }
        requires batch_counted { batch < length self.old.batches.departed.counts }
        requires came { cell.arrival < slot + 1 }
        requires slot { slot + 1 < 2 ^ 32 }
        requires few_left { self.old.left.total < MAX_DELAYS }
        requires few_fed { self.old.fed.total < MAX_DELAYS }
        requires few_batched { self.old.batches.departed.total < MAX_DELAYS }
        requires few_delays { self.old.delays.total < MAX_DELAYS }
        ensures departed { HaveDeparted slot (Some batch) (cell ∷ []) self.old self.new }
        ensures sizes { (n batches most : ℕ) → AreDeparted n batches most self.old → AreDeparted n batches (most + 1) self.new }
    {
        let delay = slot + 1 - cell.arrival;
        self.left.note(cell.input);
        self.fed.note(cell.output);
        self.batches.note(batch, delay);
        self.delays.note(delay);
    }
}
