ghost use Rattle.std.specs.Prelude.{◌≡◌, ℕ, List, [], map, length, slice_get, Option, Some, IfOk, IfSome};
ghost use Rattle.std.specs.Option.{option_map};
ghost use Rattle.slot_match.specs.declared.matching.Served.{Served as AServed};
ghost use Rattle.card_core.specs.StateSteps.{next_in, row_of};
ghost use Rattle.output_queued.specs.Switches.{card_for, planned_of};
ghost use Rattle.output_queued.specs.NotingSteps.{IsBefore};
ghost use Rattle.output_queued.specs.Steps.{IsPart, MayTake, HasTaken, HasEntered, IsAdmissible};

use crate::coming::Coming;
use crate::rooms::count_rooms;
use card_core::Queues;
use rotating_pick::OutOfMemory;
use slot_match::{Row, Served};
use std::alloc::Global;
use std::marker::Model;

/// An input of the run: its packets, how many of them have come, and its queues.
#[derive(Drop)]
pub(crate) struct Input {
    coming: Vec<Coming>,
    next: u32,
    queues: Queues,
}

impl Model for Input {
    ghost use Rattle.output_queued.specs.NotingSteps.{Source};

    ghost Value = { Source };

    ghost view = { λ i. record { coming = i.coming.items; next = i.next; banks = i.queues.unicast; fans = i.queues.multicast } };
}

impl Input {
    /// An input that is to send these packets, of a switch of `n` ports with queues of `depth` cells at most,
    /// before the packet of slot 0. It takes all memory that the input needs.
    pub(crate) fn make(
        alloc: Global,
        n: u32,
        depth: u32,
        coming: Vec<Coming>,
    ) -> Result<Input, OutOfMemory>
        requires { IsPart n depth coming.items }
        ensures coming { IfOk result (λ input. input.coming ≡ coming.items) }
        ensures before { IfOk result (λ input. IsBefore (card_for n depth coming.items) input []) }
    {
        let rooms = count_rooms(alloc, n, &coming)?;
        let queues = Queues::make(alloc, depth, &rooms)?;
        Ok(Input {
            coming,
            next: 0,
            queues,
        })
    }

    /// The row of the queues.
    pub(crate) fn row(&self) -> Row
        ensures { result ≡ row_of self.now.banks self.now.fans }
    {
        self.queues.row()
    }

    /// Takes what was served off its queue.
    pub(crate) fn take(&mut self, served: Option<Served>)
        requires { MayTake served self.old }
        ensures { HasTaken served self.old self.new }
    {
        if let Some(part) = served {
            self.queues.leave(part);
        }
    }

    /// Lets in the packet of slot `slot`, if there is one and it fits. Answers it where it was admitted.
    pub(crate) fn arrive(&mut self, slot: u32) -> Option<Coming>
        requires { (n depth : ℕ) × (served : List (Option AServed)) × IsPart n depth self.old.coming × (length served ≡ slot)
            × IsBefore (card_for n depth self.old.coming) self.old served }
        ensures entered { (n depth : ℕ) (served : List (Option AServed)) → IsPart n depth self.old.coming → length served ≡ slot
            → IsBefore (card_for n depth self.old.coming) self.old served → HasEntered n depth slot served self.old self.new result }
        ensures packet { (n depth : ℕ) → IsPart n depth self.old.coming → IsAdmissible n result }
    {
        let packet = arriving(&self.coming, self.next, slot)?;
        let admitted = self
            .queues
            .enter(packet.level, self.next, packet.cells, packet.fan);
        self.next += 1;
        if admitted { Some(packet) } else { None }
    }
}

// The packet that is next, where it arrives in the slot.
fn arriving(coming: &[Coming], next: u32, slot: u32) -> Option<Coming>
    ensures next { option_map planned_of result ≡ next_in (map planned_of coming.now) next slot }
    ensures there { IfSome result (λ c. (slice_get coming.now next ≡ Some c) × (c.slot ≡ slot)) }
{
    let packet = coming.get(next as usize)?;
    if packet.slot == slot {
        Some(*packet)
    } else {
        None
    }
}
