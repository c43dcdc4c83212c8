ghost use Rattle.std.specs.Prelude.{◌≡◌, ◌+◌, ◌<◌, ◌≤◌, ◌^◌};
ghost use Rattle.simulated_runs.specs.SlotSteps.{begun, ended, filled, no_counts};

use crate::numbers::WaitingNumbers;
use islip_rounds::RoundsUsed;

/// What was counted of whole slots.
#[derive(Clone, Copy, Debug, PartialEq, Eq)]
pub(crate) struct SlotCounts {
    /// The most cells that waited in a slot, of all slots.
    pub(crate) most: u32,
    /// What waited before the first measured slot.
    pub(crate) before: WaitingNumbers,
    /// The sum over the measured slots of the cells that waited when they ended.
    pub(crate) cell_slots: u64,
    /// The sum over the measured slots of the rounds that added a pair.
    pub(crate) rounds_used: u64,
    /// The sum over the measured slots of the pairs of first rounds.
    pub(crate) first_pairs: u64,
}

impl SlotCounts {
    /// Before the first slot.
    pub(crate) fn none() -> SlotCounts
        ensures { result ≡ no_counts }
    {
        SlotCounts {
            most: 0,
            before: WaitingNumbers { cells: 0, age: 0 },
            cell_slots: 0,
            rounds_used: 0,
            first_pairs: 0,
        }
    }

    /// A slot begins, the first measured one or another, before which this waits.
    pub(crate) fn begin(&mut self, is_first: bool, waiting: WaitingNumbers)
        ensures { self.new ≡ begun is_first waiting self.old }
    {
        if is_first {
            self.before = waiting;
        }
    }

    /// The cells of a slot have come, and so many wait.
    pub(crate) fn fill(&mut self, held: u32)
        ensures { self.new ≡ filled held self.old }
    {
        self.most = self.most.max(held);
    }

    /// A slot ends, which is measured or not, whose rounds were used so, and so many cells wait.
    pub(crate) fn end(&mut self, is_measured: bool, used: RoundsUsed, held: u32)
        requires cell_slots { self.old.cell_slots < 2 ^ 63 }
        requires rounds_used { self.old.rounds_used + 2 ^ 32 < 2 ^ 64 }
        requires first_pairs { self.old.first_pairs + 2 ^ 32 < 2 ^ 64 }
        ensures counts { self.new ≡ ended is_measured used held self.old }
        ensures few_rounds { self.new.rounds_used ≤ self.old.rounds_used + 2 ^ 32 }
        ensures few_pairs { self.new.first_pairs ≤ self.old.first_pairs + 2 ^ 32 }
    {
        if is_measured {
            self.cell_slots += u64::from(held);
            self.rounds_used += u64::from(used.used);
            self.first_pairs += u64::from(used.first);
        }
    }
}
