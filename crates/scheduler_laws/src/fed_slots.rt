//! Laws about cells that come to a switch, as the contracts of functions that do nothing.

ghost use Rattle.std.specs.Prelude.{ℕ, List};
ghost use Rattle.eslip_rounds.specs.Schedules.{DecidedSlot};
ghost use Rattle.scheduler_laws.specs.FedSlots.{Traffic, IsAtLineRate, AreFed};
ghost use Rattle.scheduler_laws.specs.Counts.{Counts, AreCounted};

/// Where cells can be counted in all queues, slot by slot, so that each queue with cells asks and at most one cell more waits
/// at each input in a slot, there are cells that come so: at most one to each input in a slot.
pub fn line_rate_is_fed()
    ensures { (n : ℕ) (slots : List DecidedSlot) (counts : List Counts) → AreCounted n (λ i j. 0) slots counts
        → (traffic : Traffic) × IsAtLineRate n traffic × AreFed n traffic slots }
{}
