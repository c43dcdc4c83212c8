//! Laws on what slots add to captures, as the contracts of functions that do nothing.

ghost use Rattle.std.specs.Prelude.{◌≡◌, ℕ, ◌+◌, ◌<◌, ◌≤◌, [], length};
ghost use Rattle.eslip_rounds.specs.Schedulers.{Scheduler, IsScheduler};
ghost use Rattle.switch_plan.specs.GoodPlans.{SwitchPlan, IsGood};
ghost use Rattle.run_laws.specs.Runs.{ports_of};
ghost use Rattle.run_laws.specs.Ends.{IsLengthUnder};
ghost use Rattle.run_laws.specs.Crossings.{cells_under};
ghost use Rattle.run_laws.specs.Outcomes.{messages_under};
ghost use Rattle.slot_records.specs.Slots.{AddsInSlot, AddsNothing};

/// What slot t grants crosses in the slot after it: to each output that it feeds one cell, the first of the queue that it
/// serves, and with the last cell of a packet the packet's message is whole.
pub fn slots_add_records()
    ensures { (scheduler : Scheduler) (plan : SwitchPlan) (j t : ℕ) → IsScheduler scheduler → IsGood plan → j < ports_of plan
        → AddsInSlot scheduler plan j t }
{}

/// In slot 0 nothing crosses, and nothing in the slot after the last slot of a run: all that its slots granted has crossed by
/// its end.
pub fn runs_leave_nothing()
    ensures begins { (scheduler : Scheduler) (plan : SwitchPlan) (j : ℕ) → cells_under scheduler plan j 1 ≡ [] }
    ensures begins_empty { (scheduler : Scheduler) (plan : SwitchPlan) (j : ℕ) → messages_under scheduler plan j 1 ≡ [] }
    ensures ends { (scheduler : Scheduler) (plan : SwitchPlan) (slots j : ℕ) → IsScheduler scheduler → IsGood plan → IsLengthUnder scheduler plan slots
        → j < ports_of plan → AddsNothing scheduler plan j slots (slots + 1) }
{}

/// At most one cell crosses to an output in each slot after slot 0, and no more messages than cells.
pub fn slots_add_one_cell()
    ensures cells { (scheduler : Scheduler) (plan : SwitchPlan) (j slots : ℕ) → length (cells_under scheduler plan j (slots + 1)) ≤ slots }
    ensures messages { (scheduler : Scheduler) (plan : SwitchPlan) (j slots : ℕ)
        → length (messages_under scheduler plan j slots) ≤ length (cells_under scheduler plan j slots) }
{}
