//! Laws about the measures of the queues and the report's lines of them, as the contracts of functions that do nothing.

ghost use Rattle.std.specs.Prelude.{ℕ, List};
ghost use Rattle.eslip_rounds.specs.Schedulers.{Scheduler};
ghost use Rattle.switch_plan.specs.GoodPlans.{SwitchPlan, IsGood};
ghost use Rattle.run_laws.specs.Promises.{ArrivalsComeFirst};
ghost use Rattle.idle_slots.specs.Skipped.{IsGap};
ghost use Rattle.queue_measures.specs.NotingSteps.{HasNoted, Input};
ghost use Rattle.queue_measures.specs.Sums.{QueuesAddUpUnder};

/// The numbers of the queues of each input add up, under any scheduler: their packets to those that the input admitted and
/// dropped, and their dropped ones to those that it dropped.
pub fn lines_add_up()
    ensures { (scheduler : Scheduler) (plan : SwitchPlan) (slots : ℕ) → IsGood plan → ArrivalsComeFirst plan slots
        → QueuesAddUpUnder scheduler plan slots }
{}

/// The measures before a slot are those before a later one too, where nothing happens in the slots between them.
pub fn gaps_keep_measures()
    ensures { (scheduler : Scheduler) (plan : SwitchPlan) (measures : List Input) (slot next : ℕ) → HasNoted scheduler plan measures slot
        → IsGap scheduler plan slot next → HasNoted scheduler plan measures next }
{}
