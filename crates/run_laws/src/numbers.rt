//! Laws of the numbers and the captures of a run under any scheduler, as the contracts of functions that do nothing.

ghost use Rattle.std.specs.Prelude.{ℕ};
ghost use Rattle.eslip_rounds.specs.Schedulers.{Scheduler, IsScheduler};
ghost use Rattle.switch_plan.specs.GoodPlans.{SwitchPlan, IsGood};
ghost use Rattle.run_laws.specs.Ends.{IsLengthUnder};
ghost use Rattle.run_laws.specs.Outcomes.{summary_under, CountsPacketsOnce};
ghost use Rattle.run_laws.specs.Interleaving.{InterleavesFlowsUnder};

/// The summary of a run counts every packet once: as too long, as one without a route, as dropped or as forwarded.
pub fn packets_are_counted_once()
    ensures { (scheduler : Scheduler) (plan : SwitchPlan) (slots : ℕ) → IsGood plan → IsLengthUnder scheduler plan slots
        → CountsPacketsOnce (summary_under scheduler plan slots) }
{}

/// The messages of each output's capture are those of its flows, and no others, in the order of the slots in which
/// their last cells crossed.
pub fn flows_are_interleaved()
    ensures { (scheduler : Scheduler) (plan : SwitchPlan) (slots : ℕ) → IsScheduler scheduler → IsGood plan → IsLengthUnder scheduler plan slots
        → InterleavesFlowsUnder scheduler plan slots }
{}
