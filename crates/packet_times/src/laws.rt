//! Laws about the packets file, as the contracts of functions that do nothing.

ghost use Rattle.std.specs.Prelude.{ℕ, List};
ghost use Rattle.forward_table.specs.declared.route_lines.RouteLine.{RouteLine};
ghost use Rattle.switch_words.specs.declared.job.Settings.{Settings};
ghost use Rattle.eslip_rounds.specs.Schedulers.{Scheduler, IsScheduler};
ghost use Rattle.switch_plan.specs.GoodPlans.{SwitchPlan, IsGood, IsPlanOf};
ghost use Rattle.switch_plan.specs.Traffic.{CaptureFile};
ghost use Rattle.run_laws.specs.Ends.{IsLengthUnder};
ghost use Rattle.idle_slots.specs.Skipped.{IsGap};
ghost use Rattle.packet_times.specs.NotingSteps.{Times, HasNoted};
ghost use Rattle.packet_times.specs.Sums.{RowsAddUp};

/// The file of a run of the plan of a table and captures tells as many packets of each state as the run's summary, and the
/// rows of forwarded packets are as many as the summary has copies.
pub fn rows_add_up()
    ensures { (scheduler : Scheduler) (settings : Settings) (files : List (List ℕ)) (table : List RouteLine) (captures : List CaptureFile)
        (plan : SwitchPlan) (slots : ℕ) → IsScheduler scheduler → IsGood plan → IsPlanOf settings files table captures plan
        → IsLengthUnder scheduler plan slots → RowsAddUp scheduler plan slots }
{}

/// A gap changes nothing of what is kept: where the slots before it are noted, so are those of the gap.
pub fn gaps_keep_times()
    ensures { (scheduler : Scheduler) (plan : SwitchPlan) (times : Times) (slot next : ℕ) → HasNoted scheduler plan times slot
        → IsGap scheduler plan slot next → HasNoted scheduler plan times next }
{}
