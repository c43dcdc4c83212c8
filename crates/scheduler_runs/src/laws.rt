//! Laws of the runs of a plan under each scheduler, as the contracts of functions that do nothing.

ghost use Rattle.std.specs.Prelude.{ℕ, All};
ghost use Rattle.slot_match.specs.Rows.{AreWithin};
ghost use Rattle.pointer_state.specs.Places.{places_at_first};
ghost use Rattle.eslip_rounds.specs.Schedules.{IsScheduleBy};
ghost use Rattle.service_bound.specs.Windows.{AreKept};
ghost use Rattle.scheduler_names.specs.declared.names.SchedulerName.{SchedulerName};
ghost use Rattle.firm_rounds.specs.Slots.{AreMovedByFirm};
ghost use Rattle.firm_rounds.specs.Decisions.{firm_decision};
ghost use Rattle.rrm_rounds.specs.Slots.{AreMovedByRrm};
ghost use Rattle.rrm_rounds.specs.Decisions.{rrm_decision};
ghost use Rattle.named_schedulers.specs.Named.{decision_named};
ghost use Rattle.switch_plan.specs.GoodPlans.{SwitchPlan, IsGood};
ghost use Rattle.run_laws.specs.Runs.{ports_of};
ghost use Rattle.run_laws.specs.Ends.{IsLengthUnder};
ghost use Rattle.run_laws.specs.Sums.{schedule_under};
ghost use Rattle.run_laws.specs.InTime.{CompletesInTimeUnder};
ghost use Rattle.run_laws.specs.Promises.{CompletesUnder};
ghost use Rattle.scheduler_runs.specs.FirmRuns.{FirmPromises};

/// The slots of the run under FIRM are a schedule of it, from slot 0 and all pointers at port 0 on, of rows that
/// name none but the switch's ports and are kept until they are served.
pub fn slots_are_a_schedule()
    ensures schedule { (plan : SwitchPlan) (slots : ℕ) → IsGood plan
        → IsScheduleBy AreMovedByFirm (ports_of plan) plan.rounds 0 (places_at_first (ports_of plan)) (schedule_under firm_decision plan slots) }
    ensures within { (plan : SwitchPlan) (slots : ℕ) → IsGood plan
        → All (λ slot. AreWithin (ports_of plan) slot.rows) (schedule_under firm_decision plan slots) }
    ensures kept { (plan : SwitchPlan) (slots : ℕ) → IsGood plan → AreKept (ports_of plan) (schedule_under firm_decision plan slots) }
{}

/// The slots of a run under round-robin matching are a schedule of it, from slot 0 and all pointers at port 0 on, of rows
/// that name none but the switch's ports and are kept until they are served.
pub fn rrm_slots_are_a_schedule()
    ensures schedule { (plan : SwitchPlan) (slots : ℕ) → IsGood plan
        → IsScheduleBy AreMovedByRrm (ports_of plan) plan.rounds 0 (places_at_first (ports_of plan)) (schedule_under rrm_decision plan slots) }
    ensures within { (plan : SwitchPlan) (slots : ℕ) → IsGood plan
        → All (λ slot. AreWithin (ports_of plan) slot.rows) (schedule_under rrm_decision plan slots) }
    ensures kept { (plan : SwitchPlan) (slots : ℕ) → IsGood plan → AreKept (ports_of plan) (schedule_under rrm_decision plan slots) }
{}

/// Under each scheduler, in `2 * n` slots of the run in a row, with `n` ports, in which nothing of a better level is
/// posted, a multicast head that is posted in the first completes in one of them, whatever unicast is posted.
pub fn multicast_completes_under_each()
    ensures { (name : SchedulerName) (plan : SwitchPlan) (slots : ℕ) → IsGood plan → CompletesUnder (decision_named name) plan slots }
{}

/// Under each scheduler, in a run of any length, a multicast head that is posted completes within `2 * n` slots, or before the
/// run's end, where nothing of a better level is posted in these.
pub fn multicast_completes_in_time_under_each()
    ensures { (name : SchedulerName) (plan : SwitchPlan) (slots : ℕ) → IsGood plan → IsLengthUnder (decision_named name) plan slots
        → CompletesInTimeUnder (decision_named name) plan slots }
{}

/// The run under FIRM delivers each admitted packet once and in order, and no other. All packets arrive before its end, and each
/// is counted once. While nothing of a better level is posted, a unicast queue that is posted is served within `n * n`
/// slots, where no multicast of its level is posted, and a multicast head that is posted completes within `2 * n`. Or
/// before the run's end; and for the queue it is enough that its output is asked for nothing else.
/// The run has no more slots than the greatest number of arrival slots, the cells of the admitted packets counted
/// for each output, and one; and a slot in which some row is not empty matches a pair.
pub fn runs_are_as_promised()
    ensures { (plan : SwitchPlan) (slots : ℕ) → IsGood plan → IsLengthUnder firm_decision plan slots → FirmPromises plan slots }
{}
