//! Where a run ends under any scheduler, as the contracts of functions that do nothing.

ghost use Rattle.std.specs.Prelude.{◌≡◌, ℕ, ◌≤◌};
ghost use Rattle.eslip_rounds.specs.Schedulers.{Scheduler, IsScheduler};
ghost use Rattle.switch_plan.specs.GoodPlans.{SwitchPlan, IsGood};
ghost use Rattle.run_laws.specs.Ends.{IsLengthUnder};
ghost use Rattle.run_laws.specs.Promises.{ArrivalsComeFirst, BusySlotsMatchUnder, HasFewSlotsUnder};

/// A slot in which some port posts a row that is not empty matches a pair.
pub fn busy_slots_match()
    ensures { (scheduler : Scheduler) (plan : SwitchPlan) → IsScheduler scheduler → IsGood plan → BusySlotsMatchUnder scheduler plan }
{}

/// A run ends, within its plan's slots, and after no more slots than the greatest number of arrival slots,
/// the cells of the admitted packets counted for each output, and one.
pub fn runs_end()
    ensures ends { (scheduler : Scheduler) (plan : SwitchPlan) → IsScheduler scheduler → IsGood plan → (slots : ℕ) × IsLengthUnder scheduler plan slots
        × (slots ≤ plan.max_slots) }
    ensures bound { (scheduler : Scheduler) (plan : SwitchPlan) (slots : ℕ) → IsScheduler scheduler → IsGood plan → IsLengthUnder scheduler plan slots
        → HasFewSlotsUnder scheduler plan slots }
{}

/// A run has one length.
pub fn lengths_are_one()
    ensures { (scheduler : Scheduler) (plan : SwitchPlan) (a b : ℕ) → IsLengthUnder scheduler plan a → IsLengthUnder scheduler plan b → a ≡ b }
{}

/// All packets arrive before the run ends.
pub fn arrivals_come_first()
    ensures { (scheduler : Scheduler) (plan : SwitchPlan) (slots : ℕ) → IsLengthUnder scheduler plan slots → ArrivalsComeFirst plan slots }
{}
