//! Laws about the runs of plans that differ in the depth of their queues alone, as the contracts of functions that do
//! nothing.

ghost use Rattle.std.specs.Prelude.{◌≡◌, ℕ, ◌<◌, ◌≤◌, List};
ghost use Rattle.eslip_rounds.specs.Schedulers.{Scheduler};
ghost use Rattle.voq_banks.specs.declared.limits.TheConstants.{MAX_DEPTH};
ghost use Rattle.forward_table.specs.declared.route_lines.RouteLine.{RouteLine};
ghost use Rattle.switch_words.specs.declared.job.Settings.{Settings};
ghost use Rattle.switch_plan.specs.Traffic.{CaptureFile};
ghost use Rattle.switch_plan.specs.Totals.{total_work};
ghost use Rattle.switch_plan.specs.GoodPlans.{SwitchPlan, packets_in, IsGood, IsBurst, IsPlanOf};
ghost use Rattle.run_laws.specs.Ends.{IsLengthUnder};
ghost use Rattle.queue_measures.specs.Sizing.{with_depth, DropsNothing, IsSized};

/// The sizing theorem, under any scheduler: where the run of a plan drops nothing, with each depth from the cells of its
/// deepest queue, and 1, on the run is the same and drops nothing; with each smaller depth the run drops a packet.
pub fn runs_are_sized()
    ensures { (scheduler : Scheduler) (plan : SwitchPlan) (slots : ℕ) → IsGood plan → IsLengthUnder scheduler plan slots → IsSized scheduler plan slots }
{}

/// With queues that have room for the cells of all packets no run drops anything, under any scheduler. So it is with queues
/// of the greatest depth where the plan is of a burst, and one run with that depth, which a job has where its settings say no
/// other, tells the depth that is needed.
pub fn greatest_depth_drops_nothing()
    ensures any { (scheduler : Scheduler) (plan : SwitchPlan) (slots : ℕ) → IsGood plan → total_work (packets_in plan) ≤ plan.depth
        → DropsNothing scheduler plan slots }
    ensures burst { (scheduler : Scheduler) (plan : SwitchPlan) (slots : ℕ) → IsGood plan → IsBurst plan → plan.depth ≡ MAX_DEPTH
        → DropsNothing scheduler plan slots }
{}

/// A plan with queues of another depth is a plan that a job can be run by, and of a burst as before up to the greatest depth.
pub fn depths_are_good()
    ensures good { (plan : SwitchPlan) (depth : ℕ) → IsGood plan → 0 < depth → IsGood (with_depth depth plan) }
    ensures burst { (plan : SwitchPlan) (depth : ℕ) → IsBurst plan → depth ≤ MAX_DEPTH → IsBurst (with_depth depth plan) }
{}

/// And it is the plan of the job that differs in its depth alone.
pub fn depths_are_settings()
    ensures { (settings : Settings) (files : List (List ℕ)) (table : List RouteLine) (captures : List CaptureFile) (plan : SwitchPlan) (depth : ℕ)
        → IsPlanOf settings files table captures plan → IsPlanOf (record settings { depth = depth }) files table captures (with_depth depth plan) }
{}
