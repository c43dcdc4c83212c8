ghost use Rattle.std.specs.Prelude.{◌≡◌, ◌+◌, ℕ, Bool, if◌then◌else◌, [], IfOk, IfSome, string_bytes};
ghost use Rattle.eslip_rounds.specs.Schedulers.{Scheduler};
ghost use Rattle.slot_report.specs.Lines.{lines_text};
ghost use Rattle.switch_plan.specs.GoodPlans.{SwitchPlan, IsGood, IsCountable, switch_plan_of};
ghost use Rattle.run_laws.specs.Promises.{ArrivalsComeFirst};
ghost use Rattle.run_laws.specs.Runs.{IsSlotUnder};
ghost use Rattle.queue_measures.specs.Lines.{queue_lines_under};
ghost use Rattle.run_notes.specs.NotingSteps.{AreQueuesAfter, IsKept};

use crossbar::Post;
use queue_measures::QueueMeasures;
use rotating_pick::OutOfMemory;
use slot_match::Match;
use std::alloc::Global;
use switch_plan::Plan;

/// The measures of the plan's queues before slot 0, where they are wanted.
pub(crate) fn measures_for(
    alloc: Global,
    is_wanted: bool,
    plan: &Plan,
) -> Result<Option<QueueMeasures>, OutOfMemory>
    requires good { IsGood (switch_plan_of plan.now) }
    requires countable { IsCountable (switch_plan_of plan.now) }
    ensures { IfOk result (λ measures. (scheduler : Scheduler) → IsKept is_wanted (AreQueuesAfter scheduler (switch_plan_of plan.now) 0) measures) }
{
    if is_wanted {
        Ok(Some(QueueMeasures::make(alloc, plan)?))
    } else {
        Ok(None)
    }
}

/// Notes the slot, where the queues are wanted.
pub(crate) fn note_queues(
    measures: &mut Option<QueueMeasures>,
    slot: u32,
    posts: &[Post],
    matched: &Match,
)
    requires { (scheduler : Scheduler) × (plan : SwitchPlan) × IfSome measures.old (AreQueuesAfter scheduler plan slot)
        × IsSlotUnder scheduler plan slot posts.now matched.now }
    ensures { (scheduler : Scheduler) (plan : SwitchPlan) (is_wanted : Bool) → IsKept is_wanted (AreQueuesAfter scheduler plan slot) measures.old
        → IsSlotUnder scheduler plan slot posts.now matched.now → IsKept is_wanted (AreQueuesAfter scheduler plan (slot + 1)) measures.new }
{
    if let Some(measures) = measures {
        measures.note(slot, posts, matched);
    }
}

/// The lines of the queues, empty where they are not wanted.
pub(crate) fn queue_lines(
    alloc: Global,
    measures: &Option<QueueMeasures>,
) -> Result<String, OutOfMemory>
    ensures { (scheduler : Scheduler) (plan : SwitchPlan) (is_wanted : Bool) (slots : ℕ) → IsKept is_wanted (AreQueuesAfter scheduler plan slots) measures.now
        → ArrivalsComeFirst plan slots
        → IfOk result (λ text. string_bytes text ≡ (if is_wanted then lines_text (queue_lines_under scheduler plan slots) else [])) }
{
    match measures {
        Some(measures) => measures.text(alloc),
        None => Ok(String::new(alloc)),
    }
}
