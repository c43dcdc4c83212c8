ghost use Rattle.std.specs.Prelude.{◌≡◌, ℕ, ◌+◌, ◌<◌, ◌≤◌, false, IfOk, OnOk};
ghost use Rattle.eslip_rounds.specs.Schedulers.{Scheduler, IsScheduler};
ghost use Rattle.idle_slots.specs.Quiet.{IsQuiet};
ghost use Rattle.idle_slots.specs.Idle.{IsIdle};
ghost use Rattle.named_schedulers.specs.Named.{decision_named};
ghost use Rattle.slot_histories.specs.Slots.{is_done_before};
ghost use Rattle.switch_plan.specs.GoodPlans.{SwitchPlan, IsGood, IsCountable, switch_plan_of};
ghost use Rattle.run_laws.specs.Ends.{IsLengthUnder};
ghost use Rattle.run_laws.specs.Runs.{ports_of, posts_under};
ghost use Rattle.descriptor_runs.specs.Outcomes.{IsRunOutcome};
ghost use Rattle.descriptor_runs.specs.OutputSteps.{keeping};
ghost use Rattle.descriptor_runs.specs.SwitchSteps.{IsBefore, IsDecided, IsActivity};

use crate::ends::{PlanNumbers, finish};
use crate::outputs::Captures;
use crate::posts::put_posts;
use crate::switch::{Activity, Switch};
use idle_slots::laws;
use rotating_pick::OutOfMemory;
use run_laws::ends;
use run_sinks::SlotSink;
use scheduler_names::SchedulerName;
use slot_report::{OutLine, Summary};
use std::alloc::Global;
use switch_plan::Plan;

/// What a run leaves.
#[derive(Drop)]
pub struct RunOutcome {
    /// The numbers of the run.
    pub summary: Summary,
    /// The capture of each output, by port, or none where captures are dropped.
    pub captures: Vec<Vec<u8>>,
    /// How much came to each output, by port.
    pub lines: Vec<OutLine>,
}

/// Runs the plan on this thread under the scheduler of this name, to its end. Each slot is noted by the sink when it is made,
/// where it wants slots; slots in which nothing can happen are skipped, where it does not want them one by one. The only error is
/// out of memory.
pub fn run_by_descriptors<S: SlotSink>(
    alloc: Global,
    plan: Plan,
    scheduler: SchedulerName,
    captures: Captures,
    sink: &mut S,
) -> Result<RunOutcome, OutOfMemory>
    requires good { IsGood (switch_plan_of plan) }
    requires countable { IsCountable (switch_plan_of plan) }
    requires noted { S.noted sink.old (decision_named scheduler) (switch_plan_of plan) 0 }
    ensures run { IfOk result (λ outcome. (slots : ℕ) × IsRunOutcome captures (decision_named scheduler) (switch_plan_of plan) slots outcome
        × S.noted sink.new (decision_named scheduler) (switch_plan_of plan) slots) }
    ensures wanted { OnOk result (S.wanted sink.new ≡ S.wanted sink.old) }
{
    laws::quiet_decisions();
    let max_slots = plan.max_slots;
    let numbers = PlanNumbers::of(&plan);
    let mut switch = Switch::make(alloc, scheduler, captures, plan)?;
    let slots = switch.run(max_slots, sink)?;
    finish(alloc, switch, &numbers, slots)
}

impl Switch {
    /// Makes the run to its end, and answers how many slots there are. The only error is out of memory.
    pub(crate) fn run<S: SlotSink>(
        &mut self,
        max_slots: u32,
        sink: &mut S,
    ) -> Result<u32, OutOfMemory>
        requires { (scheduler : Scheduler) × (plan : SwitchPlan) × IsScheduler scheduler × IsQuiet scheduler × IsGood plan × IsCountable plan
            × (max_slots ≡ plan.max_slots) × IsBefore scheduler plan 0 self.old × S.noted sink.old scheduler plan 0 }
        ensures run { (scheduler : Scheduler) (plan : SwitchPlan) → IsScheduler scheduler → IsQuiet scheduler → IsGood plan → max_slots ≡ plan.max_slots
            → IsBefore scheduler plan 0 self.old → S.noted sink.old scheduler plan 0
            → IfOk result (λ slots. IsLengthUnder scheduler plan slots × IsBefore scheduler plan slots self.new
            × S.noted sink.new scheduler plan slots × (slots ≤ max_slots)) }
        ensures kept { OnOk result (keeping self.new.outputs.items ≡ keeping self.old.outputs.items) }
        ensures wanted { OnOk result (S.wanted sink.new ≡ S.wanted sink.old) }
    {
        ends::runs_end();
        let mut slot = 0;
        while slot < max_slots {
            match self.make_slot(slot, sink)? {
                Activity::Done => return Ok(slot + 1),
                activity => slot = self.go_on(slot + 1, activity, sink),
            }
        }
        unreachable!()
    }

    // Makes the slot, notes it where the sink wants slots, and answers what goes on in it.
    fn make_slot<S: SlotSink>(&mut self, slot: u32, sink: &mut S) -> Result<Activity, OutOfMemory>
        requires { (scheduler : Scheduler) × (plan : SwitchPlan) × (slots : ℕ) × IsScheduler scheduler × IsGood plan × IsCountable plan
            × IsLengthUnder scheduler plan slots × (slots ≤ plan.max_slots) × (slot < slots) × IsBefore scheduler plan slot self.old
            × S.noted sink.old scheduler plan slot }
        ensures made { (scheduler : Scheduler) (plan : SwitchPlan) → IsScheduler scheduler → IsGood plan → IsBefore scheduler plan slot self.old
            → S.noted sink.old scheduler plan slot → IfOk result (λ activity. IsActivity scheduler plan slot activity
            × IsBefore scheduler plan (slot + 1) self.new × S.noted sink.new scheduler plan (slot + 1)) }
        ensures kept { OnOk result (keeping self.new.outputs.items ≡ keeping self.old.outputs.items) }
        ensures wanted { OnOk result (S.wanted sink.new ≡ S.wanted sink.old) }
    {
        let activity = self.decide(slot);
        self.note_slot(slot, sink)?;
        self.serve()?;
        Ok(activity)
    }

    // Notes the slot, which is decided, where the sink wants slots.
    fn note_slot<S: SlotSink>(&mut self, slot: u32, sink: &mut S) -> Result<(), OutOfMemory>
        requires { (scheduler : Scheduler) × (plan : SwitchPlan) × (slots : ℕ) × IsScheduler scheduler × IsGood plan × IsLengthUnder scheduler plan slots
            × (slot < slots) × IsDecided scheduler plan slot self.old × S.noted sink.old scheduler plan slot }
        ensures noted { (scheduler : Scheduler) (plan : SwitchPlan) → IsScheduler scheduler → IsGood plan → IsDecided scheduler plan slot self.old
            → S.noted sink.old scheduler plan slot
            → OnOk result (IsDecided scheduler plan slot self.new × S.noted sink.new scheduler plan (slot + 1)) }
        ensures outputs { self.new.outputs ≡ self.old.outputs }
        ensures wanted { OnOk result (S.wanted sink.new ≡ S.wanted sink.old) }
    {
        if !sink.wants_slots() {
            return Ok(());
        }
        put_posts(
            &mut self.posts,
            self.inputs.as_slice(),
            self.inputs.columns().rows(),
            &self.names,
        );
        sink.note(slot, &self.posts, &self.matched, self.numbers)
    }

    // The slot with which the run goes on, where this went on in the slot before this one and was not all: where it was idle
    // and gaps need not be noted slot by slot, the next in which a packet arrives.
    fn go_on<S: SlotSink>(&mut self, slot: u32, activity: Activity, sink: &mut S) -> u32
        requires { (scheduler : Scheduler) × (plan : SwitchPlan) × (t : ℕ) × (slot ≡ t + 1) × IsScheduler scheduler × IsQuiet scheduler × IsGood plan
            × (is_done_before (ports_of plan) (posts_under scheduler plan) slot ≡ false) × IsActivity scheduler plan t activity
            × IsBefore scheduler plan slot self.old × S.noted sink.old scheduler plan slot }
        ensures later { slot ≤ result }
        ensures next { (scheduler : Scheduler) (plan : SwitchPlan) (t : ℕ) → slot ≡ t + 1 → IsScheduler scheduler → IsQuiet scheduler → IsGood plan
            → is_done_before (ports_of plan) (posts_under scheduler plan) slot ≡ false → IsActivity scheduler plan t activity
            → IsBefore scheduler plan slot self.old → S.noted sink.old scheduler plan slot → IsBefore scheduler plan result self.new
            × (is_done_before (ports_of plan) (posts_under scheduler plan) result ≡ false) × S.noted sink.new scheduler plan result }
        ensures outputs { self.new.outputs ≡ self.old.outputs }
        ensures wanted { S.wanted sink.new ≡ S.wanted sink.old }
    {
        match activity {
            Activity::Idle if !sink.wants_gaps() => self.skip_gap(slot, sink),
            _ => slot,
        }
    }

    // Goes on with the next slot in which a packet arrives, where no input asked for an output in the slot before this one and
    // gaps need not be noted slot by slot.
    fn skip_gap<S: SlotSink>(&mut self, slot: u32, sink: &mut S) -> u32
        requires { (scheduler : Scheduler) × (plan : SwitchPlan) × (t : ℕ) × (slot ≡ t + 1) × IsScheduler scheduler × IsQuiet scheduler × IsGood plan
            × (is_done_before (ports_of plan) (posts_under scheduler plan) slot ≡ false) × IsIdle scheduler plan t
            × IsBefore scheduler plan slot self.old × S.noted sink.old scheduler plan slot × (S.wants_each (S.wanted sink.old) ≡ false) }
        ensures later { slot ≤ result }
        ensures next { (scheduler : Scheduler) (plan : SwitchPlan) (t : ℕ) → slot ≡ t + 1 → IsScheduler scheduler → IsQuiet scheduler → IsGood plan
            → IsIdle scheduler plan t → IsBefore scheduler plan slot self.old → S.noted sink.old scheduler plan slot
            → IsBefore scheduler plan result self.new × S.noted sink.new scheduler plan result }
        ensures going { (scheduler : Scheduler) (plan : SwitchPlan) → IsBefore scheduler plan slot self.old
            → is_done_before (ports_of plan) (posts_under scheduler plan) slot ≡ false
            → is_done_before (ports_of plan) (posts_under scheduler plan) result ≡ false }
        ensures outputs { self.new.outputs ≡ self.old.outputs }
        ensures wanted { S.wanted sink.new ≡ S.wanted sink.old }
    {
        laws::idle_slots_change_nothing();
        laws::gaps_can_be_skipped();
        laws::runs_do_not_end_in_gaps();
        ends::runs_end();
        let next = self.inputs.first_arrival().unwrap_or(slot);
        self.meter.skip(next - slot);
        sink.skip(slot, next);
        next
    }
}
