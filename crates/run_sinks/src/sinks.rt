ghost use Rattle.std.specs.Prelude.{◌≡◌, ◌<◌, ◌+◌, ℕ, Bool, false, OnOk};
ghost use Rattle.eslip_rounds.specs.Schedulers.{Scheduler, IsScheduler};
ghost use Rattle.switch_plan.specs.GoodPlans.{SwitchPlan};
ghost use Rattle.run_laws.specs.Ends.{IsLengthUnder};
ghost use Rattle.idle_slots.specs.Skipped.{IsGap};
ghost use Rattle.run_sinks.specs.NotedSlots.{IsRunSlot};

use crossbar::Post;
use islip_rounds::RoundsUsed;
use rotating_pick::OutOfMemory;
use slot_match::Match;

/// Takes note of a run, from slot 0 to its end, one slot after the other.
pub trait SlotSink {
    /// What may be wanted of a run.
    type Wanted;

    /// What is wanted of the run, which stays.
    ghost wanted: { Self → Self.Wanted };

    /// Whether slots have to be noted where this is wanted.
    ghost wants_any: { Self.Wanted → Bool };

    /// Whether slots in which nothing happens have to be noted one by one where this is wanted.
    ghost wants_each: { Self.Wanted → Bool };

    /// The first slots of the plan's run under the scheduler, so many, are noted, and no others.
    ghost noted: { Self → Scheduler → SwitchPlan → ℕ → Type 0 };

    /// Whether slots have to be noted. Where not, a slot that was not noted counts as noted.
    fn wants_slots(&self) -> bool
        ensures { result ≡ wants_any (wanted self.now) };

    /// Whether slots in which nothing happens have to be noted one by one. Where not, they may be skipped.
    fn wants_gaps(&self) -> bool
        ensures { result ≡ wants_each (wanted self.now) };

    /// Notes the next slot of the run, from slot 0 on and before its end: what its ports posted, its match, and how its
    /// rounds were used. Out of memory is the only error.
    fn note(
        &mut self,
        slot: u32,
        posts: &[Post],
        matched: &Match,
        numbers: RoundsUsed,
    ) -> Result<(), OutOfMemory>
        requires { (scheduler : Scheduler) × (plan : SwitchPlan) × (slots : ℕ) × IsScheduler scheduler × IsLengthUnder scheduler plan slots
            × (slot < slots) × noted self.old scheduler plan slot × IsRunSlot scheduler plan slot posts.now matched.now numbers }
        ensures wanted { OnOk result (wanted self.new ≡ wanted self.old) }
        ensures noted { (scheduler : Scheduler) (plan : SwitchPlan) → noted self.old scheduler plan slot
            → IsRunSlot scheduler plan slot posts.now matched.now numbers → OnOk result (noted self.new scheduler plan (slot + 1)) };

    /// Goes on with slot `next` of the run, which comes before its end, where nothing happens from slot `slot` on, which is
    /// the next to be noted.
    fn skip(&mut self, slot: u32, next: u32)
        requires { (scheduler : Scheduler) × (plan : SwitchPlan) × (slots : ℕ) × IsScheduler scheduler × IsLengthUnder scheduler plan slots
            × (next < slots) × noted self.old scheduler plan slot × IsGap scheduler plan slot next × (wants_each (wanted self.old) ≡ false) }
        ensures wanted { wanted self.new ≡ wanted self.old }
        ensures noted { (scheduler : Scheduler) (plan : SwitchPlan) → IsScheduler scheduler → noted self.old scheduler plan slot
            → IsGap scheduler plan slot next → noted self.new scheduler plan next };

    ghost unwanted: { (sink : Self) (scheduler : Scheduler) (plan : SwitchPlan) (t u : ℕ) → wants_any (wanted sink) ≡ false
        → noted sink scheduler plan t → noted sink scheduler plan u };
}

/// Notes nothing.
#[derive(Drop)]
pub struct NoSink;

impl SlotSink for NoSink {
    type Wanted = ();

    ghost wanted = { λ sink. tt };

    ghost wants_any = { λ wanted. false };

    ghost wants_each = { λ wanted. false };

    ghost noted = { λ sink scheduler plan t. Unit {0} };

    ghost unwanted = { λ sink scheduler plan t u is noted. tt };

    fn wants_slots(&self) -> bool {
        false
    }

    fn wants_gaps(&self) -> bool {
        false
    }

    fn note(
        &mut self,
        _slot: u32,
        _posts: &[Post],
        _matched: &Match,
        _numbers: RoundsUsed,
    ) -> Result<(), OutOfMemory> {
        Ok(())
    }

    fn skip(&mut self, _slot: u32, _next: u32) {}
}
