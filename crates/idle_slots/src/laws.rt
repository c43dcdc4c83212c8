//! Laws on idle slots, as the contracts of functions that do nothing.

ghost use Rattle.std.specs.Prelude.{◌≡◌, ℕ, ◌+◌, ◌<◌, ◌≤◌, Some, slice_get, false};
ghost use Rattle.scheduler_names.specs.declared.names.SchedulerName.{SchedulerName};
ghost use Rattle.eslip_rounds.specs.Schedulers.{Scheduler, IsScheduler};
ghost use Rattle.named_schedulers.specs.Named.{decision_named};
ghost use Rattle.slot_histories.specs.Slots.{is_done_at};
ghost use Rattle.card_core.specs.declared.plan.Planned.{Planned};
ghost use Rattle.switch_plan.specs.GoodPlans.{SwitchPlan, IsGood};
ghost use Rattle.run_laws.specs.Runs.{ports_of, card_at, posts_under};
ghost use Rattle.idle_slots.specs.Quiet.{IsQuiet};
ghost use Rattle.idle_slots.specs.Idle.{IsIdle, NoneArrive, AreIdle};
ghost use Rattle.idle_slots.specs.Skipped.{AreAsAfter};

/// A slot in which no input asks matches nothing, adds nothing to the numbers of rounds and moves no pointer, under each
/// scheduler that has a name.
pub fn quiet_decisions()
    ensures { (name : SchedulerName) → IsQuiet (decision_named name) }
{}

/// Where no input asks in slot t, and no packet arrives after it and before slot u, nothing happens in these slots: so a run
/// can go on with slot u.
pub fn idle_slots_change_nothing()
    ensures { (scheduler : Scheduler) (plan : SwitchPlan) (t u : ℕ) → IsScheduler scheduler → IsQuiet scheduler → IsGood plan → t < u
        → IsIdle scheduler plan t → NoneArrive plan (t + 1) u → AreIdle scheduler plan t u }
{}

/// What such a run has done before slot u is what it had done before slot t + 1, except for the number of slots.
pub fn gaps_can_be_skipped()
    ensures { (scheduler : Scheduler) (plan : SwitchPlan) (t u : ℕ) → IsScheduler scheduler → IsQuiet scheduler → IsGood plan → t < u
        → IsIdle scheduler plan t → NoneArrive plan (t + 1) u → AreAsAfter scheduler plan (t + 1) u }
{}

/// A run does not end in a slot after which a packet arrives.
pub fn runs_do_not_end_in_gaps()
    ensures { (scheduler : Scheduler) (plan : SwitchPlan) (i k s : ℕ) (packet : Planned) → i < ports_of plan
        → slice_get (card_at plan i).packets k ≡ Some packet → s < packet.arrival
        → is_done_at (ports_of plan) (posts_under scheduler plan) s ≡ false }
{}
