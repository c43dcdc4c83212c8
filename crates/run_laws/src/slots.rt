//! What holds of each slot of a run under any scheduler, as the contracts of functions that do nothing.

ghost use Rattle.std.specs.Prelude.{◌≡◌, ℕ, ◌+◌, ◌<◌, List, All, Some, map};
ghost use Rattle.std.specs.List.{range_with_len};
ghost use Rattle.cell_cutter.specs.declared.cell.Cell.{Cell};
ghost use Rattle.slot_match.specs.declared.matching.Fed.{Fed};
ghost use Rattle.slot_match.specs.Matches.{fed_of};
ghost use Rattle.slot_match.specs.Rows.{AreWithin};
ghost use Rattle.pointer_state.specs.Places.{places_at_first};
ghost use Rattle.eslip_rounds.specs.Schedules.{IsSchedule};
ghost use Rattle.eslip_rounds.specs.Schedulers.{Scheduler, IsScheduler};
ghost use Rattle.service_bound.specs.Windows.{AreKept};
ghost use Rattle.slot_histories.specs.Slots.{served_under, crossed_under, decision_under, places_under, row_before, served_before_under};
ghost use Rattle.slot_histories.specs.Legal.{IsAccepted};
ghost use Rattle.slot_histories.specs.Parts.{IsCellOf};
ghost use Rattle.card_core.specs.Posts.{IsServable};
ghost use Rattle.switch_plan.specs.GoodPlans.{SwitchPlan, IsGood};
ghost use Rattle.run_laws.specs.Runs.{ports_of, setup_for, before_under, decision_in, parts_under, posts_under};
ghost use Rattle.run_laws.specs.Sums.{schedule_under, run_schedule};

/// What a run decides slot by slot follows from its posts alone, as on a board: the pointers before a slot, the slot's
/// decision, and what a port was served before it.
pub fn slots_follow_from_the_posts()
    ensures places { (scheduler : Scheduler) (plan : SwitchPlan) (t : ℕ)
        → (before_under scheduler plan t).places ≡ places_under scheduler (setup_for plan) (posts_under scheduler plan) t }
    ensures decision { (scheduler : Scheduler) (plan : SwitchPlan) (t : ℕ)
        → decision_in scheduler plan (before_under scheduler plan t) t ≡ decision_under scheduler (setup_for plan) (posts_under scheduler plan) t }
    ensures served { (scheduler : Scheduler) (plan : SwitchPlan) (i t : ℕ)
        → parts_under scheduler plan i t ≡ map (served_under scheduler (setup_for plan) (posts_under scheduler plan) i) (range_with_len 0 t) }
{}

/// Each post of a run is one that a board accepts.
pub fn posts_are_accepted()
    ensures { (scheduler : Scheduler) (plan : SwitchPlan) (i t : ℕ) → IsScheduler scheduler → IsGood plan → i < ports_of plan
        → IsAccepted (ports_of plan) i (row_before (posts_under scheduler plan) i t)
        (served_before_under scheduler (setup_for plan) (posts_under scheduler plan) i t) (posts_under scheduler plan i t) }
{}

/// What a slot serves a port is part of the row that the port posts in it.
pub fn parts_are_requested()
    ensures { (scheduler : Scheduler) (plan : SwitchPlan) (i t : ℕ) → IsScheduler scheduler → IsGood plan → i < ports_of plan
        → IsServable (posts_under scheduler plan i t).row (served_under scheduler (setup_for plan) (posts_under scheduler plan) i t) }
{}

/// A cell that crosses to an output is of the input, level and kind that fed the output in the slot before; and
/// where one fed it, a cell crosses.
pub fn fed_outputs_get_cells()
    ensures cell { (scheduler : Scheduler) (plan : SwitchPlan) (j t : ℕ) (cell : Cell) → IsScheduler scheduler → IsGood plan
        → crossed_under scheduler (setup_for plan) (posts_under scheduler plan) j (t + 1) ≡ Some cell
        → (fed : Fed) × (fed_of (decision_under scheduler (setup_for plan) (posts_under scheduler plan) t).matched j ≡ Some fed) × IsCellOf fed cell }
    ensures fed { (scheduler : Scheduler) (plan : SwitchPlan) (j t : ℕ) (fed : Fed) → IsScheduler scheduler → IsGood plan
        → fed_of (decision_under scheduler (setup_for plan) (posts_under scheduler plan) t).matched j ≡ Some fed
        → (cell : Cell) × (crossed_under scheduler (setup_for plan) (posts_under scheduler plan) j (t + 1) ≡ Some cell) }
{}

/// The slots of a run are a schedule, from slot 0 and all pointers at port 0 on. Under any scheduler their rows name none
/// but the switch's ports, and are kept until they are served.
pub fn slots_are_a_schedule()
    ensures schedule { (plan : SwitchPlan) (slots : ℕ) → IsGood plan
        → IsSchedule (ports_of plan) plan.rounds 0 (places_at_first (ports_of plan)) (run_schedule plan slots) }
    ensures within { (scheduler : Scheduler) (plan : SwitchPlan) (slots : ℕ) → IsScheduler scheduler → IsGood plan
        → All (λ slot. AreWithin (ports_of plan) slot.rows) (schedule_under scheduler plan slots) }
    ensures kept { (scheduler : Scheduler) (plan : SwitchPlan) (slots : ℕ) → IsScheduler scheduler → IsGood plan
        → AreKept (ports_of plan) (schedule_under scheduler plan slots) }
{}
