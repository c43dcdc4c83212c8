//! Laws of a run under any scheduler and its reference, as the contracts of functions that do nothing.

ghost use Rattle.std.specs.Prelude.{◌≡◌, ℕ, ◌+◌, ◌-◌, ◌^◌, ◌<◌, ◌≤◌, [], ◌∷◌, ◌++◌, replicate, sum};
ghost use Rattle.slot_match.specs.Matches.{unmatched};
ghost use Rattle.eslip_rounds.specs.Schedulers.{Scheduler, IsScheduler};
ghost use Rattle.switch_plan.specs.GoodPlans.{SwitchPlan, IsGood, IsCountable};
ghost use Rattle.run_laws.specs.Runs.{ports_of, slot_under};
ghost use Rattle.run_laws.specs.Ends.{IsLengthUnder};
ghost use Rattle.idle_slots.specs.Skipped.{IsGap};
ghost use Rattle.output_queued.specs.NotingSteps.{State, MayNote, cards_in};
ghost use Rattle.output_queued.specs.QuietSteps.{IsQuietFor};
ghost use Rattle.output_queued.specs.Ideal.{total};
ghost use Rattle.output_queued.specs.Switches.{comes};
ghost use Rattle.output_queued.specs.Lines.{ideal, ran, rises, line_of};
ghost use Rattle.reference_run.specs.RunLines.{run_matches_under};
ghost use Rattle.reference_run.specs.Promises.{EndsNoLaterUnder, ExtraIsDelaysUnder};
ghost use Rattle.reference_run.specs.MeetingSteps.{IsReferenceOf, run_rows_under};

/// The slots of the run of a countable plan may be noted one after the other, to its end.
pub fn slots_may_be_noted()
    ensures may { (scheduler : Scheduler) (plan : SwitchPlan) (reference : State) (t slots : ℕ) → IsScheduler scheduler → IsGood plan
        → IsCountable plan → IsLengthUnder scheduler plan slots → t < slots → IsReferenceOf plan reference (run_matches_under scheduler plan t)
        → MayNote reference (run_rows_under scheduler plan t) (slot_under scheduler plan t).matched }
    ensures more { (scheduler : Scheduler) (plan : SwitchPlan) (t : ℕ)
        → run_matches_under scheduler plan (t + 1) ≡ run_matches_under scheduler plan t ++ (slot_under scheduler plan t).matched ∷ [] }
{}

/// In a gap of the run nothing waits and nothing comes, and its slots match nothing: so its reference may skip them, where
/// the run goes on after them.
pub fn gaps_may_be_skipped()
    ensures quiet { (scheduler : Scheduler) (plan : SwitchPlan) (reference : State) (slot next : ℕ) → IsGood plan
        → IsReferenceOf plan reference (run_matches_under scheduler plan slot) → IsGap scheduler plan slot next
        → IsQuietFor reference (run_matches_under scheduler plan slot) (next - slot) }
    ensures few { (scheduler : Scheduler) (plan : SwitchPlan) (reference : State) (slot next slots : ℕ) → IsScheduler scheduler → IsGood plan
        → IsCountable plan → IsLengthUnder scheduler plan slots → next < slots → IsReferenceOf plan reference (run_matches_under scheduler plan slot)
        → IsGap scheduler plan slot next → reference.slots + (next - slot) < 2 ^ 32 }
    ensures more { (scheduler : Scheduler) (plan : SwitchPlan) (slot next : ℕ) → IsGap scheduler plan slot next
        → run_matches_under scheduler plan next ≡ run_matches_under scheduler plan slot ++ replicate (next - slot) (unmatched (ports_of plan)) }
{}

/// The lines of the plan's reference are those of the run: that it leaves out packets that go nowhere, and
/// knows of the others but their cells, makes no difference.
pub fn lines_are_those_of_the_run()
    ensures { (scheduler : Scheduler) (plan : SwitchPlan) (reference : State) (slots j : ℕ) → IsGood plan
        → IsReferenceOf plan reference (run_matches_under scheduler plan slots)
        → line_of (cards_in reference) (run_matches_under scheduler plan slots) j ≡ line_of plan.cards (run_matches_under scheduler plan slots) j }
{}

/// At the end of no slot of a run has it fed more cells to an output than the ideal switch has given out.
pub fn reference_is_never_behind()
    ensures { (scheduler : Scheduler) (plan : SwitchPlan) (slots j t : ℕ) → IsScheduler scheduler → IsGood plan → t ≤ slots
        → ran (run_matches_under scheduler plan slots) j t ≤ ideal plan.cards (run_matches_under scheduler plan slots) j t }
{}

/// Over a whole run both serve all cells that came to an output, the ideal switch ends no later, and the
/// extra is the sum of the delays: of the slots in which the run served the output, less those in which the
/// ideal switch did.
pub fn whole_runs_serve_the_same()
    ensures count { (scheduler : Scheduler) (plan : SwitchPlan) (slots j : ℕ) → IsScheduler scheduler → IsGood plan → IsLengthUnder scheduler plan slots
        → j < ports_of plan → ran (run_matches_under scheduler plan slots) j slots ≡ ideal plan.cards (run_matches_under scheduler plan slots) j slots }
    ensures all { (scheduler : Scheduler) (plan : SwitchPlan) (slots j : ℕ) → IsScheduler scheduler → IsGood plan → IsLengthUnder scheduler plan slots
        → j < ports_of plan → ran (run_matches_under scheduler plan slots) j slots ≡ total (comes plan.cards (run_matches_under scheduler plan slots) j) slots }
    ensures ends { (scheduler : Scheduler) (plan : SwitchPlan) (slots j : ℕ) → IsScheduler scheduler → IsGood plan → IsLengthUnder scheduler plan slots
        → j < ports_of plan → (line_of plan.cards (run_matches_under scheduler plan slots) j).ends
        ≤ (line_of plan.cards (run_matches_under scheduler plan slots) j).runs }
    ensures delays { (scheduler : Scheduler) (plan : SwitchPlan) (slots j : ℕ) → IsScheduler scheduler → IsGood plan → IsLengthUnder scheduler plan slots
        → j < ports_of plan → (line_of plan.cards (run_matches_under scheduler plan slots) j).extra
        + sum (rises (ideal plan.cards (run_matches_under scheduler plan slots) j) slots) ≡ sum (rises (ran (run_matches_under scheduler plan slots) j) slots) }
{}

/// At each output the ideal switch ends no later than the run; the run feeds no cell earlier than the ideal switch
/// gives out the one of the same number; and the extra is the sum of these delays.
pub fn lines_tell_the_delays()
    ensures ends { (scheduler : Scheduler) (plan : SwitchPlan) (slots : ℕ) → IsScheduler scheduler → IsGood plan → IsLengthUnder scheduler plan slots
        → EndsNoLaterUnder scheduler plan slots }
    ensures delays { (scheduler : Scheduler) (plan : SwitchPlan) (slots : ℕ) → IsScheduler scheduler → IsGood plan → IsLengthUnder scheduler plan slots
        → ExtraIsDelaysUnder scheduler plan slots }
{}
