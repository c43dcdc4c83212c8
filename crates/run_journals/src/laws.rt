//! The law of the journals of runs, as the contract of a function that does nothing.

ghost use Rattle.std.specs.Prelude.{◌≡◌, ℕ, Ok};
ghost use Rattle.eslip_rounds.specs.Schedulers.{Scheduler, IsScheduler};
ghost use Rattle.switch_plan.specs.GoodPlans.{SwitchPlan, IsGood, IsBurst};
ghost use Rattle.run_laws.specs.Ends.{IsLengthUnder};
ghost use Rattle.run_laws.specs.Outcomes.{summary_under};
ghost use Rattle.journal_check.specs.declared.verdict.Verdict.TheVariants.{Yes};
ghost use Rattle.journal_check.specs.Texts.{IsFile};
ghost use Rattle.journal_check.specs.Lawful.{IsLawfulUnder};
ghost use Rattle.journal_check.specs.Verdicts.{yes_on, answer_under};
ghost use Rattle.run_journals.specs.RunFiles.{run_file_under, journal_text_under};

/// The journal of a run under a scheduler that has come to its end is lawful under that scheduler, and that of a burst a
/// file: by it the bytes are answered yes, with the number of the run's slots and the longest waits that the run's summary has.
pub fn journals_of_runs_are_lawful()
    ensures file { (scheduler : Scheduler) (plan : SwitchPlan) (slots : ℕ) → IsScheduler scheduler → IsGood plan → IsBurst plan
        → IsLengthUnder scheduler plan slots → IsFile (run_file_under scheduler plan slots) }
    ensures lawful { (scheduler : Scheduler) (plan : SwitchPlan) (slots : ℕ) → IsScheduler scheduler → IsGood plan
        → IsLengthUnder scheduler plan slots → IsLawfulUnder scheduler (run_file_under scheduler plan slots) }
    ensures answer { (scheduler : Scheduler) (plan : SwitchPlan) (slots : ℕ) → IsScheduler scheduler → IsGood plan → IsBurst plan
        → IsLengthUnder scheduler plan slots
        → answer_under scheduler (journal_text_under scheduler plan slots) ≡ Ok (yes_on (run_file_under scheduler plan slots)) }
    ensures numbers { (scheduler : Scheduler) (plan : SwitchPlan) (slots : ℕ)
        → yes_on (run_file_under scheduler plan slots) ≡ Yes slots (summary_under scheduler plan slots).longest }
{}
