//! Laws of jobs: each is the contract of a call that does nothing.

ghost use Rattle.std.specs.Prelude.{◌≡◌, ◌↔◌, ℕ, Bool, List, Option, Result, Ok};
ghost use Rattle.outside.specs.Contents.{Contents};
ghost use Rattle.switch_words.specs.declared.limits.TheConstants.{MAX_WORKERS};
ghost use Rattle.switch_words.specs.declared.job.Settings.{Settings};
ghost use Rattle.switch_words.specs.Limits.{IsUpTo};
ghost use Rattle.switch_words.specs.Reading.{JobWords};
ghost use Rattle.switch_plan.specs.declared.fault.PlanFault.{PlanFault};
ghost use Rattle.switch_plan.specs.Refusals.{IsRefusal, Terms};
ghost use Rattle.switch_plan.specs.GoodPlans.{SwitchPlan};
ghost use Rattle.scheduler_names.specs.declared.names.SchedulerName.{SchedulerName};
ghost use Rattle.eslip_rounds.specs.Schedulers.{Scheduler};
ghost use Rattle.named_schedulers.specs.Named.{decision_named};
ghost use Rattle.job_files.specs.Inputs.{AreInputs};
ghost use Rattle.job_files.specs.Jobs.{terms_in, settings_with, with_alone, with_long, with_workers};
ghost use Rattle.job_files.specs.OutputFiles.{Texts};
ghost use Rattle.switch_run.specs.Switched.{AreTexts, IsJobOutcome, IsLongJournal, IsLongPackets, IsPlanned, IsRunOf};

/// A job has at most one outcome: no two causes for which it is refused, no cause beside texts, and one list of texts.
pub fn one_outcome()
    ensures refusal { (terms : Terms) (table : List ℕ) (files : List (List ℕ)) (a b : PlanFault) → IsRefusal terms table files a
        → IsRefusal terms table files b → a ≡ b }
    ensures either { (job : JobWords) (table : List ℕ) (files : List (List ℕ)) (fault : PlanFault) (texts : Texts) → IsRefusal (terms_in job) table files fault
        → AreTexts job table files texts → ⊥ }
    ensures texts { (job : JobWords) (table : List ℕ) (files : List (List ℕ)) (a b : Texts) → AreTexts job table files a → AreTexts job table files b → a ≡ b }
{}

/// The plan of a job has a run under each scheduler, and a job has one run under it: one plan, and one number of slots.
pub fn each_plan_has_one_run()
    ensures some { (name : SchedulerName) (settings : Settings) (table : List ℕ) (files : List (List ℕ)) (plan : SwitchPlan)
        → IsPlanned settings table files plan → (slots : ℕ) × IsRunOf (decision_named name) settings table files plan slots }
    ensures one { (name : SchedulerName) (settings : Settings) (table : List ℕ) (files : List (List ℕ)) (plan other : SwitchPlan) (a b : ℕ)
        → IsRunOf (decision_named name) settings table files plan a → IsRunOf (decision_named name) settings table files other b
        → (plan ≡ other) × (a ≡ b) }
{}

/// The number of workers makes no difference: a job with any other number of workers, from 1 to 32, has the same
/// outcome, texts or the cause for which it is refused, and the same journal and the same packets file that is too long.
pub fn workers_make_no_difference()
    ensures outcome { (job : JobWords) (workers : ℕ) (table : List ℕ) (files : List (List ℕ)) (outcome : Result Texts PlanFault) → IsUpTo MAX_WORKERS workers
        → IsJobOutcome job table files outcome → IsJobOutcome (with_workers workers job) table files outcome }
    ensures long_journal { (scheduler : Scheduler) (settings : Settings) (workers : ℕ) (table : List ℕ) (files : List (List ℕ)) (size : ℕ)
        → IsUpTo MAX_WORKERS workers
        → IsLongJournal scheduler settings table files size → IsLongJournal scheduler (settings_with workers settings) table files size }
    ensures long_packets { (scheduler : Scheduler) (settings : Settings) (workers : ℕ) (table : List ℕ) (files : List (List ℕ)) (size : ℕ)
        → IsUpTo MAX_WORKERS workers
        → IsLongPackets scheduler settings table files size → IsLongPackets scheduler (settings_with workers settings) table files size }
{}

/// Whether a run is made at the board or on one thread makes no difference: the job has the same outcome.
pub fn one_thread_makes_no_difference()
    ensures { (job : JobWords) (alone : Bool) (table : List ℕ) (files : List (List ℕ)) (outcome : Result Texts PlanFault)
        → IsJobOutcome job table files outcome ↔ IsJobOutcome (with_alone alone job) table files outcome }
{}

/// Whether a job is run long makes no difference where it can be run otherwise too: what it reads, the same job of the same
/// depth reads when it is run long, and the texts that it makes of that are the same.
pub fn long_makes_no_difference()
    ensures inputs { (job : JobWords) (seen : Option Contents) (table : List ℕ) (captures : List (List ℕ)) → AreInputs job seen table captures
        → AreInputs (with_long job) seen table captures }
    ensures texts { (job : JobWords) (table : List ℕ) (files : List (List ℕ)) (texts : Texts) → IsJobOutcome job table files (Ok texts)
        → IsJobOutcome (with_long job) table files (Ok texts) }
{}
