ghost use Rattle.std.specs.Prelude.{◌≡◌, ℕ, true, false, IfErr, IfOk, OnOk};
ghost use Rattle.eslip_rounds.specs.Decisions.{decision_of};
ghost use Rattle.named_schedulers.specs.Named.{decision_named};
ghost use Rattle.switch_words.specs.Limits.{AreWithinLimits};
ghost use Rattle.switch_plan.specs.GoodPlans.{IsGood, IsBurst, IsCountable, switch_plan_of};
ghost use Rattle.switch_plan.specs.ReadingSteps.{bytes_of_files};
ghost use Rattle.switch_plan.specs.Refusals.{terms_of};
ghost use Rattle.descriptor_runs.specs.declared.outputs.Captures.TheVariants.{Kept};
ghost use Rattle.descriptor_runs.specs.Outcomes.{IsRunOutcome};
ghost use Rattle.run_notes.specs.NotingSteps.{HasNoted};
ghost use Rattle.job_files.specs.FileSteps.{AreOfSize};
ghost use Rattle.switch_run.specs.MakingSteps.{AreNumbers, AreNumbersOf, IsRan, IsRanOf, StopsPlan, StopsRun, StopsTexts, ending_of};
ghost use Rattle.switch_run.specs.Switched.{IsPlanned};

use crate::captures::{out_lines, output_captures};
use card_worker::Gate;
use descriptor_runs::{Captures, RunOutcome, run_by_descriptors};
use job_files::{Ending, Inputs};
use rotating_pick::OutOfMemory;
use run_laws::Outcome;
use run_notes::{NotedTexts, NotesFault, RunNotes, Wanted};
use run_sinks::NoSink;
use scheduler_names::SchedulerName;
use slot_report::Summary;
use std::alloc::Global;
use std::thread::Threads;
use switch_jobs::run_job;
use switch_plan::laws::plans_are_countable;
use switch_plan::{Plan, PlanFault, jobs};
use switch_words::Settings;

/// How a plan is run.
#[derive(Clone, Copy)]
pub(crate) struct RunWay {
    /// The scheduler of the run.
    pub(crate) scheduler: SchedulerName,
    /// Whether the run is made on one thread under the board's scheduler too.
    pub(crate) alone: bool,
    /// Whether the run is a long one, which is made on one thread and whose packets file has no limit.
    pub(crate) long: bool,
    /// What the run is to tell beside its captures and its numbers.
    pub(crate) wanted: Wanted,
}

/// A run that came to its end.
#[derive(Drop)]
pub(crate) struct EndedRun {
    /// What the run leaves.
    pub(crate) outcome: RunOutcome,
    /// What it tells beside this.
    pub(crate) told: NotedTexts,
}

// The plan of the inputs.
fn planned<R: Threads + Sync>(
    rt: &R,
    alloc: Global,
    settings: &Settings,
    inputs: Inputs,
) -> Result<Plan, Ending>
    requires limits { AreWithinLimits settings.now }
    requires size { AreOfSize inputs.table.items (bytes_of_files inputs.captures) }
    ensures planned { IfOk result (λ plan. IsPlanned settings.now inputs.table.items (bytes_of_files inputs.captures) (switch_plan_of plan)) }
    ensures stops { IfErr result (StopsPlan (terms_of settings.now) inputs.table.items (bytes_of_files inputs.captures)) }
{
    plans_are_countable();
    let Inputs { table, captures } = inputs;
    match jobs::plan(rt, alloc, settings, table, captures) {
        Ok(plan) => Ok(plan),
        Err(PlanFault::OutOfMemory) => Err(Ending::OutOfMemory),
        Err(fault) => Err(Ending::Refused(fault)),
    }
}

// Runs the plan at a board, notes its journal, and makes the captures of its outputs.
fn run_at_board<R: Threads + Sync, G: Gate + Sync>(
    rt: &R,
    alloc: Global,
    plan: Plan,
    gate: &G,
    notes: &mut RunNotes,
) -> Result<RunOutcome, OutOfMemory>
    requires good { IsGood (switch_plan_of plan) }
    requires burst { IsBurst (switch_plan_of plan) }
    requires noted { HasNoted decision_of (switch_plan_of plan) notes.old 0 }
    ensures run { IfOk result (λ outcome. (slots : ℕ) × IsRunOutcome Kept decision_of (switch_plan_of plan) slots outcome
        × HasNoted decision_of (switch_plan_of plan) notes.new slots) }
    ensures wanted { OnOk result (notes.new.wanted ≡ notes.old.wanted) }
{
    let (nano, link) = (plan.nano, plan.link);
    let Outcome {
        outputs,
        journal,
        summary,
    } = run_job(rt, alloc, plan, gate)?;
    notes.note_journal(&journal)?;
    drop(journal);
    let lines = out_lines(alloc, &outputs)?;
    let captures = output_captures(alloc, nano, link, outputs)?;
    Ok(RunOutcome {
        summary,
        captures,
        lines,
    })
}

// Runs the plan to its end under the scheduler, at a board where it is the board's and the run is not long, and else on this
// thread: the numbers of the run. Nothing is noted, and no captures are made.
fn summary_of_run<R: Threads + Sync, G: Gate + Sync>(
    rt: &R,
    alloc: Global,
    plan: Plan,
    scheduler: SchedulerName,
    long: bool,
    gate: &G,
) -> Result<Summary, OutOfMemory>
    requires good { IsGood (switch_plan_of plan) }
    requires countable { IsCountable (switch_plan_of plan) }
    requires burst { long ≡ false → IsBurst (switch_plan_of plan) }
    ensures { IfOk result (AreNumbers (decision_named scheduler) (switch_plan_of plan)) }
{
    match scheduler {
        SchedulerName::Islip if !long => Ok(run_job(rt, alloc, plan, gate)?.summary),
        scheduler => {
            let captures = Captures::Dropped;
            Ok(run_by_descriptors(alloc, plan, scheduler, captures, &mut NoSink)?.summary)
        }
    }
}

// Runs the plan to its end, and notes its slots: at a board where its scheduler is the board's and the run is neither long nor
// to be made alone, else on this thread.
fn run_noted<R: Threads + Sync, G: Gate + Sync>(
    rt: &R,
    alloc: Global,
    plan: Plan,
    way: RunWay,
    gate: &G,
    notes: &mut RunNotes,
) -> Result<RunOutcome, OutOfMemory>
    requires good { IsGood (switch_plan_of plan) }
    requires countable { IsCountable (switch_plan_of plan) }
    requires burst { way.long ≡ false → IsBurst (switch_plan_of plan) }
    requires noted { HasNoted (decision_named way.scheduler) (switch_plan_of plan) notes.old 0 }
    ensures run { IfOk result (λ outcome. (slots : ℕ) × IsRunOutcome Kept (decision_named way.scheduler) (switch_plan_of plan) slots outcome
        × HasNoted (decision_named way.scheduler) (switch_plan_of plan) notes.new slots) }
    ensures wanted { OnOk result (notes.new.wanted ≡ notes.old.wanted) }
{
    match way.scheduler {
        SchedulerName::Islip if !way.alone && !way.long => {
            run_at_board(rt, alloc, plan, gate, notes)
        }
        scheduler => run_by_descriptors(alloc, plan, scheduler, Captures::Kept, notes),
    }
}

// How a job ends whose texts are not made.
fn ending_of(fault: NotesFault) -> Ending
    ensures { result ≡ ending_of fault }
{
    match fault {
        NotesFault::JournalTooLong(size) => Ending::JournalTooLong(size),
        NotesFault::PacketsTooLong(size) => Ending::PacketsTooLong(size),
        NotesFault::OutOfMemory => Ending::OutOfMemory,
    }
}

// Runs the plan to its end, and makes the texts that are wanted of it.
fn run_plan<R: Threads + Sync, G: Gate + Sync>(
    rt: &R,
    alloc: Global,
    plan: Plan,
    way: RunWay,
    gate: &G,
) -> Result<EndedRun, Ending>
    requires good { IsGood (switch_plan_of plan) }
    requires countable { IsCountable (switch_plan_of plan) }
    requires burst { way.long ≡ false → IsBurst (switch_plan_of plan) }
    requires journal { way.long ≡ true → way.wanted.journal ≡ false }
    ensures ran { IfOk result (IsRanOf (decision_named way.scheduler) (switch_plan_of plan) way.wanted way.long) }
    ensures stops { IfErr result (StopsRun (decision_named way.scheduler) (switch_plan_of plan) way.wanted way.long) }
{
    let mut notes = RunNotes::make(alloc, way.wanted, &plan)?;
    let outcome = run_noted(rt, alloc, plan, way, gate, &mut notes)?;
    match notes.texts(alloc, way.long) {
        Ok(told) => Ok(EndedRun { outcome, told }),
        Err(fault) => Err(ending_of(fault)),
    }
}

/// Plans and runs the job of the inputs, and makes the texts that are wanted of its run, among which a long run has no journal.
pub(crate) fn plan_and_run<R: Threads + Sync, G: Gate + Sync>(
    rt: &R,
    alloc: Global,
    settings: &Settings,
    way: RunWay,
    inputs: Inputs,
    gate: &G,
) -> Result<EndedRun, Ending>
    requires limits { AreWithinLimits settings.now }
    requires size { AreOfSize inputs.table.items (bytes_of_files inputs.captures) }
    requires long { way.long ≡ settings.now.long }
    requires journal { way.long ≡ true → way.wanted.journal ≡ false }
    ensures ran { IfOk result (IsRan (decision_named way.scheduler) settings.now way.wanted inputs.table.items (bytes_of_files inputs.captures)) }
    ensures stops { IfErr result (StopsTexts (decision_named way.scheduler) settings.now way.wanted inputs.table.items (bytes_of_files inputs.captures)) }
{
    let plan = planned(rt, alloc, settings, inputs)?;
    run_plan(rt, alloc, plan, way, gate)
}

/// Plans the job of the inputs, runs it under the scheduler, and answers its summary.
pub(crate) fn summary_of_job<R: Threads + Sync, G: Gate + Sync>(
    rt: &R,
    alloc: Global,
    settings: &Settings,
    scheduler: SchedulerName,
    inputs: Inputs,
    gate: &G,
) -> Result<Summary, Ending>
    requires limits { AreWithinLimits settings.now }
    requires size { AreOfSize inputs.table.items (bytes_of_files inputs.captures) }
    ensures ran { IfOk result (AreNumbersOf (decision_named scheduler) settings.now inputs.table.items (bytes_of_files inputs.captures)) }
    ensures stops { IfErr result (StopsPlan (terms_of settings.now) inputs.table.items (bytes_of_files inputs.captures)) }
{
    let plan = planned(rt, alloc, settings, inputs)?;
    Ok(summary_of_run(rt, alloc, plan, scheduler, settings.long, gate)?)
}
