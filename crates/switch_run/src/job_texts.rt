ghost use Rattle.std.specs.Prelude.{◌≡◌, ℕ, Option, Some, IfErr, IfOk, OnOk};
ghost use Rattle.outside.specs.Contents.{Contents, NoneChanged, StayAlike, held};
ghost use Rattle.outside.specs.Faults.{NeverFall, NoneRose, OnlyRose, Place};
ghost use Rattle.job_files.specs.Statuses.{refused_by, status_of};
ghost use Rattle.switch_words.specs.Limits.{IsFirmWithinLimits, IsGenWithinLimits, IsRunWithinLimits};
ghost use Rattle.switch_words.specs.Reading.{run, gen, check, firm, run_words, check_words, firm_words};
ghost use Rattle.switch_run.specs.Endings.{Stops, is_own};
ghost use Rattle.switch_run.specs.MakingSteps.{AreToWrite, IsEndOf, to_write};
ghost use Rattle.switch_run.specs.Switched.{wanted_by};

use crate::packets::PacketPieces;
use crate::runs::{RunWay, plan_and_run, summary_of_job};
use crate::texts::{run_texts, summary_alone};
use card_worker::Gate;
use job_files::{
    CheckEnding, Ending, JobTexts, check_file, made_inputs, read_inputs, reads_of_firm,
    reads_of_run,
};
use outside::Files;
use run_notes::Wanted;
use scheduler_names::SchedulerName;
use std::alloc::Global;
use std::thread::Threads;
use switch_words::{CheckJob, FirmJob, GenJob, RunJob};

// What the run of a `run` job is to tell.
fn wanted_by(job: &RunJob) -> Wanted
    ensures { result ≡ wanted_by (run_words job.now) }
{
    Wanted {
        slots: job.slots,
        journal: job.journal,
        reference: job.reference,
        queues: job.queues,
        packets: job.packets,
    }
}

/// What a `run` job writes: its inputs are read, and run.
pub(crate) fn texts_of_run<R: Threads + Sync, F: Files, G: Gate + Sync>(
    rt: &R,
    alloc: Global,
    job: &RunJob,
    files: &mut F,
    gate: &G,
) -> Result<JobTexts<PacketPieces>, Ending>
    requires { IsRunWithinLimits job.now }
    ensures seen { NoneChanged F.seen files.old files.new }
    ensures own { StayAlike (is_own (Some (run (run_words job.now)))) F.seen files.old files.new }
    ensures no_fault { OnOk result (NoneRose (F.faults files.old) (F.faults files.new)) }
    ensures refused { IfErr result (λ ending. OnlyRose (refused_by ending) (F.faults files.old) (F.faults files.new)) }
    ensures never_fall { NeverFall (F.faults files.old) (F.faults files.new) }
    ensures made { (c : Contents) → IfOk result (λ texts. AreToWrite (run (run_words job.now)) (F.seen c files.new) (to_write texts)) }
    ensures stops { (c : Contents) → IfErr result (Stops (run (run_words job.now)) (F.seen c files.new) (F.faults files.old) (F.faults files.new)
        (F.seen c files.new)) }
{
    let inputs = read_inputs(alloc, &reads_of_run(job), files)?;
    let way = RunWay {
        scheduler: job.scheduler,
        alone: job.alone,
        long: job.settings.long,
        wanted: wanted_by(job),
    };
    let ran = plan_and_run(rt, alloc, &job.settings, way, inputs, gate)?;
    Ok(run_texts(alloc, job, ran)?)
}

/// What a `gen` job writes: its inputs are made, and run.
pub(crate) fn texts_of_gen<R: Threads + Sync, G: Gate + Sync>(
    rt: &R,
    alloc: Global,
    job: &GenJob,
    gate: &G,
) -> Result<JobTexts<PacketPieces>, Ending>
    requires { IsGenWithinLimits job.now }
    ensures made { IfOk result (λ texts. (seen : Option Contents) → AreToWrite (gen job.now) seen (to_write texts)) }
    ensures stops { IfErr result (λ ending. (seen : Option Contents) (was now : Place → ℕ) → Stops (gen job.now) seen was now seen ending) }
{
    let inputs = made_inputs(alloc, job)?;
    let summary = summary_of_job(rt, alloc, &job.settings, job.scheduler, inputs, gate)?;
    Ok(summary_alone(alloc, &summary)?)
}

/// What a `firm` job writes: its inputs are read, and run under FIRM.
pub(crate) fn texts_of_firm<R: Threads + Sync, F: Files, G: Gate + Sync>(
    rt: &R,
    alloc: Global,
    job: &FirmJob,
    files: &mut F,
    gate: &G,
) -> Result<JobTexts<PacketPieces>, Ending>
    requires { IsFirmWithinLimits job.now }
    ensures seen { NoneChanged F.seen files.old files.new }
    ensures own { StayAlike (is_own (Some (firm (firm_words job.now)))) F.seen files.old files.new }
    ensures no_fault { OnOk result (NoneRose (F.faults files.old) (F.faults files.new)) }
    ensures refused { IfErr result (λ ending. OnlyRose (refused_by ending) (F.faults files.old) (F.faults files.new)) }
    ensures never_fall { NeverFall (F.faults files.old) (F.faults files.new) }
    ensures made { (c : Contents) → IfOk result (λ texts. AreToWrite (firm (firm_words job.now)) (F.seen c files.new) (to_write texts)) }
    ensures stops { (c : Contents) → IfErr result (Stops (firm (firm_words job.now)) (F.seen c files.new) (F.faults files.old) (F.faults files.new)
        (F.seen c files.new)) }
{
    let inputs = read_inputs(alloc, &reads_of_firm(job), files)?;
    let scheduler = SchedulerName::Firm;
    let summary = summary_of_job(rt, alloc, &job.settings, scheduler, inputs, gate)?;
    Ok(summary_alone(alloc, &summary)?)
}

/// How a check ends.
pub(crate) fn end_of_check<F: Files>(alloc: Global, job: &CheckJob, files: &mut F) -> Ending
    ensures meaning { (c : Contents) → IsEndOf (check (check_words job.now)) (held (F.seen c files.old) (F.seen c files.new)) (F.faults files.old)
        (F.faults files.new) (F.seen c files.new) result }
    ensures own { StayAlike (is_own (Some (check (check_words job.now)))) F.seen files.old files.new }
    ensures no_fault { status_of result ≡ 0 → NoneRose (F.faults files.old) (F.faults files.new) }
    ensures refused { OnlyRose (refused_by result) (F.faults files.old) (F.faults files.new) }
    ensures never_fall { NeverFall (F.faults files.old) (F.faults files.new) }
{
    match check_file(alloc, job.file.as_str(), job.scheduler, files) {
        CheckEnding::OutOfMemory => Ending::OutOfMemory,
        ending => Ending::Checked(ending),
    }
}
