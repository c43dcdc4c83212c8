ghost use Rattle.std.specs.Prelude.{◌≡◌, ◌≤◌, ℕ, ◌++◌, List, [], length, string_bytes, IfOk};
ghost use Rattle.named_schedulers.specs.Named.{decision_named};
ghost use Rattle.slot_histories.specs.Answers.{JournalSlot};
ghost use Rattle.slot_report.specs.Lines.{lines_text};
ghost use Rattle.slot_report.specs.Texts.{journal_line, map_with_place, report_bytes, summary_lines};
ghost use Rattle.switch_words.specs.Reading.{run, run_words};
ghost use Rattle.switch_run.specs.MakingSteps.{AreMade, IsRan, to_write};
ghost use Rattle.switch_run.specs.Switched.{wanted_by};

use crate::packets::{PacketPieces, pieces_of};
use crate::runs::EndedRun;
use descriptor_runs::RunOutcome;
use job_files::{JobTexts, packets_file, run_files};
use rotating_pick::{MAX_PORTS, OutOfMemory};
use run_notes::NotedTexts;
use slot_report::{OutLine, Summary, report_with_lines, summary_text};
use std::alloc::Global;
use switch_words::RunJob;

// The report of a run, with the lines of its queues, a line for each slot where these are told, and then the lines of the
// reference.
fn report(
    alloc: Global,
    summary: &Summary,
    lines: &[OutLine],
    told: &NotedTexts,
) -> Result<String, OutOfMemory>
    requires { length lines.now ≤ MAX_PORTS }
    ensures { (slots : List JournalSlot) → string_bytes told.now.slots ≡ lines_text (map_with_place journal_line slots)
        → IfOk result (λ text. string_bytes text ≡ report_bytes summary.now lines.now (string_bytes told.now.queues) slots
        ++ string_bytes told.now.reference) }
{
    let mut text = report_with_lines(
        alloc,
        summary,
        lines,
        told.queues.as_str(),
        told.slots.as_str(),
    )?;
    text.push_str(told.reference.as_str())?;
    Ok(text)
}

/// What a `run` job writes of its run. It takes all memory that the job needs from here on, and want of it is the only error.
pub(crate) fn run_texts(
    alloc: Global,
    job: &RunJob,
    ran: EndedRun,
) -> Result<JobTexts<PacketPieces>, OutOfMemory>
    requires few { length ran.outcome.lines.items ≤ MAX_PORTS }
    ensures { (table : List ℕ) (captures : List (List ℕ))
        → IsRan (decision_named job.now.scheduler) job.now.settings (wanted_by (run_words job.now)) table captures ran
        → IfOk result (λ texts. AreMade (run (run_words job.now)) table captures (to_write texts)) }
{
    let EndedRun { outcome, told } = ran;
    let RunOutcome {
        summary,
        captures,
        lines,
    } = outcome;
    let report = report(alloc, &summary, &lines, &told)?;
    let summary = summary_text(alloc, &summary)?;
    let outputs = captures.len();
    let NotedTexts {
        journal,
        packets,
        ..
    } = told;
    let prefix = job.prefix.as_str();
    let files = run_files(alloc, prefix, captures, report, journal)?;
    let packets = packets_file(alloc, prefix, pieces_of(packets))?;
    Ok(JobTexts {
        outputs,
        files,
        packets,
        summary,
    })
}

/// The summary of a run, without files.
pub(crate) fn summary_alone(
    alloc: Global,
    summary: &Summary,
) -> Result<JobTexts<PacketPieces>, OutOfMemory>
    ensures outputs { IfOk result (λ texts. texts.outputs ≡ 0) }
    ensures files { IfOk result (λ texts. (to_write texts).files ≡ []) }
    ensures summary { IfOk result (λ texts. string_bytes texts.summary ≡ lines_text (summary_lines summary.now)) }
{
    let summary = summary_text(alloc, summary)?;
    Ok(JobTexts {
        outputs: 0,
        files: Vec::new(alloc),
        packets: None,
        summary,
    })
}
