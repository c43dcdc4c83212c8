ghost use Rattle.std.specs.Prelude.{◌≡◌, ◌∷◌, ◌++◌, ◌≤◌, List, length, map, codes, decimal, IfOk, OnOk, string_bytes};
ghost use Rattle.std.specs.Option.{option_copied};
ghost use Rattle.slot_histories.specs.Answers.{JournalSlot};
ghost use Rattle.slot_report.specs.Lines.{line_text, lines_text};
ghost use Rattle.slot_report.specs.PieceSteps.{count_line};
ghost use Rattle.slot_report.specs.Texts.{journal_line, map_with_place, output_line, report_bytes, slots_of, summary_lines};

use crate::lines::Word::{Name, Number};
use crate::lines::put_line;
use crate::slot_lines::{put_slots, slots_bytes};
use crate::summary::{OutLine, Summary};
use board_state::Journal;
use rotating_pick::{LEVELS, MAX_PORTS, OutOfMemory};
use std::alloc::{AllocError, Global};

// The most bytes of the summary, whose numbers have ten digits at most.
const SUMMARY_BYTES: usize = 255;

// The most bytes of an output's line.
const OUTPUT_BYTES: usize = 46;

// Appends a line for each of these: a name and a number.
fn put_counts(text: &mut String, counts: &[(&str, u32)]) -> Result<(), AllocError>
    ensures { OnOk result (string_bytes text.new ≡ string_bytes text.old ++ lines_text (map count_line counts.now)) }
{
    for (name, count) in counts {
        put_line(text, name, &[Number(*count)])?;
    }
    Ok(())
}

// Appends the line of the longest waits.
fn put_longest(text: &mut String, longest: &[u32; LEVELS as usize]) -> Result<(), AllocError>
    ensures { OnOk result (string_bytes text.new ≡ string_bytes text.old ++ line_text (codes "longest" ∷ map decimal longest.now)) }
{
    let [best, second, third, last] = *longest;
    let waits = [Number(best), Number(second), Number(third), Number(last)];
    put_line(text, "longest", &waits)
}

// Appends the lines of the summary.
fn put_summary(text: &mut String, summary: &Summary) -> Result<(), AllocError>
    ensures { OnOk result (string_bytes text.new ≡ string_bytes text.old ++ lines_text (summary_lines summary.now)) }
{
    let counts = [
        ("ports", summary.ports),
        ("rounds", summary.rounds),
        ("depth", summary.depth),
        ("slots", summary.slots),
        ("packets", summary.packets),
        ("oversize", summary.oversize),
        ("unrouted", summary.unrouted),
        ("dropped", summary.dropped),
        ("forwarded", summary.forwarded),
        ("copies", summary.copies),
        ("cells", summary.cells),
    ];
    put_counts(text, &counts)?;
    put_longest(text, &summary.longest)
}

// Appends the line of each output.
fn put_outputs(text: &mut String, outputs: &[OutLine]) -> Result<(), AllocError>
    requires { length outputs.now ≤ MAX_PORTS }
    ensures { OnOk result (string_bytes text.new ≡ string_bytes text.old ++ lines_text (map_with_place output_line outputs.now)) }
{
    for (j, output) in outputs.iter().enumerate() {
        let words = [
            Number(j as u32),
            Name("packets"),
            Number(output.packets),
            Name("cells"),
            Number(output.cells),
        ];
        put_line(text, "output", &words)?;
    }
    Ok(())
}

/// The summary of a run: twelve lines. The only error is out of memory.
pub fn summary_text(alloc: Global, summary: &Summary) -> Result<String, OutOfMemory>
    ensures { IfOk result (λ text. string_bytes text ≡ lines_text (summary_lines summary.now)) }
{
    let mut text = String::with_capacity(alloc, SUMMARY_BYTES)?;
    put_summary(&mut text, summary)?;
    Ok(text)
}

/// The report of a run: the summary, a line for each of the outputs, 64 at most, these further lines, and a line for each
/// decided slot where a journal is given. The only error is out of memory.
///
/// The text is sized before the first line; no clause says so.
pub fn report_text(
    alloc: Global,
    summary: &Summary,
    outputs: &[OutLine],
    more: &str,
    slots: Option<&Journal>,
) -> Result<String, OutOfMemory>
    requires { length outputs.now ≤ MAX_PORTS }
    ensures { IfOk result (λ text. string_bytes text ≡ report_bytes summary.now outputs.now more.now (slots_of (option_copied slots.entry))) }
{
    let bytes = slots_bytes(slots);
    let mut text = report_start(alloc, summary, outputs, more, bytes)?;
    put_slots(&mut text, slots)?;
    Ok(text)
}

/// The report of a run, as `report_text` makes it, whose slots' lines are given as text. The only error is out of memory.
pub fn report_with_lines(
    alloc: Global,
    summary: &Summary,
    outputs: &[OutLine],
    more: &str,
    slot_lines: &str,
) -> Result<String, OutOfMemory>
    requires { length outputs.now ≤ MAX_PORTS }
    ensures { (slots : List JournalSlot) → slot_lines.now ≡ lines_text (map_with_place journal_line slots)
        → IfOk result (λ text. string_bytes text ≡ report_bytes summary.now outputs.now more.now slots) }
{
    let mut text = report_start(alloc, summary, outputs, more, slot_lines.len())?;
    text.push_str(slot_lines)?;
    Ok(text)
}

// The report up to the slots' lines, with room for that many bytes after it.
fn report_start(
    alloc: Global,
    summary: &Summary,
    outputs: &[OutLine],
    more: &str,
    slots_bytes: usize,
) -> Result<String, AllocError>
    requires { length outputs.now ≤ MAX_PORTS }
    ensures { IfOk result (λ text. string_bytes text ≡ lines_text (summary_lines summary.now ++ map_with_place output_line outputs.now) ++ more.now) }
{
    let lines = SUMMARY_BYTES + OUTPUT_BYTES * outputs.len();
    let bytes = lines.saturating_add(more.len()).saturating_add(slots_bytes);
    let mut text = String::with_capacity(alloc, bytes)?;
    put_summary(&mut text, summary)?;
    put_outputs(&mut text, outputs)?;
    text.push_str(more)?;
    Ok(text)
}
