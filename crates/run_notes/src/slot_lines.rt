ghost use Rattle.std.specs.Prelude.{◌≡◌, ◌+◌, ℕ, Bool, if◌then◌else◌, List, [], option_map, string_bytes, OnOk};
ghost use Rattle.crossbar.specs.declared.cards.Post.{Post};
ghost use Rattle.eslip_rounds.specs.Schedulers.{Scheduler};
ghost use Rattle.slot_report.specs.Lines.{lines_text};
ghost use Rattle.slot_report.specs.Texts.{journal_line, map_with_place};
ghost use Rattle.switch_plan.specs.GoodPlans.{SwitchPlan};
ghost use Rattle.run_laws.specs.Runs.{journal_under};
ghost use Rattle.run_sinks.specs.NotedSlots.{IsRunSlot};
ghost use Rattle.run_notes.specs.NotingSteps.{AreLinesOf, IsKept};

use islip_rounds::RoundsUsed;
use slot_match::Match;
use slot_report::put_slot_line;
use std::alloc::{AllocError, Global};

/// The lines of no slot, where lines are wanted.
pub(crate) fn lines_for(alloc: Global, is_wanted: bool) -> Option<String>
    ensures { (scheduler : Scheduler) (plan : SwitchPlan) → IsKept is_wanted (AreLinesOf scheduler plan 0) (option_map string_bytes result) }
{
    if is_wanted {
        Some(String::new(alloc))
    } else {
        None
    }
}

/// Appends the line of the slot, where lines are wanted.
pub(crate) fn put_line_of(
    lines: &mut Option<String>,
    slot: u32,
    matched: &Match,
    numbers: RoundsUsed,
) -> Result<(), AllocError>
    ensures { (scheduler : Scheduler) (plan : SwitchPlan) (is_wanted : Bool) (posts : List Post)
        → IsKept is_wanted (AreLinesOf scheduler plan slot) (option_map string_bytes lines.old) → IsRunSlot scheduler plan slot posts matched.now numbers
        → OnOk result (IsKept is_wanted (AreLinesOf scheduler plan (slot + 1)) (option_map string_bytes lines.new)) }
{
    match lines {
        Some(lines) => put_slot_line(lines, slot, numbers, matched),
        None => Ok(()),
    }
}

/// The lines, empty where they are not wanted.
pub(crate) fn lines_or_empty(alloc: Global, lines: Option<String>) -> String
    ensures { (scheduler : Scheduler) (plan : SwitchPlan) (is_wanted : Bool) (slots : ℕ)
        → IsKept is_wanted (AreLinesOf scheduler plan slots) (option_map string_bytes lines)
        → string_bytes result ≡ (if is_wanted then lines_text (map_with_place journal_line (journal_under scheduler plan slots)) else []) }
{
    match lines {
        Some(lines) => lines,
        None => String::new(alloc),
    }
}
