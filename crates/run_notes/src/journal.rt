ghost use Rattle.std.specs.Prelude.{◌≡◌, ◌≤◌, ◌<◌, ◌+◌, ℕ, Bool, if◌then◌else◌, None, Some, length, option_map, IfErr, IfOk, IfSome, OnOk};
ghost use Rattle.rotating_pick.specs.declared.limits.TheConstants.{MAX_PORTS};
ghost use Rattle.eslip_rounds.specs.Schedulers.{Scheduler};
ghost use Rattle.board_state.specs.declared.limits.TheConstants.{MAX_SLOTS};
ghost use Rattle.switch_plan.specs.GoodPlans.{SwitchPlan, IsGood, switch_plan_of};
ghost use Rattle.run_laws.specs.Runs.{IsSlotUnder};
ghost use Rattle.journal_check.specs.declared.limits.TheConstants.{MAX_JOURNAL_BYTES};
ghost use Rattle.run_journals.specs.RunFiles.{journal_text_under};
ghost use Rattle.run_notes.specs.NotingSteps.{IsJournalOf, IsKept, StopsJournal};

use crate::texts::NotesFault;
use crossbar::Post;
use journal_check::{JournalWriter, MAX_JOURNAL_BYTES};
use rotating_pick::OutOfMemory;
use slot_match::Match;
use std::alloc::Global;
use switch_plan::Plan;

/// The journal of the plan's run before slot 0, where it is wanted.
pub(crate) fn journal_for(
    alloc: Global,
    is_wanted: bool,
    plan: &Plan,
) -> Result<Option<JournalWriter>, OutOfMemory>
    requires { IsGood (switch_plan_of plan.now) }
    ensures { IfOk result (λ journal. (scheduler : Scheduler) → IsKept is_wanted (IsJournalOf scheduler (switch_plan_of plan.now) 0) journal) }
{
    if is_wanted {
        let ports = plan.cards.len() as u32;
        Ok(Some(JournalWriter::make(alloc, ports, plan.rounds)?))
    } else {
        Ok(None)
    }
}

/// Puts the next slot into the journal, where it is wanted.
pub(crate) fn put_slot_into(
    journal: &mut Option<JournalWriter>,
    posts: &[Post],
    matched: &Match,
) -> Result<(), OutOfMemory>
    requires posts { length posts.now ≤ MAX_PORTS }
    requires slots { IfSome journal.old (λ writer. writer.slots < MAX_SLOTS) }
    ensures { (scheduler : Scheduler) (plan : SwitchPlan) (is_wanted : Bool) (t : ℕ) → IsKept is_wanted (IsJournalOf scheduler plan t) journal.old
        → IsSlotUnder scheduler plan t posts.now matched.now → OnOk result (IsKept is_wanted (IsJournalOf scheduler plan (t + 1)) journal.new) }
{
    match journal {
        Some(writer) => writer.put(posts, matched),
        None => Ok(()),
    }
}

/// The bytes of the journal, at most 134,217,728, where it is wanted. It takes no memory.
pub(crate) fn bytes_of(journal: Option<JournalWriter>) -> Result<Option<Vec<u8>>, NotesFault>
    requires { (scheduler : Scheduler) × (plan : SwitchPlan) × (is_wanted : Bool) × (t : ℕ) × IsKept is_wanted (IsJournalOf scheduler plan t) journal }
    ensures bytes { (scheduler : Scheduler) (plan : SwitchPlan) (is_wanted : Bool) (t : ℕ) → IsKept is_wanted (IsJournalOf scheduler plan t) journal
        → IfOk result (λ bytes. option_map (λ b. b.items) bytes ≡ (if is_wanted then Some (journal_text_under scheduler plan t) else None)) }
    ensures small { IfOk result (λ bytes. IfSome (option_map (λ b. b.items) bytes) (λ b. length b ≤ MAX_JOURNAL_BYTES)) }
    ensures stops { (scheduler : Scheduler) (plan : SwitchPlan) (is_wanted : Bool) (t : ℕ) → IsKept is_wanted (IsJournalOf scheduler plan t) journal
        → IfErr result (StopsJournal is_wanted (journal_text_under scheduler plan t)) }
{
    let Some(writer) = journal else {
        return Ok(None);
    };
    let len = writer.len();
    if len > MAX_JOURNAL_BYTES as u64 {
        return Err(NotesFault::JournalTooLong(len));
    }
    Ok(Some(writer.finish()))
}
