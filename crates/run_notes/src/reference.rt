ghost use Rattle.std.specs.Prelude.{◌≡◌, ◌<◌, ◌+◌, ◌^◌, ◌∷◌, ◌++◌, ℕ, Bool, if◌then◌else◌, List, [], map, replicate, IfOk, IfSome, string_bytes};
ghost use Rattle.std.specs.List.{range_with_len};
ghost use Rattle.slot_match.specs.Matches.{unmatched};
ghost use Rattle.slot_match.specs.declared.rows.Row.{Row};
ghost use Rattle.eslip_rounds.specs.Schedulers.{Scheduler};
ghost use Rattle.slot_report.specs.Lines.{lines_text};
ghost use Rattle.switch_plan.specs.GoodPlans.{SwitchPlan, IsGood, IsCountable, switch_plan_of};
ghost use Rattle.run_laws.specs.Runs.{ports_of};
ghost use Rattle.output_queued.specs.Lines.{line_of};
ghost use Rattle.output_queued.specs.NotingSteps.{HasNoted, MayNote, cards_in};
ghost use Rattle.output_queued.specs.QuietSteps.{IsQuietFor};
ghost use Rattle.output_queued.specs.Switches.{Matched};
ghost use Rattle.reference_run.specs.MeetingSteps.{IsReferenceOf};
ghost use Rattle.reference_run.specs.RunLines.{run_lines_under};
ghost use Rattle.run_notes.specs.NotingSteps.{IsKept, IsReferenceAfter};

use output_queued::{RefLine, Reference, reference_text};
use reference_run::reference_of;
use rotating_pick::OutOfMemory;
use slot_match::Match;
use std::alloc::{AllocError, Global};
use switch_plan::Plan;

/// The reference of the plan before slot 0, where it is wanted.
pub(crate) fn reference_for(
    alloc: Global,
    is_wanted: bool,
    plan: &Plan,
) -> Result<Option<Reference>, OutOfMemory>
    requires good { IsGood (switch_plan_of plan.now) }
    requires countable { IsCountable (switch_plan_of plan.now) }
    ensures { IfOk result (λ reference. (scheduler : Scheduler) → IsKept is_wanted (IsReferenceAfter scheduler (switch_plan_of plan.now) 0) reference) }
{
    if is_wanted {
        Ok(Some(reference_of(alloc, plan)?))
    } else {
        Ok(None)
    }
}

/// Notes the next slot, where the reference is wanted.
pub(crate) fn note_matched(reference: &mut Option<Reference>, matched: &Match)
    requires { IfSome reference.old (λ r. (rows : List Row) × MayNote r rows matched.now) }
    ensures { (plan : SwitchPlan) (is_wanted : Bool) (matches : List Matched) → IsKept is_wanted (λ r. IsReferenceOf plan r matches) reference.old
        → IsKept is_wanted (λ r. IsReferenceOf plan r (matches ++ matched.now ∷ [])) reference.new }
{
    if let Some(reference) = reference {
        reference.note_match(matched);
    }
}

/// Notes so many slots more in which nothing comes, waits or is matched, where the reference is wanted.
pub(crate) fn skip_matched(reference: &mut Option<Reference>, slots: u32)
    requires quiet { IfSome reference.old (λ r. (matches : List Matched) × HasNoted r matches × IsQuietFor r matches slots) }
    requires few { IfSome reference.old (λ r. r.slots + slots < 2 ^ 32) }
    ensures { (plan : SwitchPlan) (is_wanted : Bool) (matches : List Matched) → IsKept is_wanted (λ r. IsReferenceOf plan r matches) reference.old
        → IsKept is_wanted (λ r. IsReferenceOf plan r (matches ++ replicate slots (unmatched (ports_of plan)))) reference.new }
{
    if let Some(reference) = reference {
        reference.skip(slots);
    }
}

/// The lines of the reference, empty where they are not wanted.
pub(crate) fn reference_lines(
    alloc: Global,
    reference: &Option<Reference>,
) -> Result<String, OutOfMemory>
    ensures { (scheduler : Scheduler) (plan : SwitchPlan) (is_wanted : Bool) (slots : ℕ) → IsGood plan
        → IsKept is_wanted (IsReferenceAfter scheduler plan slots) reference.now
        → IfOk result (λ text. string_bytes text ≡ (if is_wanted then lines_text (run_lines_under scheduler plan slots) else [])) }
{
    match reference {
        Some(reference) => text_of(alloc, reference),
        None => Ok(String::new(alloc)),
    }
}

// The lines of a reference that has noted the run's slots.
fn text_of(alloc: Global, reference: &Reference) -> Result<String, OutOfMemory>
    ensures { (scheduler : Scheduler) (plan : SwitchPlan) (slots : ℕ) → IsGood plan → IsReferenceAfter scheduler plan slots reference.now
        → IfOk result (λ text. string_bytes text ≡ lines_text (run_lines_under scheduler plan slots)) }
{
    reference.noted_slots();
    let lines = lines(alloc, reference)?;
    reference_text(alloc, &lines)
}

// The numbers of each output.
fn lines(alloc: Global, reference: &Reference) -> Result<Vec<RefLine>, AllocError>
    ensures { (matches : List Matched) → HasNoted reference.now matches
        → IfOk result (λ lines. lines.items ≡ map (line_of (cards_in reference.now) matches) (range_with_len 0 reference.now.ports)) }
{
    let mut lines = Vec::new(alloc);
    for output in 0..reference.ports() {
        lines.push(reference.line(output))?;
    }
    Ok(lines)
}
