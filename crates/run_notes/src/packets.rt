ghost use Rattle.std.specs.Prelude.{◌+◌, ◌≤◌, ℕ, Bool, length, option_map, IfErr, IfOk, IfSome, IsTrue, OnOk};
ghost use Rattle.eslip_rounds.specs.Schedulers.{Scheduler};
ghost use Rattle.switch_plan.specs.GoodPlans.{SwitchPlan, IsGood, IsCountable, switch_plan_of};
ghost use Rattle.run_laws.specs.Promises.{ArrivalsComeFirst};
ghost use Rattle.run_laws.specs.Runs.{IsSlotUnder};
ghost use Rattle.packet_times.specs.KeptSteps.{left};
ghost use Rattle.packet_times.specs.declared.limits.TheConstants.{MAX_PACKETS_BYTES};
ghost use Rattle.packet_times.specs.Rows.{packets_text_under};
ghost use Rattle.run_notes.specs.NotingSteps.{AreTimesAfter, IsKept, IsPacketsFile, StopsPackets};

use crate::texts::NotesFault;
use crossbar::Post;
use packet_times::{MAX_PACKETS_BYTES, PacketRows, PacketTimes};
use rotating_pick::OutOfMemory;
use slot_match::Match;
use std::alloc::Global;
use switch_plan::Plan;

/// The times of the plan's packets before slot 0, where they are wanted.
pub(crate) fn times_for(
    alloc: Global,
    is_wanted: bool,
    plan: &Plan,
) -> Result<Option<PacketTimes>, OutOfMemory>
    requires good { IsGood (switch_plan_of plan.now) }
    requires countable { IsCountable (switch_plan_of plan.now) }
    ensures { IfOk result (λ times. (scheduler : Scheduler) → IsKept is_wanted (AreTimesAfter scheduler (switch_plan_of plan.now) 0) times) }
{
    if is_wanted {
        Ok(Some(PacketTimes::make(alloc, plan)?))
    } else {
        Ok(None)
    }
}

/// Notes the slot, where the packets file is wanted.
pub(crate) fn note_times(
    times: &mut Option<PacketTimes>,
    slot: u32,
    posts: &[Post],
    matched: &Match,
) -> Result<(), OutOfMemory>
    requires { (scheduler : Scheduler) × (plan : SwitchPlan) × IfSome times.old (AreTimesAfter scheduler plan slot)
        × IsSlotUnder scheduler plan slot posts.now matched.now }
    ensures { (scheduler : Scheduler) (plan : SwitchPlan) (is_wanted : Bool) → IsKept is_wanted (AreTimesAfter scheduler plan slot) times.old
        → IsSlotUnder scheduler plan slot posts.now matched.now → OnOk result (IsKept is_wanted (AreTimesAfter scheduler plan (slot + 1)) times.new) }
{
    match times {
        Some(times) => times.note(slot, posts, matched),
        None => Ok(()),
    }
}

// Whether the packets file has so few rows that its bytes need not be counted.
fn is_surely_short(times: &PacketTimes) -> bool
    ensures { IsTrue result → (scheduler : Scheduler) (plan : SwitchPlan) (slots : ℕ) → AreTimesAfter scheduler plan slots times.now
        → length (packets_text_under scheduler plan slots) ≤ MAX_PACKETS_BYTES }
{
    match times.most_bytes() {
        Some(most) => most <= MAX_PACKETS_BYTES as u64,
        None => false,
    }
}

/// The packets file, where it is wanted: of at most 134,217,728 bytes where the run is not long. It takes no memory.
pub(crate) fn packets_file(
    times: Option<PacketTimes>,
    long: bool,
) -> Result<Option<PacketRows>, NotesFault>
    ensures bytes { (scheduler : Scheduler) (plan : SwitchPlan) (is_wanted : Bool) (slots : ℕ) → IsKept is_wanted (AreTimesAfter scheduler plan slots) times
        → ArrivalsComeFirst plan slots
        → IfOk result (λ rows. IsPacketsFile is_wanted long (packets_text_under scheduler plan slots) (option_map left rows)) }
    ensures stops { (scheduler : Scheduler) (plan : SwitchPlan) (is_wanted : Bool) (slots : ℕ) → IsKept is_wanted (AreTimesAfter scheduler plan slots) times
        → ArrivalsComeFirst plan slots → IfErr result (StopsPackets is_wanted long (packets_text_under scheduler plan slots)) }
{
    let Some(times) = times else {
        return Ok(None);
    };
    if !long && !is_surely_short(&times) {
        let len = times.len()?;
        if len > MAX_PACKETS_BYTES as u64 {
            return Err(NotesFault::PacketsTooLong(len));
        }
    }
    Ok(Some(times.into_rows()))
}
