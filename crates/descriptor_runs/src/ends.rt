ghost use Rattle.std.specs.Prelude.{◌≡◌, ◌+◌, ◌^◌, ◌<◌, ◌≤◌, ◌++◌, List, IfOk, length, map, sum_by, vec_capacity};
ghost use Rattle.std.specs.List.{filter_map, range_with_len};
ghost use Rattle.std.specs.Option.{option_map, option_to_list};
ghost use Rattle.service_bound.specs.Waits.{NotedSlot, longest_wait};
ghost use Rattle.service_bound.specs.MeterSteps.{HasNoted};
ghost use Rattle.eslip_rounds.specs.Schedulers.{Scheduler, IsScheduler};
ghost use Rattle.switch_plan.specs.GoodPlans.{SwitchPlan, IsGood, IsCountable, switch_plan_of};
ghost use Rattle.run_laws.specs.Ends.{IsLengthUnder};
ghost use Rattle.descriptor_runs.specs.declared.outputs.Captures.{Captures};
ghost use Rattle.descriptor_runs.specs.Outcomes.{IsRunOutcome};
ghost use Rattle.descriptor_runs.specs.OutputSteps.{AreKeeping};
ghost use Rattle.descriptor_runs.specs.FinishingSteps.{ArePlanNumbers, line_of};
ghost use Rattle.descriptor_runs.specs.SwitchSteps.{IsBefore};

use crate::inputs::Input;
use crate::outputs::Output;
use crate::runs::RunOutcome;
use crate::switch::Switch;
use card_core::CardPlan;
use rotating_pick::{LEVEL_COUNT, LEVELS, OutOfMemory};
use service_bound::WaitMeter;
use slot_records::laws::{runs_leave_nothing, slots_add_one_cell};
use slot_report::{OutLine, Summary};
use std::alloc::Global;
use switch_plan::Plan;

/// The numbers of a plan that the summary of its run tells.
#[derive(Drop)]
pub(crate) struct PlanNumbers {
    pub(crate) depth: u32,
    pub(crate) packets: u32,
    pub(crate) oversize: u32,
    pub(crate) unrouted: u32,
}

impl PlanNumbers {
    /// The numbers of this plan.
    pub(crate) fn of(plan: &Plan) -> PlanNumbers
        requires good { IsGood (switch_plan_of plan.now) }
        requires countable { IsCountable (switch_plan_of plan.now) }
        ensures { ArePlanNumbers (switch_plan_of plan.now) result }
    {
        PlanNumbers {
            depth: plan.depth,
            packets: packet_count(&plan.cards),
            oversize: plan.oversize,
            unrouted: plan.unrouted,
        }
    }
}

// How many packets the inputs have.
fn packet_count(cards: &[CardPlan]) -> u32
    requires { sum_by (λ card. length card.packets.items) cards.now < 2 ^ 32 }
    ensures { result ≡ sum_by (λ card. length card.packets.items) cards.now }
{
    let mut count: u32 = 0;
    for card in cards {
        count += card.packets.len() as u32;
    }
    count
}

/// What a switch that has made its run to the end leaves. The only error is out of memory.
pub(crate) fn finish(
    alloc: Global,
    switch: Switch,
    numbers: &PlanNumbers,
    slots: u32,
) -> Result<RunOutcome, OutOfMemory>
    requires { (scheduler : Scheduler) × (plan : SwitchPlan) × IsScheduler scheduler × IsGood plan × IsCountable plan × IsLengthUnder scheduler plan slots
        × (slots ≤ plan.max_slots) × ArePlanNumbers plan numbers.now × IsBefore scheduler plan slots switch }
    ensures { IfOk result (λ outcome. (captures : Captures) (scheduler : Scheduler) (plan : SwitchPlan) → IsScheduler scheduler → IsGood plan
        → IsCountable plan → IsLengthUnder scheduler plan slots → slots ≤ plan.max_slots → ArePlanNumbers plan numbers.now
        → IsBefore scheduler plan slots switch → AreKeeping captures switch.outputs.items
        → IsRunOutcome captures scheduler plan slots outcome) }
{
    runs_leave_nothing();
    slots_add_one_cell();
    let ports = switch.meter.ports();
    let longest = longest_of(&switch.meter);
    let dropped = dropped_in(switch.inputs.as_slice());
    let forwarded = admitted_in(switch.inputs.as_slice());
    let (captures, lines) = leave(alloc, switch.outputs)?;
    let summary = Summary {
        ports,
        rounds: switch.rounds,
        depth: numbers.depth,
        slots,
        packets: numbers.packets,
        oversize: numbers.oversize,
        unrouted: numbers.unrouted,
        dropped,
        forwarded,
        copies: packets_in(&lines),
        cells: cells_in(&lines),
        longest,
    };
    Ok(RunOutcome {
        summary,
        captures,
        lines,
    })
}

// The longest wait of each level in the slots that the meter has noted.
fn longest_of(meter: &WaitMeter) -> [u32; LEVEL_COUNT]
    ensures { (slots : List NotedSlot) → HasNoted meter.now slots
        → result ≡ map (λ level. longest_wait meter.now.ports level slots) (range_with_len 0 LEVELS) }
{
    let mut longest = [0; LEVEL_COUNT];
    for level in 0..LEVELS as u8 {
        longest[usize::from(level)] = meter.longest(level);
    }
    longest
}

// How many packets the inputs dropped.
fn dropped_in(inputs: &[Input]) -> u32
    requires { sum_by (λ input. input.dropped) inputs.now < 2 ^ 32 }
    ensures { result ≡ sum_by (λ input. input.dropped) inputs.now }
{
    let mut count: u32 = 0;
    for input in inputs {
        count += input.dropped();
    }
    count
}

// How many packets the inputs admitted.
fn admitted_in(inputs: &[Input]) -> u32
    requires { sum_by (λ input. input.admitted) inputs.now < 2 ^ 32 }
    ensures { result ≡ sum_by (λ input. input.admitted) inputs.now }
{
    let mut count: u32 = 0;
    for input in inputs {
        count += input.admitted();
    }
    count
}

// How many packets came to the outputs.
fn packets_in(lines: &[OutLine]) -> u32
    requires { sum_by (λ line. line.packets) lines.now < 2 ^ 32 }
    ensures { result ≡ sum_by (λ line. line.packets) lines.now }
{
    lines.iter().map(|line| line.packets).sum()
}

// How many cells came to the outputs.
fn cells_in(lines: &[OutLine]) -> u32
    requires { sum_by (λ line. line.cells) lines.now < 2 ^ 32 }
    ensures { result ≡ sum_by (λ line. line.cells) lines.now }
{
    lines.iter().map(|line| line.cells).sum()
}

// The captures of the outputs that keep theirs, and how much came to each output.
fn leave(alloc: Global, outputs: Vec<Output>) -> Result<(Vec<Vec<u8>>, Vec<OutLine>), OutOfMemory>
    ensures captures { IfOk result (λ left. map (λ capture. capture.items) left.0.items ≡ filter_map (λ output. output.text) outputs.items) }
    ensures lines { IfOk result (λ left. left.1.items ≡ map line_of outputs.items) }
{
    let mut captures = Vec::with_capacity(alloc, outputs.len())?;
    let mut lines = Vec::with_capacity(alloc, outputs.len())?;
    for output in outputs {
        let (text, line) = output.into_parts();
        put_kept(&mut captures, text);
        lines.push_reserved(line);
    }
    Ok((captures, lines))
}

// Puts a capture that is kept behind the others, for which there is room.
fn put_kept(captures: &mut Vec<Vec<u8>>, text: Option<Vec<u8>>)
    requires room { length captures.old.items < vec_capacity captures.old }
    ensures items { map (λ capture. capture.items) captures.new.items
        ≡ map (λ capture. capture.items) captures.old.items ++ option_to_list (option_map (λ capture. capture.items) text) }
    ensures count { length captures.new.items ≤ length captures.old.items + 1 }
    ensures capacity { vec_capacity captures.new ≡ vec_capacity captures.old }
{
    if let Some(text) = text {
        captures.push_reserved(text);
    }
}
