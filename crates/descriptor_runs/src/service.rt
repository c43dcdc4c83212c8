ghost use Rattle.std.specs.Prelude.{◌≡◌, ℕ, ◌+◌, ◌^◌, ◌<◌, ◌≤◌, ◌↔◌, true, false, map, length, slice_get, OnOk};
ghost use Rattle.rotating_pick.specs.PortSets.{Has};
ghost use Rattle.slot_match.specs.Matches.{IsFreeInput, IsFreeOutput};
ghost use Rattle.card_core.specs.Plans.{IsGoodPlan};
ghost use Rattle.eslip_rounds.specs.Schedulers.{Scheduler, IsScheduler};
ghost use Rattle.switch_plan.specs.GoodPlans.{SwitchPlan, IsGood, IsCountable};
ghost use Rattle.slot_records.specs.Slots.{match_under};
ghost use Rattle.descriptor_runs.specs.OutputSteps.{HasTaken, keeping, messages_with};
ghost use Rattle.descriptor_runs.specs.SwitchSteps.{AreInputs, AreNames, AreOutputs, AreParts, AreGranted};

use crate::cell_names::CellNames;
use crate::input_ports::InputPorts;
use crate::inputs::Input;
use crate::outputs::Output;
use cell_cutter::CellName;
use rotating_pick::{OutOfMemory, PORT_COUNT, Ports, all, difference, lowest, without};
use slot_match::{Match, Served};
use slot_records::laws;

/// Takes what each input is served off its queues, and grants it the cell that was its first.
pub(crate) fn serve_inputs(
    inputs: &mut InputPorts,
    matched: &Match,
    parts: &[Option<Served>; PORT_COUNT],
    names: &mut CellNames,
)
    requires { (scheduler : Scheduler) × (plan : SwitchPlan) × (slot : ℕ) × IsScheduler scheduler × IsGood plan
        × AreInputs scheduler plan slot true inputs.old × (matched.now ≡ match_under scheduler plan slot) × AreParts scheduler plan slot parts.now }
    ensures served { (scheduler : Scheduler) (plan : SwitchPlan) (slot : ℕ) → IsScheduler scheduler → IsGood plan
        → AreInputs scheduler plan slot true inputs.old → matched.now ≡ match_under scheduler plan slot → AreParts scheduler plan slot parts.now
        → AreInputs scheduler plan (slot + 1) false inputs.new
        × AreGranted scheduler plan slot names.new × AreNames scheduler plan (slot + 1) names.new }
    ensures others { (i : ℕ) → IsFreeInput matched.now i → slice_get inputs.new i ≡ slice_get inputs.old i }
{
    names.clear();
    let mut rest = served_inputs(matched);
    while let Some(port) = lowest(rest) {
        rest = without(rest, port);
        if let Some(part) = parts[port as usize] {
            let name = inputs.leave(port, part);
            names.put(port, name);
        }
    }
}

/// The inputs that the match serves.
pub(crate) fn served_inputs(matched: &Match) -> Ports
    ensures { (i : ℕ) → Has result i ↔ ((i < length matched.now) × (IsFreeInput matched.now i → ⊥)) }
{
    difference(all(matched.ports()), matched.free_inputs())
}

/// Each output takes the cell that crosses to it: that of the input that feeds it. The only error is out of memory.
pub(crate) fn feed_outputs(
    outputs: &mut [Output],
    inputs: &[Input],
    names: &CellNames,
    matched: &Match,
    nano: bool,
) -> Result<(), OutOfMemory>
    requires { (scheduler : Scheduler) × (plan : SwitchPlan) × (slot : ℕ) × IsScheduler scheduler × IsGood plan × IsCountable plan
        × (slot < plan.max_slots) × (map (λ input. input.plan) inputs.now ≡ plan.cards) × AreGranted scheduler plan slot names.now
        × (matched.now ≡ match_under scheduler plan slot) × (nano ≡ plan.nano) × AreOutputs scheduler plan (slot + 1) outputs.old }
    ensures fed { OnOk result ((scheduler : Scheduler) (plan : SwitchPlan) (slot : ℕ) → IsScheduler scheduler → IsGood plan
        → map (λ input. input.plan) inputs.now ≡ plan.cards → AreGranted scheduler plan slot names.now
        → matched.now ≡ match_under scheduler plan slot → nano ≡ plan.nano → AreOutputs scheduler plan (slot + 1) outputs.old
        → AreOutputs scheduler plan (slot + 2) outputs.new) }
    ensures kept { OnOk result (keeping outputs.new ≡ keeping outputs.old) }
{
    laws::slots_add_records();
    laws::slots_add_one_cell();
    let mut rest = fed_outputs(matched);
    while let Some(output) = lowest(rest) {
        rest = without(rest, output);
        let Some(fed) = matched.fed(output) else {
            continue;
        };
        let Some(name) = names.get(fed.input) else {
            continue;
        };
        let input = &inputs[fed.input as usize];
        feed(&mut outputs[output as usize], input, name, nano)?;
    }
    Ok(())
}

// The outputs that the match feeds.
fn fed_outputs(matched: &Match) -> Ports
    ensures { (j : ℕ) → Has result j ↔ ((j < length matched.now) × (IsFreeOutput matched.now j → ⊥)) }
{
    difference(all(matched.ports()), matched.free_outputs())
}

// The output takes this cell of the input, and with the last one of a packet the packet's record. The only error is out of
// memory.
fn feed(output: &mut Output, input: &Input, name: CellName, nano: bool) -> Result<(), OutOfMemory>
    requires cells { output.old.cells + 1 < 2 ^ 32 }
    requires packets { output.old.packets ≤ output.old.cells }
    requires good { IsGoodPlan input.now.plan }
    requires there { name.packet < length input.now.plan.packets }
    ensures { OnOk result (HasTaken nano (messages_with input.now.plan name) output.old output.new) }
{
    output.take_cell();
    if name.last {
        output.put(nano, input.packet(name.packet), input.bytes())?;
    }
    Ok(())
}
