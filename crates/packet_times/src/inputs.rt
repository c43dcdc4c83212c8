ghost use Rattle.std.specs.Prelude.{◌≡◌, ℕ, ◌+◌, ◌^◌, ◌<◌, ◌≤◌, ◌++◌, ◌∷◌, [], false, None, List, length, Option, map, slice_index_or, IfOk, OnOk};
ghost use Rattle.rotating_pick.specs.declared.limits.TheConstants.{MAX_PORTS};
ghost use Rattle.slot_match.specs.declared.matching.Served.{Served as AServed};
ghost use Rattle.slot_match.specs.Parts.{served_of};
ghost use Rattle.eslip_rounds.specs.Schedulers.{Scheduler};
ghost use Rattle.card_core.specs.Plans.{Plan as APlan, IsGoodPlan, plan_of};
ghost use Rattle.card_core.specs.Posts.{row_at, IsServable};
ghost use Rattle.switch_plan.specs.GoodPlans.{SwitchPlan, IsGood, IsCountable, switch_plan_of};
ghost use Rattle.run_laws.specs.Runs.{ports_of, IsSlotUnder};
ghost use Rattle.packet_times.specs.NotingSteps.{IsNoted};
ghost use Rattle.packet_times.specs.Steps.{AreNoted};

use card_core::{CardPlan, Planned};
use crossbar::Post;
use queue_lengths::QueueLengths;
use rotating_pick::{OutOfMemory, PORT_COUNT};
use slot_match::{Match, Row, Served};
use std::alloc::Global;
use std::marker::Model;
use switch_plan::Plan;

/// An input: the lengths of its queues, and of each packet that has come whether it was admitted.
#[derive(Drop)]
pub(crate) struct Input {
    queues: QueueLengths,
    admitted: Vec<bool>,
}

impl Model for Input {
    ghost use Rattle.packet_times.specs.NotingSteps.{Input as InputValue};

    ghost Value = { InputValue };

    ghost view = { λ i. record { counters = i.queues; admitted = i.admitted.items } };
}

impl Input {
    // An input that is to send what a plan says, before slot 0.
    fn make(alloc: Global, plan: &CardPlan) -> Result<Input, OutOfMemory>
        requires good { IsGoodPlan (plan_of plan.now) }
        requires few { length (plan_of plan.now).packets < 2 ^ 32 }
        ensures { IfOk result (λ input. IsNoted (plan_of plan.now) input []) }
    {
        let queues = QueueLengths::make(alloc, plan)?;
        let admitted = Vec::with_capacity(alloc, plan.packets.len())?;
        Ok(Input { queues, admitted })
    }

    // Notes a slot: the packet that arrives, and what the slot serves of the row.
    fn note(&mut self, slot: u32, row: &Row, part: Option<Served>) -> Result<(), OutOfMemory>
        requires { (plan : APlan) × (served : List (Option AServed)) × IsNoted plan self.old served × (length served ≡ slot)
            × (row.now ≡ row_at plan served slot) × IsServable row.now part }
        ensures { (plan : APlan) (served : List (Option AServed)) → IsNoted plan self.old served → length served ≡ slot → row.now ≡ row_at plan served slot
            → IsServable row.now part
            → OnOk result (IsNoted plan self.new (served ++ part ∷ [])) }
    {
        let arrival = self.queues.arrive(slot);
        self.queues.leave(row, part);
        if let Some(arrival) = arrival {
            self.admitted.push(arrival.admitted)?;
        }
        Ok(())
    }
}

impl Input {
    /// The packets of the input.
    pub(crate) fn packets(&self) -> &[Planned]
        ensures { result.now ≡ self.now.counters.packets }
    {
        self.queues.packets()
    }

    /// Whether the packet of this number has come and was admitted.
    pub(crate) fn is_admitted(&self, number: usize) -> bool
        ensures { result ≡ slice_index_or self.now.admitted number false }
    {
        self.admitted.get(number).copied().unwrap_or(false)
    }
}

/// The inputs of a good plan whose packets can be counted, before slot 0.
pub(crate) fn inputs_of(alloc: Global, plan: &Plan) -> Result<Vec<Input>, OutOfMemory>
    requires good { IsGood (switch_plan_of plan.now) }
    requires countable { IsCountable (switch_plan_of plan.now) }
    ensures { IfOk result (λ inputs. (scheduler : Scheduler) → AreNoted scheduler (switch_plan_of plan.now) 0 0 inputs.items) }
{
    let mut inputs = Vec::with_capacity(alloc, plan.cards.len())?;
    for card in &plan.cards {
        inputs.push(Input::make(alloc, card)?)?;
    }
    Ok(inputs)
}

// What the match, whose parts these are, serves the input, which may be none of its ports.
fn part_of(matched: &Match, parts: &[Option<Served>; PORT_COUNT], input: u32) -> Option<Served>
    requires { (i : ℕ) → i < length matched.now → slice_index_or parts.now i None ≡ served_of matched.now i }
    ensures { result ≡ served_of matched.now input }
{
    if input < matched.ports() {
        parts[input as usize]
    } else {
        None
    }
}

/// Notes a slot of each input: what the ports posted, and the match. The parts of all inputs are written to `parts`.
pub(crate) fn note_inputs(
    inputs: &mut [Input],
    slot: u32,
    posts: &[Post],
    matched: &Match,
    parts: &mut [Option<Served>; PORT_COUNT],
) -> Result<(), OutOfMemory>
    requires few { length inputs.old ≤ MAX_PORTS }
    requires noted { (scheduler : Scheduler) × (plan : SwitchPlan) × AreNoted scheduler plan slot 0 inputs.old
        × IsSlotUnder scheduler plan slot posts.now matched.now }
    ensures { (scheduler : Scheduler) (plan : SwitchPlan) → AreNoted scheduler plan slot 0 inputs.old → IsSlotUnder scheduler plan slot posts.now matched.now
        → OnOk result (AreNoted scheduler plan slot (ports_of plan) inputs.new) }
{
    matched.put_parts(parts);
    for i in 0..inputs.len() {
        let part = part_of(matched, parts, i as u32);
        inputs[i].note(slot, &posts[i].row, part)?;
    }
    Ok(())
}
