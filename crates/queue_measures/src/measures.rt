ghost use Rattle.std.specs.Prelude.{◌≡◌, ◌<◌, ◌≤◌, ◌+◌, ℕ, None, length, slice_index_or, IfOk, string_bytes};
ghost use Rattle.rotating_pick.specs.declared.limits.TheConstants.{MAX_PORTS};
ghost use Rattle.eslip_rounds.specs.Schedulers.{Scheduler};
ghost use Rattle.slot_match.specs.Parts.{served_of};
ghost use Rattle.slot_report.specs.Lines.{lines_text};
ghost use Rattle.switch_plan.specs.GoodPlans.{SwitchPlan, IsGood, IsCountable, switch_plan_of};
ghost use Rattle.run_laws.specs.Runs.{IsSlotUnder};
ghost use Rattle.run_laws.specs.Promises.{ArrivalsComeFirst};
ghost use Rattle.queue_measures.specs.Lines.{queue_lines_under};
ghost use Rattle.queue_measures.specs.NotingSteps.{HasNoted};
ghost use Rattle.queue_measures.specs.Steps.{deepest_among};

use crate::inputs::Input;
use crate::text::{put_deepest, put_input};
use crossbar::Post;
use rotating_pick::{OutOfMemory, PORT_COUNT};
use slot_match::{Match, Served};
use std::alloc::Global;
use std::marker::Model;
use switch_plan::Plan;

/// What each queue of a run has held, noted slot by slot. No memory is taken between [`QueueMeasures::make`] and
/// [`QueueMeasures::text`]; a slot costs a step for each input and output.
#[derive(Drop)]
pub struct QueueMeasures {
    inputs: Vec<Input>,
    // The parts of all inputs in a match, which are written over.
    parts: [Option<Served>; PORT_COUNT],
}

impl Model for QueueMeasures {
    ghost use Rattle.std.specs.Prelude.{◌≤◌, List, length};
    ghost use Rattle.rotating_pick.specs.declared.limits.TheConstants.{MAX_PORTS};
    ghost use Rattle.queue_measures.specs.NotingSteps.{Input as InputValue};

    ghost Value = { List InputValue };

    ghost view = { λ m. m.inputs.items };

    ghost invariant = { λ m. length m.inputs.items ≤ MAX_PORTS };
}

impl QueueMeasures {
    /// The measures of a good plan that is countable, before slot 0. Out of memory is the only error.
    pub fn make(alloc: Global, plan: &Plan) -> Result<QueueMeasures, OutOfMemory>
        requires good { IsGood (switch_plan_of plan.now) }
        requires countable { IsCountable (switch_plan_of plan.now) }
        ensures { IfOk result (λ measures. (scheduler : Scheduler) → HasNoted scheduler (switch_plan_of plan.now) measures 0) }
    {
        let mut inputs = Vec::with_capacity(alloc, plan.cards.len())?;
        for card in &plan.cards {
            inputs.push(Input::make(alloc, card)?)?;
        }
        Ok(QueueMeasures {
            inputs,
            parts: [None; PORT_COUNT],
        })
    }

    /// Notes the next slot of the run, from slot 0 on: what its ports posted, and its match.
    pub fn note(&mut self, slot: u32, posts: &[Post], matched: &Match)
        requires { (scheduler : Scheduler) × (plan : SwitchPlan) × HasNoted scheduler plan self.old slot
            × IsSlotUnder scheduler plan slot posts.now matched.now }
        ensures { (scheduler : Scheduler) (plan : SwitchPlan) → HasNoted scheduler plan self.old slot
            → IsSlotUnder scheduler plan slot posts.now matched.now → HasNoted scheduler plan self.new (slot + 1) }
    {
        let ports = self.inputs.len() as u32;
        matched.put_parts(&mut self.parts);
        for i in 0..self.inputs.len() {
            let part = part_of(matched, &self.parts, i as u32);
            self.inputs[i].note(ports, slot, &posts[i].row, part);
        }
    }

    /// The report's lines of a run of which so many slots were noted, and by whose end all packets have arrived: a line for
    /// each queue that a packet was for, and then that of the deepest. Out of memory is the only error.
    pub fn text(&self, alloc: Global) -> Result<String, OutOfMemory>
        ensures { (scheduler : Scheduler) (plan : SwitchPlan) (slots : ℕ) → HasNoted scheduler plan self.now slots → ArrivalsComeFirst plan slots
            → IfOk result (λ text. string_bytes text ≡ lines_text (queue_lines_under scheduler plan slots)) }
    {
        let ports = self.inputs.len() as u32;
        let mut text = String::new(alloc);
        for (i, input) in self.inputs.iter().enumerate() {
            put_input(&mut text, ports, i as u32, input.numbers())?;
        }
        put_deepest(&mut text, self.deepest())?;
        Ok(text)
    }

    // The most cells that any queue held.
    fn deepest(&self) -> u32
        ensures { result ≡ deepest_among self.now }
    {
        let mut most = 0;
        for input in &self.inputs {
            most = most.max(input.deepest());
        }
        most
    }
}

// The input's part of the match, whose parts these are, None where the match has no such input.
fn part_of(matched: &Match, parts: &[Option<Served>; PORT_COUNT], input: u32) -> Option<Served>
    requires { (i : ℕ) → i < length matched.now → slice_index_or parts.now i None ≡ served_of matched.now i }
    ensures { result ≡ served_of matched.now input }
{
    if input < matched.ports() {
        parts[input as usize]
    } else {
        None
    }
}
