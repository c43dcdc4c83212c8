ghost use Rattle.std.specs.Prelude.{◌≡◌, ◌+◌, ◌≤◌, ℕ, length, IfOk, OnOk};
ghost use Rattle.rotating_pick.specs.declared.limits.TheConstants.{MAX_PORTS};
ghost use Rattle.eslip_rounds.specs.Schedulers.{Scheduler};
ghost use Rattle.switch_plan.specs.GoodPlans.{SwitchPlan, IsGood, IsCountable, switch_plan_of};
ghost use Rattle.run_laws.specs.Runs.{IsSlotUnder};
ghost use Rattle.run_laws.specs.Promises.{ArrivalsComeFirst};
ghost use Rattle.packet_times.specs.Rows.{packets_text_under};
ghost use Rattle.packet_times.specs.NotingSteps.{HasNoted};
ghost use Rattle.packet_times.specs.KeptSteps.{kept_ports};

use crate::ends::{FlowEnds, no_ends, note_ends};
use crate::fields::{MOST_ROW_BYTES, put_line};
use crate::inputs::{Input, inputs_of, note_inputs};
use crate::walk::Walk;
use crossbar::Post;
use rotating_pick::{MAX_PORTS, OutOfMemory, PORT_COUNT};
use slot_match::{Fed, Match, Served};
use std::alloc::{AllocError, Global};
use std::marker::Model;
use switch_plan::Plan;

/// The first line of the packets file.
pub(crate) const HEADER: &str =
    "input,packet,bytes,cells,state,level,kind,output,arrival,departure,delay\n";

/// When the packets of a run leave, noted slot by slot.
#[derive(Drop)]
pub struct PacketTimes {
    pub(crate) inputs: Vec<Input>,
    // The ends of each flow, by its place.
    pub(crate) ends: Vec<FlowEnds>,
    // What fed each output in the slot before.
    feeds: Vec<Option<Fed>>,
    // The parts of all inputs in a match, which are written over.
    parts: [Option<Served>; PORT_COUNT],
}

impl Model for PacketTimes {
    ghost use Rattle.packet_times.specs.NotingSteps.{Times};

    ghost Value = { Times };

    ghost view = { λ t. record { inputs = t.inputs.items; ends = t.ends.items; matched = t.feeds.items } };
}

impl PacketTimes {
    /// The times of a good plan whose packets can be counted, before slot 0. Out of memory is the only error.
    pub fn make(alloc: Global, plan: &Plan) -> Result<PacketTimes, OutOfMemory>
        requires good { IsGood (switch_plan_of plan.now) }
        requires countable { IsCountable (switch_plan_of plan.now) }
        ensures { IfOk result (λ times. (scheduler : Scheduler) → HasNoted scheduler (switch_plan_of plan.now) times 0) }
    {
        let inputs = inputs_of(alloc, plan)?;
        let ends = no_ends(alloc, plan.cards.len() as u32)?;
        let feeds = Vec::with_capacity(alloc, plan.cards.len())?;
        Ok(PacketTimes {
            inputs,
            ends,
            feeds,
            parts: [None; PORT_COUNT],
        })
    }

    /// Notes the next slot of the run, from slot 0 on: what its ports posted, and its match. Out of memory is the only
    /// error.
    pub fn note(&mut self, slot: u32, posts: &[Post], matched: &Match) -> Result<(), OutOfMemory>
        requires { (scheduler : Scheduler) × (plan : SwitchPlan) × HasNoted scheduler plan self.old slot
            × IsSlotUnder scheduler plan slot posts.now matched.now }
        ensures { (scheduler : Scheduler) (plan : SwitchPlan) → HasNoted scheduler plan self.old slot → IsSlotUnder scheduler plan slot posts.now matched.now
            → OnOk result (HasNoted scheduler plan self.new (slot + 1)) }
    {
        let ports = self.inputs.len() as u32;
        note_ends(&mut self.ends, ports, slot, posts, &self.feeds)?;
        note_inputs(&mut self.inputs, slot, posts, matched, &mut self.parts)?;
        keep_feeds(&mut self.feeds, matched)?;
        Ok(())
    }

    /// How many ports the switch has, no more than 64.
    pub(crate) fn ports(&self) -> u32
        ensures most { result ≤ MAX_PORTS }
        ensures value { result ≡ kept_ports self.now }
    {
        self.inputs.len().min(MAX_PORTS as usize) as u32
    }

    /// How many bytes the packets file has, of a run of which so many slots were noted, and by whose end all packets have
    /// arrived. It makes one row at a time, and takes no memory; that the sum does not fit is the only error.
    pub fn len(&self) -> Result<u64, OutOfMemory>
        ensures { (scheduler : Scheduler) (plan : SwitchPlan) (slots : ℕ) → HasNoted scheduler plan self.now slots → ArrivalsComeFirst plan slots
            → IfOk result (λ len. len ≡ length (packets_text_under scheduler plan slots)) }
    {
        let mut len = HEADER.len() as u64;
        let mut line = [0; MOST_ROW_BYTES];
        let mut walk = Walk::at(0);
        while let Some(row) = self.next_row(&mut walk) {
            let more = MOST_ROW_BYTES - put_line(&mut line, &row);
            len = len.checked_add(more as u64).ok_or(OutOfMemory)?;
        }
        Ok(len)
    }
}

// Keeps what feeds each output in the match.
fn keep_feeds(feeds: &mut Vec<Option<Fed>>, matched: &Match) -> Result<(), AllocError>
    ensures { OnOk result (feeds.new.items ≡ matched.now) }
{
    feeds.clear();
    for output in 0..matched.ports() {
        feeds.push(matched.fed(output))?;
    }
    Ok(())
}
