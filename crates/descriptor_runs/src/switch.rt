ghost use Rattle.std.specs.Prelude.{◌≡◌, ℕ, ◌+◌, ◌<◌, length, IfOk, OnOk, Some, slice_get};
ghost use Rattle.eslip_rounds.specs.Schedulers.{Scheduler, IsScheduler};
ghost use Rattle.named_schedulers.specs.Named.{decision_named};
ghost use Rattle.switch_plan.specs.GoodPlans.{SwitchPlan, IsGood, IsCountable, switch_plan_of};
ghost use Rattle.descriptor_runs.specs.OutputSteps.{OutputValue, AreKeeping, keeping, new_output};
ghost use Rattle.descriptor_runs.specs.SwitchSteps.{IsBefore, IsDecided, IsActivity};

use crate::cell_names::CellNames;
use crate::input_ports::InputPorts;
use crate::outputs::{Captures, Output};
use crate::service::{feed_outputs, serve_inputs, served_inputs};
use card_core::CardPlan;
use crossbar::Post;
use islip_rounds::RoundsUsed;
use named_schedulers::NamedScheduler;
use pcap_records::Link;
use pointer_state::Pointers;
use rotating_pick::{OutOfMemory, PORT_COUNT, union};
use scheduler_names::SchedulerName;
use service_bound::WaitMeter;
use slot_match::{Match, Row, Served};
use std::alloc::Global;
use switch_plan::Plan;

/// What goes on in a slot.
#[derive(Clone, Copy, Debug, PartialEq, Eq)]
pub(crate) enum Activity {
    /// No input has more to come: the slot is the last.
    Done,
    /// No input asks for an output, and a packet is to arrive.
    Idle,
    /// Some input asks for an output.
    Busy,
}

/// A switch between two slots of its run.
#[derive(Drop)]
pub(crate) struct Switch {
    /// What decides its slots.
    pub(crate) scheduler: NamedScheduler,
    /// Rounds of a slot.
    pub(crate) rounds: u32,
    /// Whether captures are written in nanoseconds.
    pub(crate) nano: bool,
    /// The inputs, by port.
    pub(crate) inputs: InputPorts,
    /// The outputs, by port.
    pub(crate) outputs: Vec<Output>,
    /// Where the next slot's choices begin.
    pub(crate) pointers: Pointers,
    /// The match of the slot that was decided last.
    pub(crate) matched: Match,
    /// How its rounds were used.
    pub(crate) numbers: RoundsUsed,
    /// The parts of all inputs in it.
    pub(crate) parts: [Option<Served>; PORT_COUNT],
    /// The names of the cells that it grants, by input.
    pub(crate) names: CellNames,
    /// What the ports posted last, for a sink that wants slots.
    pub(crate) posts: Vec<Post>,
    /// The waits in all slots so far.
    pub(crate) meter: WaitMeter,
}

impl Switch {
    /// The switch of a plan before slot 0 of its run under the scheduler of this name. It takes all memory of the run but that
    /// of its notes.
    pub(crate) fn make(
        alloc: Global,
        scheduler: SchedulerName,
        captures: Captures,
        plan: Plan,
    ) -> Result<Switch, OutOfMemory>
        requires good { IsGood (switch_plan_of plan) }
        requires countable { IsCountable (switch_plan_of plan) }
        ensures before { IfOk result (IsBefore (decision_named scheduler) (switch_plan_of plan) 0) }
        ensures kept { IfOk result (λ switch. AreKeeping captures switch.outputs.items) }
    {
        let ports = plan.cards.len() as u32;
        let nothing = Post {
            row: Row::empty(),
            cell: None,
            more: false,
        };
        let posts = vec![in alloc; nothing; ports as usize]?;
        let outputs = outputs_of(alloc, captures, plan.nano, plan.link, &plan.cards)?;
        Ok(Switch {
            scheduler: NamedScheduler::new(scheduler),
            rounds: plan.rounds,
            nano: plan.nano,
            inputs: InputPorts::make(alloc, plan.cards)?,
            outputs,
            pointers: Pointers::new(ports),
            matched: Match::new(ports),
            numbers: RoundsUsed::none(),
            parts: [None; PORT_COUNT],
            names: CellNames::new(),
            posts,
            meter: WaitMeter::make(alloc, ports)?,
        })
    }

    /// Lets in the packets of the slot, and decides it. Answers what goes on in it.
    pub(crate) fn decide(&mut self, slot: u32) -> Activity
        requires { (scheduler : Scheduler) × (plan : SwitchPlan) × IsScheduler scheduler × IsGood plan × IsCountable plan × (slot < plan.max_slots)
            × IsBefore scheduler plan slot self.old }
        ensures decided { (scheduler : Scheduler) (plan : SwitchPlan) → IsScheduler scheduler → IsGood plan → IsBefore scheduler plan slot self.old
            → IsDecided scheduler plan slot self.new }
        ensures activity { (scheduler : Scheduler) (plan : SwitchPlan) → IsScheduler scheduler → IsGood plan → IsBefore scheduler plan slot self.old
            → IsActivity scheduler plan slot result }
        ensures outputs { self.new.outputs ≡ self.old.outputs }
    {
        let ports = self.pointers.ports();
        let came = self.inputs.let_in(slot);
        let before = served_inputs(&self.matched);
        self.numbers = self.scheduler.decide_over(
            ports,
            self.rounds,
            slot,
            self.inputs.columns(),
            &mut self.pointers,
            &mut self.matched,
        );
        self.matched.change_parts(&mut self.parts, before);
        // The queues of all other inputs wait as they did in the slot before.
        let news = union(came, union(before, served_inputs(&self.matched)));
        let rows = self.inputs.columns().rows();
        self.meter.note_news(rows, &self.parts, news);
        self.inputs.activity()
    }

    /// Takes what the slot, which is decided, serves off the queues, and brings it to the outputs. The only error is out of
    /// memory.
    pub(crate) fn serve(&mut self) -> Result<(), OutOfMemory>
        requires { (scheduler : Scheduler) × (plan : SwitchPlan) × (slot : ℕ) × IsScheduler scheduler × IsGood plan × IsCountable plan
            × (slot < plan.max_slots) × IsDecided scheduler plan slot self.old }
        ensures served { OnOk result ((scheduler : Scheduler) (plan : SwitchPlan) (slot : ℕ) → IsScheduler scheduler → IsGood plan
            → IsDecided scheduler plan slot self.old → IsBefore scheduler plan (slot + 1) self.new) }
        ensures kept { OnOk result (keeping self.new.outputs.items ≡ keeping self.old.outputs.items) }
    {
        serve_inputs(
            &mut self.inputs,
            &self.matched,
            &self.parts,
            &mut self.names,
        );
        feed_outputs(
            &mut self.outputs,
            self.inputs.as_slice(),
            &self.names,
            &self.matched,
            self.nano,
        )
    }
}

// An output for each plan, to which nothing has come, with room for the records that come to it where captures are kept.
fn outputs_of(
    alloc: Global,
    captures: Captures,
    nano: bool,
    link: Link,
    plans: &[CardPlan],
) -> Result<Vec<Output>, OutOfMemory>
    ensures count { IfOk result (λ outputs. length outputs.items ≡ length plans.now) }
    ensures each { IfOk result (λ outputs. (j : ℕ) (output : OutputValue) → slice_get outputs.items j ≡ Some output
        → output ≡ new_output captures nano link) }
{
    let mut outputs = Vec::with_capacity(alloc, plans.len())?;
    for plan in plans {
        let output = Output::make(alloc, captures, nano, link, plan.body_room as usize)?;
        outputs.push_reserved(output);
    }
    Ok(outputs)
}
