ghost use Rattle.std.specs.Prelude.{◌≡◌, ◌≢◌, ℕ, ◌+◌, ◌^◌, ◌<◌, ◌≤◌, List, [], ◌∷◌, ◌++◌, Option, true, false, map, length, IfOk, Some, slice_get, slice_set};
ghost use Rattle.rotating_pick.specs.PortSets.{Has};
ghost use Rattle.rotating_pick.specs.declared.limits.TheConstants.{MAX_PORTS};
ghost use Rattle.eslip_rounds.specs.Schedulers.{Scheduler};
ghost use Rattle.slot_match.specs.declared.rows.Row.{Row};
ghost use Rattle.slot_match.specs.declared.matching.Served.{Served as APart};
ghost use Rattle.multicast_queue.specs.FanQueues.{first_name};
ghost use Rattle.slot_histories.specs.Parts.{IsPartOf};
ghost use Rattle.card_core.specs.declared.plan.CardPlan.{CardPlan as ACardPlan};
ghost use Rattle.card_core.specs.Plans.{IsGoodPlan, plan_of};
ghost use Rattle.card_core.specs.Queues.{waiting, queue_in};
ghost use Rattle.card_core.specs.Posts.{queue_served};
ghost use Rattle.switch_plan.specs.GoodPlans.{SwitchPlan};
ghost use Rattle.descriptor_runs.specs.InputSteps.{InputValue, HasServed, ChangesAt, next_slot, row_in};
ghost use Rattle.descriptor_runs.specs.PortSteps.{IsFirst, earlier_of};
ghost use Rattle.descriptor_runs.specs.SwitchSteps.{AreInputs, IsActivity};

use crate::inputs::Input;
use crate::requests::Requests;
use crate::switch::Activity;
use card_core::CardPlan;
use cell_cutter::CellName;
use eslip_rounds::Columns;
use rotating_pick::{Kind, OutOfMemory, Ports, with};
use slot_match::Served;
use std::alloc::Global;
use std::marker::Model;

/// The inputs of a switch by port, with what they ask for, and the slot in which a packet arrives next at one of them.
///
/// Contracts see what each input keeps.
#[derive(Drop)]
pub(crate) struct InputPorts {
    inputs: Vec<Input>,
    requests: Requests,
    // The slot of the next arrival, if a packet is to come.
    first: Option<u32>,
}

impl Model for InputPorts {
    ghost use Rattle.std.specs.Prelude.{List};
    ghost use Rattle.descriptor_runs.specs.InputSteps.{InputValue};
    ghost use Rattle.descriptor_runs.specs.PortSteps.{AreKept};

    ghost Value = { List InputValue };

    ghost view = { λ p. p.inputs.items };

    ghost invariant = { λ p. AreKept p.inputs.items p.requests p.first };
}

impl InputPorts {
    /// The inputs of 1 to 64 good plans before slot 0. It takes all memory that their queues need.
    pub(crate) fn make(alloc: Global, plans: Vec<CardPlan>) -> Result<InputPorts, OutOfMemory>
        requires some { 0 < length plans.items }
        requires size { length plans.items ≤ MAX_PORTS }
        requires good { (port : ℕ) (plan : ACardPlan) → slice_get plans.items port ≡ Some plan → IsGoodPlan (plan_of plan) }
        requires few { (port : ℕ) (plan : ACardPlan) → slice_get plans.items port ≡ Some plan → length plan.packets.items < 2 ^ 32 }
        ensures plans { IfOk result (λ ports. map (λ input. input.plan) ports ≡ map plan_of plans.items) }
        ensures served { IfOk result (λ ports. (i : ℕ) (input : InputValue) → slice_get ports i ≡ Some input → HasServed input [] false) }
    {
        let ports = plans.len() as u32;
        let inputs = inputs_of(alloc, plans)?;
        let first = first_arrival(&inputs);
        Ok(InputPorts {
            inputs,
            requests: Requests::new(ports),
            first,
        })
    }

    /// The inputs, by port.
    pub(crate) fn as_slice(&self) -> &[Input]
        ensures { result.now ≡ self.now }
    {
        &self.inputs
    }

    /// The rows of their queues, by columns.
    pub(crate) fn columns(&self) -> &Columns
        ensures { result.now ≡ map row_in self.now }
    {
        self.requests.columns()
    }

    /// The slot in which the next packet arrives, if one is to come.
    pub(crate) fn first_arrival(&self) -> Option<u32>
        ensures { IsFirst (length self.now) self.now result }
    {
        self.first
    }

    /// What goes on in a slot whose packets have arrived.
    pub(crate) fn activity(&self) -> Activity
        ensures { (scheduler : Scheduler) (plan : SwitchPlan) (t : ℕ) → AreInputs scheduler plan t true self.now → IsActivity scheduler plan t result }
    {
        if self.requests.has_any() {
            return Activity::Busy;
        }
        match self.first {
            Some(_) => Activity::Idle,
            None => Activity::Done,
        }
    }

    /// Lets in the packets of the slot. Answers the inputs to which one came.
    pub(crate) fn let_in(&mut self, slot: u32) -> Ports
        requires { (scheduler : Scheduler) × (plan : SwitchPlan) × (slot + 1 < 2 ^ 32) × AreInputs scheduler plan slot false self.old }
        ensures arrived { (scheduler : Scheduler) (plan : SwitchPlan) → AreInputs scheduler plan slot false self.old
            → AreInputs scheduler plan slot true self.new }
        ensures others { (i : ℕ) → (Has result i → ⊥) → slice_get self.new i ≡ slice_get self.old i }
    {
        if self.first == Some(slot) {
            let (came, next) = take_arrivals(&mut self.inputs, &mut self.requests, slot);
            self.first = next;
            came
        } else {
            0
        }
    }

    /// Takes what the input of this port is served off its queue. Answers the name of the cell that it is granted.
    pub(crate) fn leave(&mut self, port: u32, part: Served) -> CellName
        requires { (input : InputValue) × (served : List (Option APart)) × (slice_get self.old port ≡ Some input) × HasServed input served true
            × IsPartOf (row_in input) part }
        ensures plans { map (λ input. input.plan) self.new ≡ map (λ input. input.plan) self.old }
        ensures others { (i : ℕ) → i ≢ port → slice_get self.new i ≡ slice_get self.old i }
        ensures left { (input : InputValue) (served : List (Option APart)) → slice_get self.old port ≡ Some input → HasServed input served true
            → IsPartOf (row_in input) part → (after : InputValue) × (slice_get self.new port ≡ Some after)
            × HasServed after (served ++ Some part ∷ []) false }
        ensures name { (input : InputValue) (served : List (Option APart)) → slice_get self.old port ≡ Some input → HasServed input served true
            → IsPartOf (row_in input) part
            → Some result ≡ first_name (waiting (queue_in input.plan (queue_served part) served (length served))) }
    {
        let input = &mut self.inputs[port as usize];
        let name = input.leave(part);
        follow(
            &mut self.requests,
            port,
            input,
            Some((part.level, part.kind)),
        );
        name
    }
}

// An input of each plan.
fn inputs_of(alloc: Global, plans: Vec<CardPlan>) -> Result<Vec<Input>, OutOfMemory>
    requires good { (port : ℕ) (plan : ACardPlan) → slice_get plans.items port ≡ Some plan → IsGoodPlan (plan_of plan) }
    requires few { (port : ℕ) (plan : ACardPlan) → slice_get plans.items port ≡ Some plan → length plan.packets.items < 2 ^ 32 }
    ensures plans { IfOk result (λ inputs. map (λ input. input.plan) inputs.items ≡ map plan_of plans.items) }
    ensures served { IfOk result (λ inputs. (i : ℕ) (input : InputValue) → slice_get inputs.items i ≡ Some input → HasServed input [] false) }
{
    let mut inputs = Vec::with_capacity(alloc, plans.len())?;
    for plan in plans {
        let input = Input::make(alloc, plan)?;
        inputs.push_reserved(input);
    }
    Ok(inputs)
}

// The slot in which the next packet arrives at an input, if one is to come.
fn first_arrival(inputs: &[Input]) -> Option<u32>
    ensures { IsFirst (length inputs.now) inputs.now result }
{
    let mut first = None;
    for input in inputs {
        first = earlier(first, input.next_slot());
    }
    first
}

// Lets in the packets of the slot, and brings the rows of the queues that they enter up to date. Answers the inputs to which one
// came, and the slot in which the next packet arrives.
fn take_arrivals(inputs: &mut [Input], requests: &mut Requests, slot: u32) -> (Ports, Option<u32>)
    requires served { (scheduler : Scheduler) × (plan : SwitchPlan) × (slot + 1 < 2 ^ 32) × AreInputs scheduler plan slot false inputs.old }
    requires size { length inputs.old ≤ MAX_PORTS }
    requires rows { requests.old ≡ map row_in inputs.old }
    ensures arrived { (scheduler : Scheduler) (plan : SwitchPlan) → AreInputs scheduler plan slot false inputs.old
        → AreInputs scheduler plan slot true inputs.new }
    ensures rows { requests.new ≡ map row_in inputs.new }
    ensures others { (i : ℕ) → (Has result.0 i → ⊥) → slice_get inputs.new i ≡ slice_get inputs.old i }
    ensures first { IsFirst (length inputs.new) inputs.new result.1 }
{
    let mut came = 0;
    let mut next = None;
    for place in 0..inputs.len() {
        let input = &mut inputs[place];
        if let_in(input, requests, place as u32, slot) {
            came = with(came, place as u32);
        }
        next = earlier(next, input.next_slot());
    }
    (came, next)
}

// Lets in the packet of the slot, if one arrives in it at the input of this port, and brings what the queues ask up to date.
// Answers whether one came.
fn let_in(input: &mut Input, requests: &mut Requests, port: u32, slot: u32) -> bool
    requires served { (served : List (Option APart)) × HasServed input.old served false × (slot ≡ length served) × (slot + 1 < 2 ^ 32) }
    requires row { slice_get requests.old port ≡ Some (row_in input.old) }
    ensures plan { input.new.plan ≡ input.old.plan }
    ensures arrived { (served : List (Option APart)) → HasServed input.old served false → slot ≡ length served → HasServed input.new served true }
    ensures row { requests.new ≡ slice_set requests.old port (row_in input.new) }
    ensures same { result ≡ false → input.new ≡ input.old }
{
    let comes = input.next_slot() == Some(slot);
    if comes {
        let changed = input.arrive(slot);
        follow(requests, port, input, changed);
    }
    comes
}

// Brings what the input of this port asks up to date, whose row changed in no set but that of this queue, or not at all.
fn follow(requests: &mut Requests, port: u32, input: &Input, changed: Option<(u8, Kind)>)
    requires { (before : Row) × (slice_get requests.old port ≡ Some before) × ChangesAt before (row_in input.now) changed }
    ensures { requests.new ≡ slice_set requests.old port (row_in input.now) }
{
    if let Some((level, kind)) = changed {
        requests.change_set(port, level, kind, input.outputs(level, kind));
    }
}

// The earlier of two slots, of which there may be none.
fn earlier(a: Option<u32>, b: Option<u32>) -> Option<u32>
    ensures { result ≡ earlier_of a b }
{
    match (a, b) {
        (Some(a), Some(b)) => Some(a.min(b)),
        (None, b) => b,
        (a, None) => a,
    }
}
