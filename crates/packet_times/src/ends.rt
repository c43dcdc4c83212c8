ghost use Rattle.std.specs.Prelude.{◌≡◌, ◌<◌, ◌≤◌, ◌*◌, ◌++◌, ◌∷◌, [], List, length, map, replicate, slice_get, IfOk, IfSome, IfNone, OnOk};
ghost use Rattle.rotating_pick.specs.declared.limits.TheConstants.{LEVELS, MAX_PORTS};
ghost use Rattle.reassembly.specs.declared.limits.TheConstants.{FLOWS_PER_INPUT};
ghost use Rattle.crossbar.specs.Crossing.{fetched};
ghost use Rattle.packet_times.specs.NotingSteps.{flow_place};
ghost use Rattle.packet_times.specs.Steps.{EndsAt, EndsNone, AddsEnd, HasEnds};

use cell_cutter::Cell;
use crossbar::Post;
use reassembly::FLOWS_PER_INPUT;
use rotating_pick::{Kind, LEVELS};
use slot_match::Fed;
use std::alloc::{AllocError, Global};
use std::marker::Model;

/// The slots in which last cells of a flow crossed, in order.
#[derive(Drop)]
pub(crate) struct FlowEnds {
    slots: Vec<u32>,
}

impl Model for FlowEnds {
    ghost use Rattle.std.specs.Prelude.{List, ℕ};

    ghost Value = { List ℕ };

    ghost view = { λ e. e.slots.items };
}

impl FlowEnds {
    // No slots.
    fn new(alloc: Global) -> FlowEnds
        ensures { result ≡ [] }
    {
        FlowEnds {
            slots: Vec::new(alloc),
        }
    }

    // Adds a slot.
    fn push(&mut self, slot: u32) -> Result<(), AllocError>
        ensures { OnOk result (self.new ≡ self.old ++ slot ∷ []) }
    {
        self.slots.push(slot)?;
        Ok(())
    }

    /// The slot of this number, from 0 on.
    pub(crate) fn get(&self, number: u32) -> Option<u32>
        ensures { result ≡ slice_get self.now number }
    {
        self.slots.get(number as usize).copied()
    }
}

/// No ends of the flows of a switch of so many ports.
pub(crate) fn no_ends(alloc: Global, ports: u32) -> Result<Vec<FlowEnds>, AllocError>
    requires { ports ≤ MAX_PORTS }
    ensures { IfOk result (λ ends. ends.items ≡ replicate (FLOWS_PER_INPUT * (ports * ports)) []) }
{
    let ports = ports as usize;
    let count = FLOWS_PER_INPUT * (ports * ports);
    let mut ends = Vec::with_capacity(alloc, count)?;
    for _place in 0..count {
        ends.push(FlowEnds::new(alloc))?;
    }
    Ok(ends)
}

/// The place of a flow among those of a switch of so many ports.
pub(crate) fn place_of_flow(ports: u32, input: u32, output: u32, level: u8, kind: Kind) -> usize
    requires size { ports ≤ MAX_PORTS }
    requires input { input < ports }
    requires output { output < ports }
    requires level { level < LEVELS }
    ensures value { result ≡ flow_place ports (record { input = input; output = output; level = level; kind = kind }) }
    ensures inside { result < FLOWS_PER_INPUT * (ports * ports) }
{
    let pair = ports as usize * output as usize + input as usize;
    let kind = match kind {
        Kind::Uni => 0,
        Kind::Multi => 1,
    };
    FLOWS_PER_INPUT * pair + 2 * level as usize + kind
}

// The place of the flow of which what crosses to the output ends a message, None where it ends none.
fn end_place(ports: u32, output: u32, cell: Option<Cell>) -> Option<usize>
    requires { ports ≤ MAX_PORTS }
    ensures some { IfSome result (EndsAt ports output cell) }
    ensures none { IfNone result (EndsNone ports output cell) }
{
    let cell = cell?;
    let input = u32::from(cell.input);
    if cell.last && input < ports && output < ports && u32::from(cell.level) < LEVELS {
        Some(place_of_flow(ports, input, output, cell.level, cell.kind))
    } else {
        None
    }
}

// Notes what crosses to the output in the slot.
fn note_output(
    ends: &mut Vec<FlowEnds>,
    ports: u32,
    slot: u32,
    output: u32,
    cell: Option<Cell>,
) -> Result<(), AllocError>
    requires size { ports ≤ MAX_PORTS }
    requires count { length ends.old.items ≡ FLOWS_PER_INPUT * (ports * ports) }
    ensures { OnOk result (AddsEnd ports slot output cell ends.old.items ends.new.items) }
{
    let Some(place) = end_place(ports, output, cell) else {
        return Ok(());
    };
    ends[place].push(slot)
}

// What crosses to the output, of these posts, where this feeds the outputs.
fn crossing(posts: &[Post], feeds: &[Option<Fed>], output: u32) -> Option<Cell>
    ensures { result ≡ fetched feeds.now (map (λ post. post.cell) posts.now) output }
{
    let fed = (*feeds.get(output as usize)?)?;
    posts.get(fed.input as usize)?.cell
}

/// Notes what crosses in the slot, of these posts, where this feeds the outputs.
pub(crate) fn note_ends(
    ends: &mut Vec<FlowEnds>,
    ports: u32,
    slot: u32,
    posts: &[Post],
    feeds: &[Option<Fed>],
) -> Result<(), AllocError>
    requires size { ports ≤ MAX_PORTS }
    requires count { length ends.old.items ≡ FLOWS_PER_INPUT * (ports * ports) }
    ensures { OnOk result (HasEnds ports slot (fetched feeds.now (map (λ post. post.cell) posts.now)) ends.old.items ends.new.items) }
{
    for output in 0..ports {
        let cell = crossing(posts, feeds, output);
        note_output(ends, ports, slot, output, cell)?;
    }
    Ok(())
}
