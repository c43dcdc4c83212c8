ghost use Rattle.std.specs.Prelude.{◌≡◌, ◌^◌, ◌<◌, ◌≤◌, length, map, flat_map, sum_by, IfOk};
ghost use Rattle.switch_plan.specs.Totals.{total_work};
ghost use Rattle.switch_plan.specs.OutputSteps.{room_at};
ghost use Rattle.switch_plan.specs.PortSteps.{AreBroughtBy};
ghost use Rattle.switch_plan.specs.JobSteps.{packets_of_ports, IsCardWith, AreCardsOf};

use crate::port_plans::PortPlan;
use crate::port_rooms::Brought;
use crate::totals::{bytes_to, messages_to};
use card_core::CardPlan;
use reassembly::FLOWS_PER_INPUT;
use rotating_pick::{MAX_PORTS, OutOfMemory};
use std::alloc::{AllocError, Global};

/// What each of these ports brings. The only error is out of memory.
pub(crate) fn brought_by_ports(
    alloc: Global,
    ports: &[PortPlan],
) -> Result<Vec<Brought>, OutOfMemory>
    ensures { IfOk result (λ brought. brought.items ≡ map (λ port. port.brought) ports.now) }
{
    let mut brought = Vec::with_capacity(alloc, ports.len())?;
    for port in ports {
        brought.push(port.brought)?;
    }
    Ok(brought)
}

/// The cards of all ports, which bring so much, with the rooms for what the packets of all of them bring to their
/// outputs. The only error is out of memory.
pub(crate) fn cards_of(
    alloc: Global,
    depth: u32,
    ports: Vec<PortPlan>,
    brought: &[Brought],
) -> Result<Vec<CardPlan>, OutOfMemory>
    requires few { length ports.items ≤ MAX_PORTS }
    requires brought { AreBroughtBy (packets_of_ports ports.items) brought.now }
    requires work { total_work (packets_of_ports ports.items) < 2 ^ 32 }
    ensures { IfOk result (λ cards. AreCardsOf ports.items depth cards.items) }
{
    let mut cards = Vec::with_capacity(alloc, ports.len())?;
    for port in ports {
        let number = cards.len();
        cards.push(card_of(alloc, number, depth, port, brought)?)?;
    }
    Ok(cards)
}

// The card of a port, with the rooms for what all ports bring to its output.
fn card_of(
    alloc: Global,
    number: usize,
    depth: u32,
    port: PortPlan,
    brought: &[Brought],
) -> Result<CardPlan, OutOfMemory>
    requires number { number < MAX_PORTS }
    requires few { length brought.now ≤ MAX_PORTS }
    requires bytes { sum_by (λ port. (room_at port.rooms number).bytes) brought.now < 2 ^ 64 }
    requires messages { sum_by (λ port. (room_at port.rooms number).messages) brought.now < 2 ^ 32 }
    ensures { IfOk result (IsCardWith brought.now depth number port) }
{
    Ok(CardPlan {
        n: brought.len() as u32,
        card: number as u32,
        depth,
        packets: port.packets,
        bytes: port.bytes,
        sizes: sizes_to(alloc, number, brought)?,
        body_room: bytes_to(number, brought),
        packet_room: messages_to(number, brought) as u32,
    })
}

// The greatest messages of all flows of all ports to an output.
fn sizes_to(alloc: Global, output: usize, brought: &[Brought]) -> Result<Vec<u32>, AllocError>
    requires output { output < MAX_PORTS }
    requires few { length brought.now ≤ MAX_PORTS }
    ensures { IfOk result (λ sizes. sizes.items ≡ flat_map (λ port. (room_at port.rooms output).sizes) brought.now) }
{
    let mut sizes = Vec::with_capacity(alloc, brought.len() * FLOWS_PER_INPUT)?;
    for port in brought {
        sizes.extend_from_slice(&port.rooms[output].sizes)?;
    }
    Ok(sizes)
}
