ghost use Rattle.std.specs.Prelude.{◌≡◌, ◌^◌, ◌<◌, sum_by};
ghost use Rattle.switch_plan.specs.Totals.{slots_of, greatest_slots};
ghost use Rattle.switch_plan.specs.CountingSteps.{packets_of_cards};
ghost use Rattle.switch_plan.specs.OutputSteps.{room_at};
ghost use Rattle.switch_plan.specs.PortSteps.{AreSummable};

use crate::port_rooms::Brought;
use card_core::{CardPlan, Planned};
use rotating_pick::MAX_PORTS;

/// The cells that all ports bring to their outputs.
pub(crate) fn total_work(brought: &[Brought]) -> u64
    requires { AreSummable brought.now }
    ensures { result ≡ sum_by (λ port. port.work) brought.now }
{
    brought.iter().map(|port| port.work).sum()
}

/// How many packets of all ports go nowhere.
pub(crate) fn total_aside(brought: &[Brought]) -> u64
    requires { AreSummable brought.now }
    ensures { result ≡ sum_by (λ port. port.aside) brought.now }
{
    brought.iter().map(|port| port.aside).sum()
}

/// How many packets of all ports are too long to be forwarded.
pub(crate) fn total_oversize(brought: &[Brought]) -> u64
    requires { AreSummable brought.now }
    ensures { result ≡ sum_by (λ port. port.oversize) brought.now }
{
    brought.iter().map(|port| port.oversize).sum()
}

/// The bytes of all messages to an output.
pub(crate) fn bytes_to(output: usize, brought: &[Brought]) -> u64
    requires output { output < MAX_PORTS }
    requires fit { sum_by (λ port. (room_at port.rooms output).bytes) brought.now < 2 ^ 64 }
    ensures { result ≡ sum_by (λ port. (room_at port.rooms output).bytes) brought.now }
{
    let mut bytes = 0;
    for port in brought {
        bytes += port.rooms[output].bytes;
    }
    bytes
}

/// The number of all messages to an output.
pub(crate) fn messages_to(output: usize, brought: &[Brought]) -> u64
    requires output { output < MAX_PORTS }
    requires fit { sum_by (λ port. (room_at port.rooms output).messages) brought.now < 2 ^ 64 }
    ensures { result ≡ sum_by (λ port. (room_at port.rooms output).messages) brought.now }
{
    let mut messages = 0;
    for port in brought {
        messages += port.rooms[output].messages;
    }
    messages
}

// The arrival slots of a port: the last packet's and one.
fn slots_of(packets: &[Planned]) -> u64
    ensures { result ≡ slots_of packets.now }
{
    if packets.is_empty() {
        return 0;
    }
    u64::from(packets[packets.len() - 1].arrival) + 1
}

/// The greatest number of arrival slots of a card.
pub(crate) fn greatest_slots(cards: &[CardPlan]) -> u64
    ensures { result ≡ greatest_slots (packets_of_cards cards.now) }
{
    let mut most: u64 = 0;
    for card in cards {
        most = most.max(slots_of(&card.packets));
    }
    most
}
