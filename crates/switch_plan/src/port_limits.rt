ghost use Rattle.std.specs.Prelude.{◌≡◌, ◌^◌, ◌<◌, ◌≤◌, length, map, take, sum_by, None, Some, OnOk, IfErr};
ghost use Rattle.switch_plan.specs.PortSteps.{AreBroughtBy};
ghost use Rattle.switch_plan.specs.JobSteps.{packets_of_ports, over_ports};

use crate::fault::PlanFault;
use crate::limits::Limits;
use crate::port_plans::PortPlan;
use crate::port_rooms::Brought;
use crate::totals::total_work;
use rotating_pick::MAX_PORTS;

/// Judges whether the ports, which bring so much, are within the limits. The fault is the first limit that they
/// pass: that on the slots of the least port, that on packets, or that on cells.
pub(crate) fn are_within(
    limits: &Limits,
    ports: &[PortPlan],
    brought: &[Brought],
) -> Result<(), PlanFault>
    requires few { length ports.now ≤ MAX_PORTS }
    requires brought { AreBroughtBy (packets_of_ports ports.now) brought.now }
    ensures within { OnOk result (over_ports limits.now ports.now ≡ None) }
    ensures over { IfErr result (λ fault. over_ports limits.now ports.now ≡ Some fault) }
{
    let slots = slots_by_port(ports);
    let packets = total_packets(ports);
    let cells = total_work(brought);
    match limits.passed(&slots[..ports.len()], packets, cells) {
        Some(fault) => Err(fault),
        None => Ok(()),
    }
}

// The arrival slots of each port.
fn slots_by_port(ports: &[PortPlan]) -> [u64; MAX_PORTS as usize]
    requires { length ports.now ≤ MAX_PORTS }
    ensures { take (length ports.now) result ≡ map (λ port. port.slots) ports.now }
{
    let mut slots = [0; MAX_PORTS as usize];
    for port in 0..ports.len() {
        slots[port] = ports[port].slots;
    }
    slots
}

// How many packets all ports have.
fn total_packets(ports: &[PortPlan]) -> u64
    requires { sum_by (λ port. length port.packets.items) ports.now < 2 ^ 64 }
    ensures { result ≡ sum_by (λ port. length port.packets.items) ports.now }
{
    let mut packets = 0;
    for port in ports {
        packets += port.packets.len() as u64;
    }
    packets
}
