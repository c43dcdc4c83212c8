ghost use Rattle.std.specs.Prelude.{◌≡◌, ℕ, ◌^◌, ◌<◌, ◌≤◌, List, length, map, All, Ok, IfOk};
ghost use Rattle.line_pace.specs.Arrivals.{IsPace, slots_taken};
ghost use Rattle.pcap_records.specs.Packets.{captured_in, packet_in};
ghost use Rattle.switch_plan.specs.Traffic.{fan_of, level_of, route_for, planned, unplaced};
ghost use Rattle.switch_plan.specs.ReadingSteps.{IsTrafficOf};
ghost use Rattle.switch_plan.specs.CountingSteps.{IsForwardable, AreCountable};
ghost use Rattle.switch_plan.specs.PortSteps.{CanBePlanned, IsPortPlanOf, ArePlannedAs, ArePortPlansOf, slots_at};

use crate::by_port::{SMALL_CAPTURE, map_ports};
use crate::port_rooms::{Brought, brought_by};
use crate::traffic::stamp_of;
use card_core::Planned;
use cell_cutter::MAX_FORWARDED_BYTES;
use forward_table::{Route, RouteCache, Table};
use frame_fields::destination;
use line_pace::Pace;
use pcap_records::{Capture, Link, Stored};
use rotating_pick::{OutOfMemory, Ports};
use std::alloc::{AllocError, Global};
use std::thread::Threads;

/// What a port is to send, before it is known what comes to its output.
#[derive(Drop)]
pub(crate) struct PortPlan {
    /// The whole file as it was read.
    pub(crate) bytes: Vec<u8>,
    /// Its packets, in order. Their arrivals are cut to 32 bits where its slots need more; such a port is refused.
    pub(crate) packets: Vec<Planned>,
    /// Its arrival slots.
    pub(crate) slots: u64,
    /// What its packets bring to the outputs.
    pub(crate) brought: Brought,
}

/// The ports of all captures, each planned by itself, in threads where there are some and a capture is not small. The
/// only error is out of memory.
pub(crate) fn port_plans<R: Threads + Sync>(
    rt: &R,
    alloc: Global,
    table: &Table,
    pace: Pace,
    captures: Vec<Capture>,
) -> Result<Vec<PortPlan>, OutOfMemory>
    requires pace { IsPace pace }
    requires captures { All (CanBePlanned pace) captures.items }
    ensures { IfOk result (λ ports. ArePortPlansOf table.now pace captures.items ports.items) }
{
    in_order(alloc, plan_each(rt, alloc, table, pace, captures)?)
}

// Plans each capture.
fn plan_each<R: Threads + Sync>(
    rt: &R,
    alloc: Global,
    table: &Table,
    pace: Pace,
    captures: Vec<Capture>,
) -> Result<Vec<Result<PortPlan, OutOfMemory>>, AllocError>
    requires pace { IsPace pace }
    requires captures { All (CanBePlanned pace) captures.items }
    ensures { IfOk result (λ answers. ArePlannedAs table.now pace captures.items answers.items) }
{
    let small = captures
        .iter()
        .all(|capture| capture.bytes.len() <= SMALL_CAPTURE);
    map_ports(
        rt,
        alloc,
        small,
        captures,
        &|capture| port_plan(alloc, table, pace, capture),
    )
}

// The ports that were planned, where each was.
fn in_order(
    alloc: Global,
    answers: Vec<Result<PortPlan, OutOfMemory>>,
) -> Result<Vec<PortPlan>, OutOfMemory>
    ensures { IfOk result (λ ports. map (λ port. Ok port) ports.items ≡ answers.items) }
{
    let mut ports = Vec::new(alloc);
    for answer in answers {
        ports.push(answer?)?;
    }
    Ok(ports)
}

// The port of a capture. The file's bytes are kept.
fn port_plan(
    alloc: Global,
    table: &Table,
    pace: Pace,
    capture: Capture,
) -> Result<PortPlan, OutOfMemory>
    requires pace { IsPace pace }
    requires capture { CanBePlanned pace capture }
    ensures { IfOk result (IsPortPlanOf table.now pace capture) }
{
    let (packets, slots) = packets_of(alloc, table, &pace, &capture)?;
    let brought = brought_by(&packets);
    Ok(PortPlan {
        bytes: capture.bytes,
        packets,
        slots,
        brought,
    })
}

// The packets of a capture and their arrival slots, found in one pass. The slots are counted to the end, also where
// they need more than 32 bits.
fn packets_of(
    alloc: Global,
    table: &Table,
    pace: &Pace,
    capture: &Capture,
) -> Result<(Vec<Planned>, u64), OutOfMemory>
    requires pace { IsPace pace.now }
    requires capture { CanBePlanned pace.now capture.now }
    ensures slots { IfOk result (λ answer. answer.1 ≡ slots_taken (slots_at pace.now capture.now)) }
    ensures packets { IfOk result (λ answer. answer.1 ≤ 2 ^ 32 → IsTrafficOf table.now capture.now (slots_at pace.now capture.now) answer.0.items) }
    ensures countable { IfOk result (λ answer. AreCountable answer.0.items) }
{
    let mut packets = Vec::with_capacity(alloc, capture.packets.len())?;
    let mut routes = RouteCache::new(table);
    let mut free = 0;
    for k in 0..capture.packets.len() {
        let stored = capture.packets[k];
        let arrival = pace.arrival(free, &stamp_of(&stored));
        let frame = capture.body(k as u32);
        packets.push_reserved(planned(&mut routes, capture.link, stored, frame, low_bits(arrival)));
        free = arrival + 1;
    }
    Ok((packets, free))
}

// The low 32 bits of a slot.
fn low_bits(slot: u64) -> u32
    ensures { slot < 2 ^ 32 → result ≡ slot }
{
    (slot % (1 << 32)) as u32
}

// A packet that arrives in a slot.
fn planned(
    routes: &mut RouteCache<'_>,
    link: Link,
    packet: Stored,
    frame: &[u8],
    slot: u32,
) -> Planned
    requires { length frame.now ≡ packet.len }
    ensures packet { (bytes : List ℕ) → captured_in bytes packet ≡ frame.now → unplaced result ≡ planned routes.old link (packet_in bytes packet) slot }
    ensures start { result.start ≡ packet.start }
    ensures forwarded { IsForwardable result }
    ensures table { routes.new ≡ routes.old }
{
    let route = route_for(routes, link, frame);
    Planned {
        seconds: packet.seconds,
        nanos: packet.nanos,
        original: packet.original,
        start: packet.start,
        len: packet.len,
        arrival: slot,
        fan: fan_of(route),
        level: level_of(route),
    }
}

// The route of a frame, none where it is too long to be forwarded or no line of the table serves it.
fn route_for(routes: &mut RouteCache<'_>, link: Link, frame: &[u8]) -> Option<Route>
    ensures route { result ≡ route_for routes.old link frame.now }
    ensures table { routes.new ≡ routes.old }
{
    if frame.len() > MAX_FORWARDED_BYTES {
        None
    } else {
        routes.route(destination(link, frame))
    }
}

// The outputs of a route.
fn fan_of(route: Option<Route>) -> Ports
    ensures { result ≡ fan_of route }
{
    match route {
        Some(route) => route.fan,
        None => 0,
    }
}

// The level of a route.
fn level_of(route: Option<Route>) -> u8
    ensures { result ≡ level_of route }
{
    match route {
        Some(route) => route.level,
        None => 0,
    }
}
