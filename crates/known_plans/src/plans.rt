//! Plans of a table's text, and what they and their refusals say.
use crate::captures::{of_one_packet, without_packets};
use forward_table::TableFault;
use rotating_pick::{MAX_FILE_BYTES, MAX_PORTS};
use std::alloc::{AllocError, Global};
use std::thread::Threads;
use switch_plan::{Plan, PlanFault, jobs};
use switch_words::{Settings, Speed};
use test_vectors::{NoAnswer, TableText};

// The settings of a job whose words have no options.
const SETTINGS: Settings = Settings {
    rounds: 4,
    depth: 131_072,
    workers: 4,
    speed: Speed::Untimed,
    long: false,
};

/// What the plan says of the table, with captures that have no packets: `ok`, or the fault with its numbers.
pub fn table_answer<R: Threads + Sync>(
    rt: &R,
    alloc: Global,
    table: &TableText,
) -> Result<String, NoAnswer> {
    match plan_of(rt, alloc, table, without_packets(alloc)?)? {
        Ok(plan) if plan.cards.len() == table.ports as usize => {
            Ok(String::from_str(alloc, "ok")?)
        }
        Ok(_) => Err(NoAnswer),
        Err(PlanFault::Table(fault)) => fault_text(alloc, fault),
        Err(_) => Err(NoAnswer),
    }
}

/// Where the plan sends a packet to the address, or one to no address: `FAN LEVEL`, or `none`.
pub fn route_answer<R: Threads + Sync>(
    rt: &R,
    alloc: Global,
    table: &TableText,
    address: Option<u32>,
) -> Result<String, NoAnswer> {
    let Ok(plan) = plan_of(rt, alloc, table, of_one_packet(alloc, address)?)? else {
        return Err(NoAnswer);
    };
    let Some(card) = plan.cards.first() else {
        return Err(NoAnswer);
    };
    match card.packets.as_slice() {
        [packet] if packet.fan == 0 => Ok(String::from_str(alloc, "none")?),
        [packet] => {
            let fan = packet.fan;
            let level = packet.level;
            Ok(format!(in alloc; "{fan:#x} {level}")?)
        }
        _ => Err(NoAnswer),
    }
}

// The plan of the table with this capture for port 0 and captures without packets for the others.
fn plan_of<R: Threads + Sync>(
    rt: &R,
    alloc: Global,
    table: &TableText,
    capture: Vec<u8>,
) -> Result<Result<Plan, PlanFault>, NoAnswer> {
    let text = table.text.as_slice().to_vec(alloc)?;
    let captures = captures_of(alloc, table.ports, capture)?;
    if captures.is_empty() || captures.len() > MAX_PORTS as usize || text.len() > MAX_FILE_BYTES {
        return Err(NoAnswer);
    }
    if !captures.iter().all(|file| file.len() < 4_294_967_296) {
        return Err(NoAnswer);
    }
    Ok(jobs::plan(rt, alloc, &SETTINGS, text, captures))
}

// The capture of port 0, and captures without packets of the other ports.
fn captures_of(alloc: Global, ports: u32, first: Vec<u8>) -> Result<Vec<Vec<u8>>, AllocError> {
    let mut captures = Vec::new(alloc);
    captures.push(first)?;
    for _ in 1..ports {
        captures.push(without_packets(alloc)?)?;
    }
    Ok(captures)
}

// A fault of a table, as the rows state it.
fn fault_text(alloc: Global, fault: TableFault) -> Result<String, NoAnswer> {
    let text = match fault {
        TableFault::BadLine { line } => format!(in alloc; "bad_line {line}"),
        TableFault::HostBits { line } => format!(in alloc; "host_bits {line}"),
        TableFault::BadPort { line, port } => format!(in alloc; "bad_port {line} {port}"),
        TableFault::BadLevel { line } => format!(in alloc; "bad_level {line}"),
        TableFault::Repeated { line, first } => format!(in alloc; "repeated {line} {first}"),
        TableFault::TooManyLines { count } => format!(in alloc; "too_many_lines {count}"),
        TableFault::OutOfMemory => return Err(NoAnswer),
    };
    Ok(text?)
}
