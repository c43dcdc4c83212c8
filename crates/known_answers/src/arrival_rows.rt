//! Rows of arrival slots: `NAME PACE PACKETS -> SLOTS`, or `-> too_long SLOTS`; without a limit
//! `-> SLOTS slots COUNT`. A pace is `line`, `SLOT:BASE` or `rate=MBPS:BASE`, a packet `TIME:CELLS`.
ghost use Rattle.std.specs.Prelude.{◌≡◌, ◌≤◌, ◌<◌, length, All, IfOk, IsTrue};
ghost use Rattle.line_pace.specs.Arrivals.{IsPace, IsRateTime, CanCome, base_of};

use crate::fields::long_number;
use crate::texts::{add_item, numbers_text};
use cell_cutter::MAX_CAPTURED_CELLS;
use line_pace::{
    MAX_CAPTURE_PACKETS, MAX_LINE_RATE, MAX_SLOT_MICROS, Pace, PaceFault, Stamp, arrivals,
};
use std::alloc::{AllocError, Global};
use test_vectors::{NoAnswer, Row, number, words};

// The first time that no slot of a line rate is told of, in nanoseconds: 2^62.
const AFTER_RATE_TIMES: u64 = 4_611_686_018_427_387_904;

/// The row that a line is.
pub fn row(alloc: Global, line: &str) -> Result<Row, AllocError> {
    match line.split_once(" -> ") {
        Some((question, stated)) => Row::new(alloc, stated, answer(alloc, question)),
        None => Row::unread(alloc, line),
    }
}

fn answer(alloc: Global, question: &str) -> Result<String, NoAnswer> {
    let words = words(alloc, question)?;
    let [_, pace_text, packets_text] = words.as_slice() else {
        return Err(NoAnswer);
    };
    slots_text(alloc, pace_text, packets_text)
}

fn slots_text(alloc: Global, pace_text: &str, packets_text: &str) -> Result<String, NoAnswer> {
    let pace = pace(pace_text)?;
    let packets = packets(alloc, packets_text, &pace)?;
    match arrivals(alloc, packets.as_slice(), pace) {
        Ok(slots) => Ok(numbers_text(alloc, slots.as_slice())?),
        Err(PaceFault::TooLong { slots }) => Ok(format!(in alloc; "too_long {slots}")?),
        Err(PaceFault::OutOfMemory) => Err(NoAnswer),
    }
}

/// The row that a line is, where a port may have any number of slots.
pub fn row_without_limit(alloc: Global, line: &str) -> Result<Row, AllocError> {
    match line.split_once(" -> ") {
        Some((question, stated)) => Row::new(alloc, stated, answer_without_limit(alloc, question)),
        None => Row::unread(alloc, line),
    }
}

fn answer_without_limit(alloc: Global, question: &str) -> Result<String, NoAnswer> {
    let words = words(alloc, question)?;
    let [_, pace_text, packets_text] = words.as_slice() else {
        return Err(NoAnswer);
    };
    let pace = pace(pace_text)?;
    let packets = packets(alloc, packets_text, &pace)?;
    slots_one_by_one(alloc, packets.as_slice(), &pace)
}

// The arrival slots and their number, asked for packet by packet.
fn slots_one_by_one(alloc: Global, packets: &[Stamp], pace: &Pace) -> Result<String, NoAnswer>
    requires pace { IsPace pace.now }
    requires packets { All (CanCome pace.now) packets.now }
    requires few { length packets.now ≤ MAX_CAPTURE_PACKETS }
{
    let mut slots = String::new(alloc);
    let mut free = 0;
    for packet in packets {
        let arrival = pace.arrival(free, packet);
        add_item(&mut slots, format!(in alloc; "{arrival}")?.as_str())?;
        free = arrival + 1;
    }
    if slots.is_empty() {
        slots.push('-')?;
    }
    Ok(format!(in alloc; "{slots} slots {free}")?)
}

fn pace(text: &str) -> Result<Pace, NoAnswer>
    ensures { IfOk result IsPace }
{
    if text == "line" {
        return Ok(Pace::Line);
    }
    let Some((speed, base)) = text.split_once(':') else {
        return Err(NoAnswer);
    };
    let base = long_number(base)?;
    match speed.split_once('=') {
        Some((_, mbps)) => rate(number(mbps)?, base),
        None => micros(number(speed)?, base),
    }
}

fn micros(slot: u32, base: u64) -> Result<Pace, NoAnswer>
    ensures { IfOk result IsPace }
{
    if slot == 0 || slot > MAX_SLOT_MICROS {
        return Err(NoAnswer);
    }
    Ok(Pace::Micros { slot, base })
}

fn rate(mbps: u32, base: u64) -> Result<Pace, NoAnswer>
    ensures { IfOk result IsPace }
{
    if mbps == 0 || mbps > MAX_LINE_RATE {
        return Err(NoAnswer);
    }
    Ok(Pace::Rate { mbps, base })
}

// The packets, none of which the pace refuses.
fn packets(alloc: Global, text: &str, pace: &Pace) -> Result<Vec<Stamp>, NoAnswer>
    ensures few { IfOk result (λ packets. length packets.items ≤ MAX_CAPTURE_PACKETS) }
    ensures can_come { IfOk result (λ packets. All (CanCome pace.now) packets.items) }
{
    let packets = stamps(alloc, text)?;
    if packets.len() > MAX_CAPTURE_PACKETS || !all_can_come(packets.as_slice(), pace) {
        return Err(NoAnswer);
    }
    Ok(packets)
}

fn stamps(alloc: Global, text: &str) -> Result<Vec<Stamp>, NoAnswer> {
    let mut packets = Vec::new(alloc);
    if text == "-" {
        return Ok(packets);
    }
    for packet in text.split(',') {
        packets.push(stamp(packet)?)?;
    }
    Ok(packets)
}

fn stamp(text: &str) -> Result<Stamp, NoAnswer> {
    let Some((time, cells)) = text.split_once(':') else {
        return Err(NoAnswer);
    };
    Ok(Stamp {
        time: long_number(time)?,
        cells: number(cells)?,
    })
}

fn all_can_come(packets: &[Stamp], pace: &Pace) -> bool
    ensures { IsTrue result → All (CanCome pace.now) packets.now }
{
    packets.iter().all(|packet| can_come(packet, pace))
}

fn can_come(packet: &Stamp, pace: &Pace) -> bool
    ensures { IsTrue result → CanCome pace.now packet.now }
{
    0 < packet.cells
        && packet.cells <= MAX_CAPTURED_CELLS
        && base(pace) <= packet.time
        && is_rate_time(pace, packet.time)
}

// Whether the pace, where it is a line rate, has a slot for the time.
fn is_rate_time(pace: &Pace, time: u64) -> bool
    ensures { IsTrue result → IsRateTime pace.now time }
{
    match pace {
        Pace::Line | Pace::Micros { .. } => true,
        Pace::Rate { .. } => time < AFTER_RATE_TIMES,
    }
}

// The time that slot 0 begins at, in nanoseconds.
fn base(pace: &Pace) -> u64
    ensures { result ≡ base_of pace.now }
{
    match pace {
        Pace::Line => 0,
        Pace::Micros { slot: _, base } => *base,
        Pace::Rate { mbps: _, base } => *base,
    }
}
