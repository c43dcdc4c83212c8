//! Rows of the wait meter, in blocks: `case NAME`, `n N`, then for one slot after the other
//! `note ROWS MATCH -> LONGEST`, with the longest wait of each level after the slot.
use crate::slot_fields::{posted_rows, stated_match};
use rotating_pick::MAX_PORTS;
use service_bound::{MAX_NOTED, WaitMeter};
use std::alloc::{AllocError, Global};
use test_vectors::{NoAnswer, Row, number};

/// The block that is being read.
#[derive(Drop)]
pub struct Block {
    n: u32,
    // The meter, once the first slot came.
    meter: Option<WaitMeter>,
}

impl Block {
    /// Before the first block.
    pub fn new() -> Block {
        Block { n: 0, meter: None }
    }

    /// The row that a line is; None where it sets up the meter.
    pub fn row(&mut self, alloc: Global, line: &str) -> Result<Option<Row>, AllocError> {
        match line.split_once(' ') {
            Some(("case", _)) => {
                self.n = 0;
                self.meter = None;
                Ok(None)
            }
            Some(("n", value)) => self.set_ports(alloc, value),
            Some(("note", value)) => Ok(Some(self.note_row(alloc, value)?)),
            _ => Ok(Some(Row::unread(alloc, line)?)),
        }
    }

    fn set_ports(&mut self, alloc: Global, value: &str) -> Result<Option<Row>, AllocError> {
        match number(value) {
            Ok(n) => {
                self.n = n;
                Ok(None)
            }
            Err(NoAnswer) => Ok(Some(Row::unread(alloc, value)?)),
        }
    }

    fn note_row(&mut self, alloc: Global, value: &str) -> Result<Row, AllocError> {
        match value.split_once(" -> ") {
            Some((slot, stated)) => Row::new(alloc, stated, self.answer(alloc, slot)),
            None => Row::unread(alloc, value),
        }
    }

    fn answer(&mut self, alloc: Global, slot: &str) -> Result<String, NoAnswer> {
        let mut meter = match self.meter.take() {
            Some(meter) => meter,
            None => first_meter(alloc, self.n)?,
        };
        note(alloc, &mut meter, slot)?;
        let answer = longest_text(alloc, &meter)?;
        self.meter = Some(meter);
        Ok(answer)
    }
}

fn first_meter(alloc: Global, n: u32) -> Result<WaitMeter, NoAnswer> {
    if n == 0 || n > MAX_PORTS {
        return Err(NoAnswer);
    }
    match WaitMeter::make(alloc, n) {
        Ok(meter) => Ok(meter),
        Err(_) => Err(NoAnswer),
    }
}

// Notes the slot: its rows and its match.
fn note(alloc: Global, meter: &mut WaitMeter, slot: &str) -> Result<(), NoAnswer> {
    let Some((rows, matched)) = slot.split_once(' ') else {
        return Err(NoAnswer);
    };
    let n = meter.ports();
    if n == 0 || meter.count() >= MAX_NOTED {
        return Err(NoAnswer);
    }
    let rows = posted_rows(alloc, n, rows)?;
    let matched = stated_match(alloc, n, matched)?;
    if matched.ports() != n {
        return Err(NoAnswer);
    }
    meter.note(rows.as_slice(), &matched);
    Ok(())
}

// The longest wait of each level, parted by spaces.
fn longest_text(alloc: Global, meter: &WaitMeter) -> Result<String, AllocError> {
    let first = meter.longest(0);
    let second = meter.longest(1);
    let third = meter.longest(2);
    let fourth = meter.longest(3);
    format!(in alloc; "{first} {second} {third} {fourth}")
}
