//! Rows of the queues of a simulated switch, in blocks: `case NAME` and `make QUEUEING PORTS DEPTH` set the queues up;
//! then `enter SLOT INPUT OUTPUT -> LENGTH` or `-> dropped`, `leave INPUT OUTPUT -> SLOT INPUT OUTPUT` or `-> none`,
//! `held -> CELLS SLOTS` and `rows -> SET ..` state what a call answers.
ghost use Rattle.std.specs.Prelude.{◌≡◌, ◌<◌, ◌*◌, ◌≤◌, IfOk};

use crate::items::add_item;
use arrival_queues::{ArrivalQueues, ArrivedCell, MAX_CELLS, Queueing};
use rotating_pick::{Kind, MAX_PORTS};
use std::alloc::{AllocError, Global};
use test_vectors::{NoAnswer, Row, number, port_count, set_up_row, words};

/// The block that is being read.
#[derive(Drop)]
pub struct Block {
    // The queues, once they are made.
    queues: Option<ArrivalQueues>,
}

// Two ports of a switch.
#[derive(Clone, Copy)]
struct Pair {
    input: u32,
    output: u32,
}

impl Block {
    /// Before the first block.
    pub fn new() -> Block {
        Block { queues: None }
    }

    /// The row that a line is; None where it sets up the queues.
    pub fn row(&mut self, alloc: Global, line: &str) -> Result<Option<Row>, AllocError> {
        if let Some((call, stated)) = line.split_once(" -> ") {
            let answer = self.answer(alloc, call);
            return Ok(Some(Row::new(alloc, stated, answer)?));
        }
        let set_up = self.set_up(alloc, line);
        set_up_row(alloc, line, set_up)
    }

    fn set_up(&mut self, alloc: Global, line: &str) -> Result<(), NoAnswer> {
        let words = words(alloc, line)?;
        match words.as_slice() {
            ["case", _] => {
                self.queues = None;
                Ok(())
            }
            ["make", queueing, ports, depth] => {
                let ports = port_count(ports)?;
                self.queues = Some(queues(
                    alloc,
                    queueing_named(queueing)?,
                    ports,
                    number(depth)?,
                )?);
                Ok(())
            }
            _ => Err(NoAnswer),
        }
    }

    fn answer(&mut self, alloc: Global, call: &str) -> Result<String, NoAnswer> {
        let words = words(alloc, call)?;
        let Some(queues) = &mut self.queues else {
            return Err(NoAnswer);
        };
        match words.as_slice() {
            ["enter", slot, input, output] => {
                let pair = pair_of(queues.ports(), input, output)?;
                entry_text(alloc, queues, number(slot)?, pair)
            }
            ["leave", input, output] => {
                let pair = pair_of(queues.ports(), input, output)?;
                exit_text(alloc, queues, pair)
            }
            ["held"] => held_text(alloc, queues),
            ["rows"] => rows_text(alloc, queues),
            _ => Err(NoAnswer),
        }
    }
}

fn queueing_named(word: &str) -> Result<Queueing, NoAnswer> {
    match word {
        "by-pair" => Ok(Queueing::ByPair),
        "by-input" => Ok(Queueing::ByInput),
        "by-output" => Ok(Queueing::ByOutput),
        _ => Err(NoAnswer),
    }
}

// Empty queues, where they have no more places than there may be.
fn queues(
    alloc: Global,
    queueing: Queueing,
    ports: u32,
    depth: u32,
) -> Result<ArrivalQueues, NoAnswer>
    requires some { 0 < ports }
    requires size { ports ≤ MAX_PORTS }
{
    let places = u64::from(queueing.queue_count(ports)) * u64::from(depth);
    if places > u64::from(MAX_CELLS) {
        return Err(NoAnswer);
    }
    Ok(ArrivalQueues::make(alloc, queueing, ports, depth)?)
}

// Two of the switch's ports.
fn pair_of(ports: u32, input: &str, output: &str) -> Result<Pair, NoAnswer>
    ensures input { IfOk result (λ pair. pair.input < ports) }
    ensures output { IfOk result (λ pair. pair.output < ports) }
{
    let input = number(input)?;
    let output = number(output)?;
    if input >= ports || output >= ports {
        return Err(NoAnswer);
    }
    Ok(Pair { input, output })
}

fn entry_text(
    alloc: Global,
    queues: &mut ArrivalQueues,
    slot: u32,
    pair: Pair,
) -> Result<String, NoAnswer>
    requires input { pair.input < queues.old.ports }
    requires output { pair.output < queues.old.ports }
{
    match queues.enter(slot, pair.input, pair.output) {
        Some(length) => Ok(format!(in alloc; "{length}")?),
        None => Ok(String::from_str(alloc, "dropped")?),
    }
}

fn exit_text(alloc: Global, queues: &mut ArrivalQueues, pair: Pair) -> Result<String, NoAnswer>
    requires input { pair.input < queues.old.ports }
    requires output { pair.output < queues.old.ports }
{
    let Some(cell) = queues.leave(pair.input, pair.output) else {
        return Ok(String::from_str(alloc, "none")?);
    };
    let ArrivedCell {
        arrival,
        input,
        output,
    } = cell;
    Ok(format!(in alloc; "{arrival} {input} {output}")?)
}

fn held_text(alloc: Global, queues: &ArrivalQueues) -> Result<String, NoAnswer> {
    let held = queues.held();
    let arrivals = queues.sum_of_arrivals();
    Ok(format!(in alloc; "{held} {arrivals}")?)
}

// The outputs for which each input asks, which all do at level 0.
fn rows_text(alloc: Global, queues: &ArrivalQueues) -> Result<String, NoAnswer> {
    let mut text = String::new(alloc);
    for row in queues.rows().rows() {
        let outputs = row.outputs(0, Kind::Uni);
        if row.named() != outputs {
            return Err(NoAnswer);
        }
        let item = format!(in alloc; "0x{outputs:x}")?;
        add_item(&mut text, item.as_str())?;
    }
    Ok(text)
}
