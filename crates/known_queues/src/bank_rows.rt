//! Rows of the unicast queues of an input, in blocks: `case NAME`, `make N DEPTH`,
//! `room OUTPUT LEVEL PACKETS` and `admit OUTPUT LEVEL PACKET CELLS` set the queues up; then
//! `offer OUTPUT LEVEL PACKET CELLS -> true`, `fits OUTPUT LEVEL CELLS -> true`,
//! `spare OUTPUT LEVEL -> PACKETS`, `cells OUTPUT LEVEL -> CELLS`, `mask LEVEL -> SET` and
//! `pop OUTPUT LEVEL -> PACKET NUMBER last` state what a call answers.
ghost use Rattle.std.specs.Prelude.{◌≡◌, ◌<◌, ◌≤◌, IfOk};

use crate::fields::{cell_name_text, level};
use cell_cutter::MAX_FORWARDED_CELLS;
use rotating_pick::{LEVELS, MAX_PORTS};
use std::alloc::{AllocError, Global};
use test_vectors::{NoAnswer, Row, number, port_count, set_up_row, words};
use voq_banks::{Banks, MAX_DEPTH, MAX_QUEUE_PACKETS};

/// The block that is being read.
#[derive(Drop)]
pub struct Block {
    // The ports, 0 before they are known.
    ports: u32,
    depth: u32,
    // How many packets will enter each queue.
    room: Vec<u32>,
    // The queues, once one of them was called.
    queues: Option<Queues>,
}

// The queues, and how many ports their switch has.
#[derive(Drop)]
struct Queues {
    ports: u32,
    banks: Banks,
    ghost of_ports: { banks.ports ≡ ports },
}

// The name of a queue.
#[derive(Clone, Copy)]
struct QueueName {
    output: u32,
    level: u8,
}

// A packet that is to enter a queue.
#[derive(Clone, Copy)]
struct Entry {
    output: u32,
    level: u8,
    packet: u32,
    cells: u32,
}

impl Block {
    /// Before the first block.
    pub fn new(alloc: Global) -> Block {
        Block {
            ports: 0,
            depth: 0,
            room: Vec::new(alloc),
            queues: None,
        }
    }

    /// The row that a line is; None where it sets up the queues.
    pub fn row(&mut self, alloc: Global, line: &str) -> Result<Option<Row>, AllocError> {
        if let Some((call, stated)) = line.split_once(" -> ") {
            let answer = self.answer(alloc, call);
            return Ok(Some(Row::new(alloc, stated, answer)?));
        }
        let set_up = self.set_up(alloc, line);
        set_up_row(alloc, line, set_up)
    }

    fn set_up(&mut self, alloc: Global, line: &str) -> Result<(), NoAnswer> {
        let (key, value) = line.split_once(' ').ok_or(NoAnswer)?;
        let words = words(alloc, value)?;
        match key {
            "case" => self.begin(alloc),
            "make" => self.set_ports(alloc, words.as_slice()),
            "room" => self.set_room(words.as_slice()),
            "admit" => self.queues(alloc)?.admit(words.as_slice()),
            _ => Err(NoAnswer),
        }
    }

    fn begin(&mut self, alloc: Global) -> Result<(), NoAnswer> {
        self.ports = 0;
        self.room = Vec::new(alloc);
        self.queues = None;
        Ok(())
    }

    fn set_ports(&mut self, alloc: Global, words: &[&str]) -> Result<(), NoAnswer> {
        let [n, depth] = words else {
            return Err(NoAnswer);
        };
        let n = port_count(n)?;
        self.ports = n;
        self.depth = number(depth)?;
        self.room = vec![in alloc; 0; (LEVELS * n) as usize]?;
        Ok(())
    }

    fn set_room(&mut self, words: &[&str]) -> Result<(), NoAnswer> {
        let [output, level, packets] = words else {
            return Err(NoAnswer);
        };
        let QueueName { output, level } = queue_name(self.ports, output, level)?;
        let packets = number(packets)?;
        let place = LEVELS as usize * output as usize + usize::from(level);
        match self.room.get_mut(place) {
            Some(entry) => {
                *entry = packets;
                Ok(())
            }
            None => Err(NoAnswer),
        }
    }

    fn answer(&mut self, alloc: Global, call: &str) -> Result<String, NoAnswer> {
        let (key, value) = call.split_once(' ').ok_or(NoAnswer)?;
        let words = words(alloc, value)?;
        self.queues(alloc)?.answer(alloc, key, words.as_slice())
    }

    // The queues, made with the first call.
    fn queues(&mut self, alloc: Global) -> Result<&mut Queues, NoAnswer> {
        if self.queues.is_none() {
            self.queues = Some(made(alloc, self.ports, self.depth, self.room.as_slice())?);
        }
        match &mut self.queues {
            Some(queues) => Ok(queues),
            None => Err(NoAnswer),
        }
    }
}

impl Queues {
    fn admit(&mut self, words: &[&str]) -> Result<(), NoAnswer> {
        let Entry {
            output,
            level,
            packet,
            cells,
        } = self.entry(words)?;
        if !self.banks.fits(output, level, cells) || self.banks.spare(output, level) == 0 {
            return Err(NoAnswer);
        }
        self.banks.admit(output, level, packet, cells);
        Ok(())
    }

    fn answer(&mut self, alloc: Global, key: &str, words: &[&str]) -> Result<String, NoAnswer> {
        match key {
            "offer" => self.offer_text(alloc, words),
            "fits" => self.fits_text(alloc, words),
            "spare" => self.spare_text(alloc, words),
            "cells" => self.cells_text(alloc, words),
            "mask" => self.mask_text(alloc, words),
            "pop" => self.pop_text(alloc, words),
            _ => Err(NoAnswer),
        }
    }

    fn offer_text(&mut self, alloc: Global, words: &[&str]) -> Result<String, NoAnswer> {
        let Entry {
            output,
            level,
            packet,
            cells,
        } = self.entry(words)?;
        if self.banks.spare(output, level) == 0 {
            return Err(NoAnswer);
        }
        let fits = self.banks.offer(output, level, packet, cells);
        Ok(format!(in alloc; "{fits}")?)
    }

    fn fits_text(&self, alloc: Global, words: &[&str]) -> Result<String, NoAnswer> {
        let [output, level, cells] = words else {
            return Err(NoAnswer);
        };
        let QueueName { output, level } = queue_name(self.ports, output, level)?;
        let fits = self.banks.fits(output, level, number(cells)?);
        Ok(format!(in alloc; "{fits}")?)
    }

    fn spare_text(&self, alloc: Global, words: &[&str]) -> Result<String, NoAnswer> {
        let QueueName { output, level } = self.queue_name(words)?;
        let packets = self.banks.spare(output, level);
        Ok(format!(in alloc; "{packets}")?)
    }

    fn cells_text(&self, alloc: Global, words: &[&str]) -> Result<String, NoAnswer> {
        let QueueName { output, level } = self.queue_name(words)?;
        let cells = self.banks.cells(output, level);
        Ok(format!(in alloc; "{cells}")?)
    }

    fn mask_text(&self, alloc: Global, words: &[&str]) -> Result<String, NoAnswer> {
        let [level_word] = words else {
            return Err(NoAnswer);
        };
        let outputs = self.banks.mask(level(level_word)?);
        Ok(format!(in alloc; "{outputs:#x}")?)
    }

    fn pop_text(&mut self, alloc: Global, words: &[&str]) -> Result<String, NoAnswer> {
        let QueueName { output, level } = self.queue_name(words)?;
        if self.banks.cells(output, level) == 0 {
            return Err(NoAnswer);
        }
        let name = self.banks.pop(output, level);
        Ok(cell_name_text(alloc, name)?)
    }

    // The packet that four words name, of 1 to 1,171 cells, and its queue.
    fn entry(&self, words: &[&str]) -> Result<Entry, NoAnswer>
        ensures output { IfOk result (λ entry. entry.output < self.now.ports) }
        ensures level { IfOk result (λ entry. entry.level < LEVELS) }
        ensures some { IfOk result (λ entry. 0 < entry.cells) }
        ensures few { IfOk result (λ entry. entry.cells ≤ MAX_FORWARDED_CELLS) }
    {
        let [output, level, packet, cells] = words else {
            return Err(NoAnswer);
        };
        let QueueName { output, level } = queue_name(self.ports, output, level)?;
        let packet = number(packet)?;
        let cells = number(cells)?;
        if cells == 0 || cells > MAX_FORWARDED_CELLS {
            return Err(NoAnswer);
        }
        Ok(Entry {
            output,
            level,
            packet,
            cells,
        })
    }

    // The queue that two words name.
    fn queue_name(&self, words: &[&str]) -> Result<QueueName, NoAnswer>
        ensures output { IfOk result (λ name. name.output < self.now.ports) }
        ensures level { IfOk result (λ name. name.level < LEVELS) }
    {
        let [output, level] = words else {
            return Err(NoAnswer);
        };
        queue_name(self.ports, output, level)
    }
}

// The queue of an output and a level of a switch of this number of ports.
fn queue_name(ports: u32, output: &str, level_word: &str) -> Result<QueueName, NoAnswer>
    ensures output { IfOk result (λ name. name.output < ports) }
    ensures level { IfOk result (λ name. name.level < LEVELS) }
{
    let output = number(output)?;
    let level = level(level_word)?;
    if output >= ports {
        return Err(NoAnswer);
    }
    Ok(QueueName { output, level })
}

fn made(alloc: Global, ports: u32, depth: u32, room: &[u32]) -> Result<Queues, NoAnswer> {
    let fitting = room.iter().all(|packets| *packets <= MAX_QUEUE_PACKETS);
    if ports == 0 || ports > MAX_PORTS || room.len() != (LEVELS * ports) as usize || !fitting {
        return Err(NoAnswer);
    }
    if depth == 0 || depth > MAX_DEPTH {
        return Err(NoAnswer);
    }
    match Banks::make(alloc, ports, depth, room) {
        Ok(banks) if banks.depth() == depth => Ok(Queues { ports, banks }),
        _ => Err(NoAnswer),
    }
}
