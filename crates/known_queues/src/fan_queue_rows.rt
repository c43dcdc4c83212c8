//! Rows of the multicast queues of an input, in blocks: `case NAME`, `make N DEPTH ROOM ROOM ROOM ROOM`
//! and `admit LEVEL PACKET CELLS SET` set the queues up; then `offer LEVEL PACKET CELLS SET -> true`,
//! `fits LEVEL CELLS -> true`, `spare LEVEL -> PACKETS`, `fan LEVEL -> SET`,
//! `head LEVEL -> PACKET NUMBER last` and `served LEVEL SET -> true` state what a call answers.
ghost use Rattle.std.specs.Prelude.{◌≡◌, ◌<◌, ◌≤◌, IsTrue, IfOk};
ghost use Rattle.rotating_pick.specs.PortSets.{HasSeveral, IsAmong};

use crate::fields::{cell_name_text, level};
use cell_cutter::MAX_FORWARDED_CELLS;
use multicast_queue::FanQueues;
use rotating_pick::{LEVELS, Ports, is_among, is_empty, is_subset, lowest, without};
use std::alloc::{AllocError, Global};
use test_vectors::{NoAnswer, Row, number, port_count, port_set, set_up_row, words};
use voq_banks::{MAX_DEPTH, MAX_QUEUE_PACKETS};

/// The block that is being read.
#[derive(Drop)]
pub struct Block {
    // The queues, once they are made.
    made: Option<Queues>,
}

// The queues, and how many ports their switch has.
#[derive(Drop)]
struct Queues {
    ports: u32,
    queues: FanQueues,
    ghost some: { 0 < ports },
    ghost few: { ports ≤ 64 },
    ghost of_ports: { queues.ports ≡ ports },
}

// A packet that is to enter a queue.
#[derive(Clone, Copy)]
struct Entry {
    level: u8,
    packet: u32,
    cells: u32,
    fan: Ports,
}

impl Block {
    /// Before the first block.
    pub fn new() -> Block {
        Block { made: None }
    }

    /// The row that a line is; None where it sets up the queues.
    pub fn row(&mut self, alloc: Global, line: &str) -> Result<Option<Row>, AllocError> {
        if let Some((call, stated)) = line.split_once(" -> ") {
            let answer = self.answer(alloc, call);
            return Ok(Some(Row::new(alloc, stated, answer)?));
        }
        let set_up = self.set_up(alloc, line);
        set_up_row(alloc, line, set_up)
    }

    fn set_up(&mut self, alloc: Global, line: &str) -> Result<(), NoAnswer> {
        let (key, value) = line.split_once(' ').ok_or(NoAnswer)?;
        let words = words(alloc, value)?;
        match key {
            "case" => self.made = None,
            "make" => self.made = Some(made(alloc, words.as_slice())?),
            "admit" => self.queues()?.admit(words.as_slice())?,
            _ => return Err(NoAnswer),
        }
        Ok(())
    }

    fn answer(&mut self, alloc: Global, call: &str) -> Result<String, NoAnswer> {
        let (key, value) = call.split_once(' ').ok_or(NoAnswer)?;
        let words = words(alloc, value)?;
        self.queues()?.answer(alloc, key, words.as_slice())
    }

    fn queues(&mut self) -> Result<&mut Queues, NoAnswer> {
        match &mut self.made {
            Some(queues) => Ok(queues),
            None => Err(NoAnswer),
        }
    }
}

impl Queues {
    fn admit(&mut self, words: &[&str]) -> Result<(), NoAnswer> {
        let Entry {
            level,
            packet,
            cells,
            fan,
        } = self.entry(words)?;
        if !self.queues.fits(level, cells) || self.queues.spare(level) == 0 {
            return Err(NoAnswer);
        }
        self.queues.admit(level, packet, cells, fan);
        Ok(())
    }

    // The packet that four words name, of 1 to 1,171 cells and for two outputs at least, and its queue.
    fn entry(&self, words: &[&str]) -> Result<Entry, NoAnswer>
        ensures level { IfOk result (λ entry. entry.level < LEVELS) }
        ensures some { IfOk result (λ entry. 0 < entry.cells) }
        ensures few { IfOk result (λ entry. entry.cells ≤ MAX_FORWARDED_CELLS) }
        ensures several { IfOk result (λ entry. HasSeveral entry.fan) }
        ensures among { IfOk result (λ entry. IsAmong self.now.ports entry.fan) }
    {
        let [level_word, packet, cells, fan] = words else {
            return Err(NoAnswer);
        };
        let level = level(level_word)?;
        let packet = number(packet)?;
        let cells = number(cells)?;
        let fan = port_set(fan)?;
        if cells == 0
            || cells > MAX_FORWARDED_CELLS
            || !has_several(fan)
            || !is_among(self.ports, fan)
        {
            return Err(NoAnswer);
        }
        Ok(Entry {
            level,
            packet,
            cells,
            fan,
        })
    }

    fn answer(&mut self, alloc: Global, key: &str, words: &[&str]) -> Result<String, NoAnswer> {
        match key {
            "offer" => self.offer_text(alloc, words),
            "fits" => self.fits_text(alloc, words),
            "spare" => self.spare_text(alloc, words),
            "fan" => self.fan_text(alloc, words),
            "head" => self.head_text(alloc, words),
            "served" => self.served_text(alloc, words),
            _ => Err(NoAnswer),
        }
    }

    fn offer_text(&mut self, alloc: Global, words: &[&str]) -> Result<String, NoAnswer> {
        let Entry {
            level,
            packet,
            cells,
            fan,
        } = self.entry(words)?;
        if self.queues.spare(level) == 0 {
            return Err(NoAnswer);
        }
        let fits = self.queues.offer(level, packet, cells, fan);
        Ok(format!(in alloc; "{fits}")?)
    }

    fn fits_text(&self, alloc: Global, words: &[&str]) -> Result<String, NoAnswer> {
        let [level_word, cells] = words else {
            return Err(NoAnswer);
        };
        let fits = self.queues.fits(level(level_word)?, number(cells)?);
        Ok(format!(in alloc; "{fits}")?)
    }

    fn spare_text(&self, alloc: Global, words: &[&str]) -> Result<String, NoAnswer> {
        let packets = self.queues.spare(only_level(words)?);
        Ok(format!(in alloc; "{packets}")?)
    }

    fn fan_text(&self, alloc: Global, words: &[&str]) -> Result<String, NoAnswer> {
        let outputs = self.queues.fan(only_level(words)?);
        Ok(format!(in alloc; "{outputs:#x}")?)
    }

    fn head_text(&self, alloc: Global, words: &[&str]) -> Result<String, NoAnswer> {
        match self.queues.head(only_level(words)?) {
            Some(name) => Ok(cell_name_text(alloc, name)?),
            None => Ok(String::from_str(alloc, "-")?),
        }
    }

    fn served_text(&mut self, alloc: Global, words: &[&str]) -> Result<String, NoAnswer> {
        let [level_word, outputs] = words else {
            return Err(NoAnswer);
        };
        let level = level(level_word)?;
        let outputs = port_set(outputs)?;
        if is_empty(outputs) || !is_subset(outputs, self.queues.fan(level)) {
            return Err(NoAnswer);
        }
        let done = self.queues.served(level, outputs);
        Ok(format!(in alloc; "{done}")?)
    }
}

// The level that the one word names.
fn only_level(words: &[&str]) -> Result<u8, NoAnswer>
    ensures { IfOk result (λ level. level < LEVELS) }
{
    let [level_word] = words else {
        return Err(NoAnswer);
    };
    level(level_word)
}

// Whether the set has two members at least.
fn has_several(outputs: Ports) -> bool
    ensures { IsTrue result → HasSeveral outputs }
{
    let Some(one) = lowest(outputs) else {
        return false;
    };
    match lowest(without(outputs, one)) {
        Some(_) => true,
        None => false,
    }
}

fn made(alloc: Global, words: &[&str]) -> Result<Queues, NoAnswer> {
    let [n, depth, first, second, third, fourth] = words else {
        return Err(NoAnswer);
    };
    let ports = port_count(n)?;
    let depth = number(depth)?;
    let room = [
        number(first)?,
        number(second)?,
        number(third)?,
        number(fourth)?,
    ];
    with_room(alloc, ports, depth, room)
}

// Empty queues of this depth; `room` has for each level the number of packets that will enter.
fn with_room(
    alloc: Global,
    ports: u32,
    depth: u32,
    room: [u32; LEVELS as usize],
) -> Result<Queues, NoAnswer>
    requires some { 0 < ports }
    requires few { ports ≤ 64 }
{
    if depth == 0 || depth > MAX_DEPTH {
        return Err(NoAnswer);
    }
    if !room.iter().all(|packets| *packets <= MAX_QUEUE_PACKETS) {
        return Err(NoAnswer);
    }
    match FanQueues::make(alloc, ports, depth, &room) {
        Ok(queues) if queues.depth() == depth => Ok(Queues { ports, queues }),
        _ => Err(NoAnswer),
    }
}
