ghost use Rattle.std.specs.Prelude.{◌≡◌, ◌≢◌, ℕ, ◌+◌, ◌-◌, ◌*◌, ◌<◌, ◌≤◌, ◌↔◌, [], ◌∷◌, ◌++◌, map, length, nat_le, false, IfOk, IsTrue, if◌then◌else◌};
ghost use Rattle.rotating_pick.specs.PortSets.{Has};
ghost use Rattle.voq_banks.specs.CellQueues.{names_of_packet, empty_queue};
ghost use Rattle.voq_banks.specs.Queues.{empty_queues, place_of, queue_at, spare_at, Waits, OthersStay};

use crate::ring::CellRing;
use cell_cutter::{CellName, MAX_FORWARDED_CELLS};
use rotating_pick::{LEVELS, MAX_PORTS, OutOfMemory, Ports, with, without};
use std::alloc::{AllocError, Global};
use std::marker::Model;

/// The unicast queues of one input: a queue of cells for each output and level.
#[derive(Drop)]
pub struct Banks {
    ports: u32,
    depth: u32,
    queues: Vec<CellRing<()>>,
    masks: [Ports; LEVELS as usize],
}

impl Model for Banks {
    ghost use Rattle.voq_banks.specs.Queues.{Queues};
    ghost use Rattle.voq_banks.specs.FieldSteps.{AreKept, queues_in};

    ghost Value = { Queues };

    ghost view = { λ b. queues_in b.ports b.depth b.queues.items };

    ghost invariant = { λ b. AreKept b.ports b.depth b.queues.items b.masks };
}

impl Banks {
    /// Empty queues for an input of a switch of `n` ports, 1 to 64, each of at most `depth` cells, one or
    /// more. Entry `4 * output + level` of `room` is how many packets will enter that queue. It takes all
    /// memory that the queues need.
    pub fn make(alloc: Global, n: u32, depth: u32, room: &[u32]) -> Result<Banks, OutOfMemory>
        requires some { 0 < n }
        requires ports { n ≤ MAX_PORTS }
        requires deep { 0 < depth }
        requires queues { length room.now ≡ LEVELS * n }
        ensures banks { IfOk result (λ banks. banks ≡ empty_queues n depth room.now) }
        ensures empty { IfOk result (λ banks. (output level : ℕ) → queue_at banks output level ≡ []) }
    {
        Ok(Banks {
            ports: n,
            depth,
            queues: queues(alloc, depth, room)?,
            masks: [0; LEVELS as usize],
        })
    }

    /// The most cells that each queue may have. None has more.
    pub fn depth(&self) -> u32
        ensures depth { result ≡ self.now.depth }
        ensures within { (output level : ℕ) → output < self.now.ports → level < LEVELS → length (queue_at self.now output level) ≤ result }
    {
        self.depth
    }

    /// Whether the queue of the output, one of the switch's ports, and the level, 0 to 3, can take so
    /// many more cells: with them it has at most the depth.
    pub fn fits(&self, output: u32, level: u8, cells: u32) -> bool
        requires output { output < self.now.ports }
        requires level { level < LEVELS }
        ensures { IsTrue result ↔ (length (queue_at self.now output level) + cells ≤ self.now.depth) }
    {
        let waiting = self.cells(output, level);
        cells <= self.depth - waiting
    }

    /// How many packets may still enter that queue: its entry of `room` less the packets that entered.
    pub fn spare(&self, output: u32, level: u8) -> u32
        requires output { output < self.now.ports }
        requires level { level < LEVELS }
        ensures { result ≡ spare_at self.now output level }
    {
        self.queues[place_of(output, level)].spare()
    }

    /// Appends the packet's cells, 1 to 1,171, to that queue. The other queues stay.
    pub fn admit(&mut self, output: u32, level: u8, packet: u32, cells: u32)
        requires output { output < self.old.ports }
        requires level { level < LEVELS }
        requires fits { length (queue_at self.old output level) + cells ≤ self.old.depth }
        requires spare { 0 < spare_at self.old output level }
        requires some { 0 < cells }
        requires few { cells ≤ MAX_FORWARDED_CELLS }
        ensures queue { queue_at self.new output level ≡ queue_at self.old output level ++ names_of_packet packet cells }
        ensures spare { spare_at self.new output level ≡ spare_at self.old output level - 1 }
        ensures others { OthersStay output level self.old self.new }
    {
        let queue = &mut self.queues[place_of(output, level)];
        queue.admit(packet, cells, ());
        let level = level as usize;
        self.masks[level] = with(self.masks[level], output);
    }

    /// Appends the packet's cells, 1 to 1,171, to that queue where they fit: with them it has at most
    /// the depth. Answers whether they did; if not, all stays. The other queues stay.
    pub fn offer(&mut self, output: u32, level: u8, packet: u32, cells: u32) -> bool
        requires output { output < self.old.ports }
        requires level { level < LEVELS }
        requires spare { 0 < spare_at self.old output level }
        requires some { 0 < cells }
        requires few { cells ≤ MAX_FORWARDED_CELLS }
        ensures fits { result ≡ nat_le (length (queue_at self.old output level) + cells) self.old.depth }
        ensures queue { queue_at self.new output level ≡ queue_at self.old output level ++ (if result then names_of_packet packet cells else []) }
        ensures spare { spare_at self.new output level ≡ (if result then spare_at self.old output level - 1 else spare_at self.old output level) }
        ensures others { OthersStay output level self.old self.new }
        ensures rejected { result ≡ false → self.new ≡ self.old }
    {
        let fits = self.fits(output, level, cells);
        if fits {
            self.admit(output, level, packet, cells);
        }
        fits
    }

    /// The outputs whose queue of the level, 0 to 3, is not empty.
    pub fn mask(&self, level: u8) -> Ports
        requires { level < LEVELS }
        ensures { (output : ℕ) → Has result output ↔ ((output < self.now.ports) × Waits self.now output level) }
    {
        self.masks[level as usize]
    }

    /// How many cells wait in that queue, at most the depth.
    pub fn cells(&self, output: u32, level: u8) -> u32
        requires output { output < self.now.ports }
        requires level { level < LEVELS }
        ensures cells { result ≡ length (queue_at self.now output level) }
        ensures within { result ≤ self.now.depth }
    {
        self.queues[place_of(output, level)].cells()
    }

    /// Takes the first cell off that queue, which has one. The other queues stay.
    pub fn pop(&mut self, output: u32, level: u8) -> CellName
        requires output { output < self.old.ports }
        requires level { level < LEVELS }
        requires waits { Waits self.old output level }
        ensures queue { queue_at self.old output level ≡ result ∷ queue_at self.new output level }
        ensures spare { spare_at self.new output level ≡ spare_at self.old output level }
        ensures others { OthersStay output level self.old self.new }
    {
        let queue = &mut self.queues[place_of(output, level)];
        let name = queue.pop().name;
        let waiting = queue.cells();
        let level = level as usize;
        self.masks[level] = mask_after(self.masks[level], output, waiting);
        name
    }
}

// The set, with the output exactly where cells wait for it.
fn mask_after(mask: Ports, output: u32, waiting: u32) -> Ports
    requires { output < MAX_PORTS }
    ensures others { (y : ℕ) → y ≢ output → Has result y ↔ Has mask y }
    ensures output { Has result output ↔ (0 < waiting) }
{
    if waiting == 0 {
        without(mask, output)
    } else {
        with(mask, output)
    }
}

// The place of a queue among all.
fn place_of(output: u32, level: u8) -> usize
    requires output { output < MAX_PORTS }
    requires level { level < LEVELS }
    ensures { result ≡ place_of output level }
{
    (LEVELS * output) as usize + usize::from(level)
}

// An empty queue for each entry of `room`.
fn queues(alloc: Global, depth: u32, room: &[u32]) -> Result<Vec<CellRing<()>>, AllocError>
    ensures { IfOk result (λ queues. queues.items ≡ map (empty_queue depth) room.now) }
{
    let mut queues = Vec::with_capacity(alloc, room.len())?;
    for packets in room {
        queues.push(CellRing::make(alloc, depth, *packets)?)?;
    }
    Ok(queues)
}
