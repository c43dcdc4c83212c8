ghost use Rattle.std.specs.Prelude.{◌≡◌, ◌≢◌, ℕ, ◌+◌, ◌<◌, ◌≤◌, ◌↔◌, [], map, length, nat_le, false, IfOk, IsTrue, if◌then◌else◌};
ghost use Rattle.rotating_pick.specs.PortSets.{Has, HasSeveral, IsAmong};
ghost use Rattle.multicast_queue.specs.FanQueues.{empty_queues, queue_at, queue_with, first_fan, first_name, HeadLeaves, HeadStays, OthersStay};
ghost use Rattle.multicast_queue.specs.FieldSteps.{empty_kept};

use crate::queue::Queue;
use cell_cutter::{CellName, MAX_FORWARDED_CELLS};
use rotating_pick::{LEVELS, MAX_PORTS, OutOfMemory, Ports};
use std::alloc::{AllocError, Global};
use std::marker::Model;

/// The multicast queues of one input: a queue of cells for each level.
#[derive(Drop)]
pub struct FanQueues {
    ports: u32,
    depth: u32,
    queues: [Queue; LEVELS as usize],
}

impl Model for FanQueues {
    ghost use Rattle.multicast_queue.specs.FanQueues.{Queues};
    ghost use Rattle.multicast_queue.specs.FieldSteps.{AreKept, queues_in};

    ghost Value = { Queues };

    ghost view = { λ f. queues_in f.ports f.depth f.queues };

    ghost invariant = { λ f. AreKept f.ports f.depth f.queues };
}

impl FanQueues {
    /// Empty queues for an input of a switch of `n` ports, 1 to 64, each of at most `depth` cells, one or
    /// more. Entry `level` of `room` is how many packets will enter that level's queue. It takes all memory
    /// that the queues need.
    pub fn make(
        alloc: Global,
        n: u32,
        depth: u32,
        room: &[u32; LEVELS as usize],
    ) -> Result<FanQueues, OutOfMemory>
        requires some { 0 < n }
        requires ports { n ≤ MAX_PORTS }
        requires deep { 0 < depth }
        ensures queues { IfOk result (λ queues. queues ≡ empty_queues n depth room.now) }
        ensures empty { IfOk result (λ queues. (level : ℕ) → (queue_at queues level).cells ≡ []) }
    {
        Ok(FanQueues {
            ports: n,
            depth,
            queues: queues(alloc, depth, room)?,
        })
    }

    /// The most cells that each queue may have. None has more, and each head has a remaining fan-out.
    pub fn depth(&self) -> u32
        ensures depth { result ≡ self.now.depth }
        ensures within { (level : ℕ) → level < LEVELS → length (queue_at self.now level).cells ≤ result }
        // Nothing remains exactly where no cell waits.
        ensures empty { (level : ℕ) → level < LEVELS → ((queue_at self.now level).rest ≡ 0) ↔ (length (queue_at self.now level).cells ≡ 0) }
        // What remains is of the head's fan-out, and of the switch's ports.
        ensures head { (level output : ℕ) → level < LEVELS → Has (queue_at self.now level).rest output
            → Has (first_fan (queue_at self.now level).cells) output }
        ensures ports { (level output : ℕ) → level < LEVELS → Has (queue_at self.now level).rest output → output < self.now.ports }
    {
        self.depth
    }

    /// Whether the queue of the level, 0 to 3, can take `cells` cells more: with them it has at most the
    /// depth.
    pub fn fits(&self, level: u8, cells: u32) -> bool
        requires { level < LEVELS }
        ensures { IsTrue result ↔ (length (queue_at self.now level).cells + cells ≤ self.now.depth) }
    {
        let waiting = self.queues[level as usize].cells();
        cells <= self.depth - waiting
    }

    /// How many packets may still enter that queue: its entry of `room` less the packets that entered.
    pub fn spare(&self, level: u8) -> u32
        requires { level < LEVELS }
        ensures { result ≡ (queue_at self.now level).spare }
    {
        self.queues[level as usize].spare()
    }

    /// Appends the packet's cells, 1 to 1,171, to that queue, each with the whole fan-out `fan`: two or
    /// more of the switch's ports. The other queues stay.
    pub fn admit(&mut self, level: u8, packet: u32, cells: u32, fan: Ports)
        requires level { level < LEVELS }
        requires fits { length (queue_at self.old level).cells + cells ≤ self.old.depth }
        requires spare { 0 < (queue_at self.old level).spare }
        requires some { 0 < cells }
        requires few { cells ≤ MAX_FORWARDED_CELLS }
        requires several { HasSeveral fan }
        requires among { IsAmong self.old.ports fan }
        ensures queue { queue_at self.new level ≡ queue_with (queue_at self.old level) packet cells fan }
        ensures others { OthersStay level self.old self.new }
    {
        let queue = &mut self.queues[level as usize];
        queue.admit(packet, cells, fan);
    }

    /// Appends the packet's cells, 1 to 1,171, to that queue where they fit, each with the whole fan-out
    /// `fan`: two or more of the switch's ports. Answers whether they did; if not, all stays. The other
    /// queues stay.
    pub fn offer(&mut self, level: u8, packet: u32, cells: u32, fan: Ports) -> bool
        requires level { level < LEVELS }
        requires spare { 0 < (queue_at self.old level).spare }
        requires some { 0 < cells }
        requires few { cells ≤ MAX_FORWARDED_CELLS }
        requires several { HasSeveral fan }
        requires among { IsAmong self.old.ports fan }
        ensures fits { result ≡ nat_le (length (queue_at self.old level).cells + cells) self.old.depth }
        ensures queue { queue_at self.new level ≡ (if result then queue_with (queue_at self.old level) packet cells fan else queue_at self.old level) }
        ensures others { OthersStay level self.old self.new }
        ensures rejected { result ≡ false → self.new ≡ self.old }
    {
        let fits = self.fits(level, cells);
        if fits {
            self.admit(level, packet, cells, fan);
        }
        fits
    }

    /// The head's remaining fan-out: the outputs of its fan-out that were not served yet. It is 0
    /// exactly where the queue is empty.
    pub fn fan(&self, level: u8) -> Ports
        requires { level < LEVELS }
        ensures rest { result ≡ (queue_at self.now level).rest }
        ensures empty { (result ≡ 0) ↔ (length (queue_at self.now level).cells ≡ 0) }
        ensures head { (output : ℕ) → Has result output → Has (first_fan (queue_at self.now level).cells) output }
        ensures ports { (output : ℕ) → Has result output → output < self.now.ports }
    {
        self.queues[level as usize].rest()
    }

    /// The head: the first cell of that queue. None exactly where the queue is empty.
    pub fn head(&self, level: u8) -> Option<CellName>
        requires { level < LEVELS }
        ensures { result ≡ first_name (queue_at self.now level).cells }
    {
        self.queues[level as usize].head()
    }

    /// Takes the outputs `mask`, one or more of the head's remaining fan-out, out of it. True exactly
    /// where nothing remains: then the head is taken off, and the next cell, if any, is head with its
    /// whole fan-out. The other queues stay.
    pub fn served(&mut self, level: u8, mask: Ports) -> bool
        requires level { level < LEVELS }
        requires some { mask ≢ 0 }
        requires within { (output : ℕ) → Has mask output → Has (queue_at self.old level).rest output }
        ensures done { IsTrue result ↔ ((output : ℕ) → Has (queue_at self.old level).rest output → Has mask output) }
        ensures leaves { IsTrue result → HeadLeaves (queue_at self.old level) (queue_at self.new level) }
        ensures stays { result ≡ false → HeadStays mask (queue_at self.old level) (queue_at self.new level) }
        ensures spare { (queue_at self.new level).spare ≡ (queue_at self.old level).spare }
        ensures others { OthersStay level self.old self.new }
    {
        let queue = &mut self.queues[level as usize];
        queue.serve(mask)
    }
}

// An empty queue for each entry of `room`.
fn queues(
    alloc: Global,
    depth: u32,
    room: &[u32; LEVELS as usize],
) -> Result<[Queue; LEVELS as usize], AllocError>
    ensures { IfOk result (λ queues. queues ≡ map (empty_kept depth) room.now) }
{
    let [first, second, third, fourth] = *room;
    Ok([
        Queue::make(alloc, depth, first)?,
        Queue::make(alloc, depth, second)?,
        Queue::make(alloc, depth, third)?,
        Queue::make(alloc, depth, fourth)?,
    ])
}
