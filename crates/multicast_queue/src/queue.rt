ghost use Rattle.std.specs.Prelude.{◌≡◌, ◌≢◌, ℕ, ◌+◌, ◌<◌, ◌≤◌, ◌↔◌, length, IfOk, IsTrue, false};
ghost use Rattle.rotating_pick.specs.PortSets.{Has};
ghost use Rattle.multicast_queue.specs.FanQueues.{first_fan, first_name, rest_with, HeadLeaves, HeadStays};
ghost use Rattle.multicast_queue.specs.FieldSteps.{empty_kept, kept_with};

use cell_cutter::{CellName, MAX_FORWARDED_CELLS};
use rotating_pick::{Ports, difference, is_empty};
use std::alloc::{AllocError, Global};
use std::marker::Model;
use voq_banks::CellRing;

/// A queue of cells with fan-outs, and those outputs of the head's fan-out that were not served yet.
#[derive(Drop)]
pub(crate) struct Queue {
    ring: CellRing<Ports>,
    rest: Ports,
}

impl Model for Queue {
    ghost use Rattle.multicast_queue.specs.FieldSteps.{Kept, kept_of};

    ghost Value = { Kept };

    ghost view = { λ q. kept_of q.ring q.rest };
}

impl Queue {
    /// An empty queue of at most `depth` cells, which `room` packets will enter.
    pub(crate) fn make(alloc: Global, depth: u32, room: u32) -> Result<Queue, AllocError>
        ensures { IfOk result (λ queue. queue ≡ empty_kept depth room) }
    {
        Ok(Queue {
            ring: CellRing::make(alloc, depth, room)?,
            rest: 0,
        })
    }

    /// How many cells wait, at most the depth.
    pub(crate) fn cells(&self) -> u32
        ensures cells { result ≡ length self.now.queue.cells }
        ensures within { result ≤ self.now.depth }
    {
        self.ring.cells()
    }

    /// How many packets may still enter.
    pub(crate) fn spare(&self) -> u32
        ensures { result ≡ self.now.queue.spare }
    {
        self.ring.spare()
    }

    /// The rest of the head's fan-out.
    pub(crate) fn rest(&self) -> Ports
        ensures { result ≡ self.now.queue.rest }
    {
        self.rest
    }

    /// The head.
    pub(crate) fn head(&self) -> Option<CellName>
        ensures { result ≡ first_name self.now.queue.cells }
    {
        let cell = self.ring.first()?;
        Some(cell.name)
    }

    /// The packet's cells go to the end, each with the whole fan-out.
    pub(crate) fn admit(&mut self, packet: u32, cells: u32, fan: Ports)
        requires fits { length self.old.queue.cells + cells ≤ self.old.depth }
        requires spare { 0 < self.old.queue.spare }
        requires some { 0 < cells }
        requires few { cells ≤ MAX_FORWARDED_CELLS }
        ensures { self.new ≡ kept_with self.old packet cells fan }
    {
        self.rest = rest_with(&self.ring, self.rest, fan);
        self.ring.admit(packet, cells, fan);
    }

    /// Takes the outputs out of the rest of the head's fan-out. Where nothing remains, the head leaves.
    pub(crate) fn serve(&mut self, outputs: Ports) -> bool
        requires { 0 < length self.old.queue.cells }
        ensures depth { self.new.depth ≡ self.old.depth }
        ensures done { IsTrue result ↔ ((output : ℕ) → Has self.old.queue.rest output → Has outputs output) }
        ensures leaves { IsTrue result → HeadLeaves self.old.queue self.new.queue }
        ensures stays { result ≡ false → HeadStays outputs self.old.queue self.new.queue }
        ensures some { result ≡ false → self.new.queue.rest ≢ 0 }
        ensures spare { self.new.queue.spare ≡ self.old.queue.spare }
    {
        let rest = difference(self.rest, outputs);
        if is_empty(rest) {
            self.ring.pop();
            self.rest = fan_of(&self.ring);
            true
        } else {
            self.rest = rest;
            false
        }
    }
}

// The fan-out of the first cell, if any.
fn fan_of(ring: &CellRing<Ports>) -> Ports
    ensures { result ≡ first_fan ring.now.cells }
{
    match ring.first() {
        Some(cell) => cell.fan,
        None => 0,
    }
}

// The rest of the head's fan-out where cells of the fan-out enter.
fn rest_with(ring: &CellRing<Ports>, rest: Ports, fan: Ports) -> Ports
    ensures { result ≡ rest_with ring.now.cells rest fan }
{
    if ring.cells() == 0 { fan } else { rest }
}
