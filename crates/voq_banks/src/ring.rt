ghost use Rattle.std.specs.Prelude.{◌≡◌, ◌+◌, ◌<◌, ◌≤◌, ◌↔◌, ◌==◌, ◌∷◌, ◌++◌, length, slice_get, IfOk, IsTrue};
ghost use Rattle.voq_banks.specs.CellQueues.{empty_queue, queue_with};

use cell_cutter::{CellName, MAX_FORWARDED_CELLS};
use circular_buffer::HeapCircularBuffer;
use std::alloc::{AllocError, Global};
use std::marker::Model;

/// A cell that waits.
#[derive(Clone, Copy, Debug)]
pub struct QueuedCell<F> {
    /// Which cell it is.
    pub name: CellName,
    /// What the queue keeps of the cell's packet, as its fan-out.
    pub fan: F,
}

/// A packet that waits: how many cells it has, and what the queue keeps of it.
#[derive(Clone, Copy)]
pub(crate) struct Waiting<F> {
    packet: u32,
    cells: u16,
    fan: F,
}

/// A queue of cells of limited depth. One that no packet will enter has no ring.
#[derive(Drop)]
pub struct CellRing<F> {
    ring: Option<HeapCircularBuffer<Waiting<F>>>,
    depth: u32,
    next: u16,
    cells: u32,
    spare: u32,
}

impl<F> Model for CellRing<F> {
    ghost use Rattle.voq_banks.specs.CellQueues.{CellQueue};
    ghost use Rattle.voq_banks.specs.CodeSteps.{queue_code};
    ghost use Rattle.voq_banks.specs.RingSteps.{IsRing, queue_of};

    ghost Value = { CellQueue F };

    ghost coded = { queue_code F.code };

    ghost view = { λ q. queue_of q.depth q.next q.spare q.ring };

    ghost invariant = { λ q. IsRing q.depth q.next q.cells q.spare q.ring };
}

impl<F: Copy> CellRing<F> {
    /// An empty queue of at most `depth` cells, which `room` packets will enter. It takes all memory
    /// that the queue needs.
    pub fn make(alloc: Global, depth: u32, room: u32) -> Result<CellRing<F>, AllocError>
        ensures { IfOk result (λ queue. queue ≡ empty_queue depth room) }
    {
        let ring = if room == 0 {
            None
        } else {
            let capacity = room.min(depth);
            Some(HeapCircularBuffer::with_capacity(alloc, capacity as usize)?)
        };
        Ok(CellRing {
            ring,
            depth,
            next: 0,
            cells: 0,
            spare: room,
        })
    }

    /// How many cells wait, at most the depth.
    pub fn cells(&self) -> u32
        ensures cells { result ≡ length self.now.cells }
        ensures within { result ≤ self.now.depth }
    {
        self.cells
    }

    /// How many packets may still enter.
    pub fn spare(&self) -> u32
        ensures { result ≡ self.now.spare }
    {
        self.spare
    }

    /// Whether the queue can take `cells` cells more: with them it has at most the depth.
    pub fn fits(&self, cells: u32) -> bool
        ensures { IsTrue result ↔ (length self.now.cells + cells ≤ self.now.depth) }
    {
        cells <= self.depth - self.cells
    }

    /// The first cell, which is the next to leave. None exactly where no cell waits.
    pub fn first(&self) -> Option<QueuedCell<F>>
        ensures { result ≡ slice_get self.now.cells 0 }
    {
        let Some(ring) = &self.ring else {
            return None;
        };
        let Waiting { packet, cells, fan } = *ring.front()?;
        Some(cell_of(packet, self.next, cells, fan))
    }

    /// Appends the packet's cells, 1 to 1,171.
    pub fn admit(&mut self, packet: u32, cells: u32, fan: F)
        requires fits { length self.old.cells + cells ≤ self.old.depth }
        requires spare { 0 < self.old.spare }
        requires some { 0 < cells }
        requires few { cells ≤ MAX_FORWARDED_CELLS }
        ensures { self.new ≡ queue_with self.old packet cells fan }
    {
        let Some(ring) = &mut self.ring else {
            unreachable!()
        };
        ring.push_back(Waiting {
            packet,
            cells: cells as u16,
            fan,
        });
        self.cells += cells;
        self.spare -= 1;
    }

    /// Takes the first cell off the queue, which has one.
    pub fn pop(&mut self) -> QueuedCell<F>
        requires { 0 < length self.old.cells }
        ensures depth { self.new.depth ≡ self.old.depth }
        ensures cells { self.old.cells ≡ result ∷ self.new.cells }
        ensures spare { self.new.spare ≡ self.old.spare }
    {
        let Some(ring) = &mut self.ring else {
            unreachable!()
        };
        let Waiting { packet, cells, fan } = first(ring);
        let cell = cell_of(packet, self.next, cells, fan);
        self.cells -= 1;
        if cell.name.last {
            ring.pop_front();
            self.next = 0;
        } else {
            self.next += 1;
        }
        cell
    }
}

// Cell `number` of a packet of `cells` cells.
fn cell_of<F>(packet: u32, number: u16, cells: u16, fan: F) -> QueuedCell<F>
    requires { number < cells }
    ensures { result ≡ record { name = record { packet = packet; number = number; last = number + 1 == cells }; fan = fan } }
{
    QueuedCell {
        name: CellName {
            packet,
            number,
            last: number + 1 == cells,
        },
        fan,
    }
}

// The packet whose cells are the first to leave.
fn first<F: Copy>(ring: &HeapCircularBuffer<Waiting<F>>) -> Waiting<F>
    requires { 0 < length ring.now.items }
    ensures { Some result ≡ slice_get ring.now.items 0 }
{
    let Some(waiting) = ring.front() else {
        unreachable!()
    };
    *waiting
}
