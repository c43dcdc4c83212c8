ghost use Rattle.std.specs.Prelude.{◌≡◌, ◌<◌, ◌≤◌, length, drop, slice_get, slice_index, IfOk, IfSome, IfNone};
ghost use Rattle.arrival_queues.specs.FieldSteps.{HasEntered, cell_told, empty_queue, places_of_ports};

use crate::cell::ArrivedCell;
use crate::queueing::Queueing;
use circular_buffer::HeapCircularBuffer;
use rotating_pick::MAX_PORTS;
use std::alloc::{AllocError, Global};
use std::marker::Model;

/// One queue: of each cell its slot, and its port where the queue does not tell it.
#[derive(Drop)]
pub(crate) struct ArrivalQueue {
    queueing: Queueing,
    // The ports of all its cells, where it tells them.
    input: u32,
    output: u32,
    slots: HeapCircularBuffer<u32>,
    // The ports that it does not tell. It has no places where the queue tells both.
    ports: HeapCircularBuffer<u8>,
}

impl Model for ArrivalQueue {
    ghost use Rattle.arrival_queues.specs.FieldSteps.{AreRings, QueueValue, queue_kept};

    ghost Value = { QueueValue };

    ghost view = { λ q. queue_kept q.queueing q.input q.output q.slots q.ports };

    ghost invariant = { λ q. AreRings q.queueing q.slots q.ports };
}

impl ArrivalQueue {
    /// An empty queue of at most `depth` cells. It takes all memory that it needs.
    pub(crate) fn make(
        alloc: Global,
        queueing: Queueing,
        input: u32,
        output: u32,
        depth: u32,
    ) -> Result<ArrivalQueue, AllocError>
        ensures { IfOk result (λ queue. queue ≡ empty_queue queueing input output depth) }
    {
        let slots = HeapCircularBuffer::with_capacity(alloc, depth as usize)?;
        let ports = HeapCircularBuffer::with_capacity(alloc, places_of_ports(queueing, depth))?;
        Ok(ArrivalQueue {
            queueing,
            input,
            output,
            slots,
            ports,
        })
    }

    /// Appends a cell of this slot, and this port where the queue does not tell it, if there is room. How many cells
    /// the queue has then; None where there is no room.
    pub(crate) fn enter(&mut self, slot: u32, port: u32) -> Option<u32>
        requires { port < MAX_PORTS }
        ensures entered { IfSome result (HasEntered self.old self.new slot port) }
        ensures full { IfNone result ((self.old.depth ≤ length self.old.cells) × (self.new ≡ self.old)) }
    {
        let Ok(()) = self.slots.try_push_back(slot) else {
            return None;
        };
        self.ports.push_back(port as u8);
        Some(self.slots.len() as u32)
    }

    /// The first cell, which is the next to leave. None where no cell waits.
    pub(crate) fn head(&self) -> Option<ArrivedCell>
        ensures { result ≡ slice_get self.now.cells 0 }
    {
        let Some(slot) = self.slots.front() else {
            return None;
        };
        let port = port_at_front(&self.ports);
        Some(cell_told(self.queueing, self.input, self.output, *slot, port))
    }

    /// Takes the first cell off the queue. None where no cell waits.
    pub(crate) fn leave(&mut self) -> Option<ArrivedCell>
        ensures value { result ≡ slice_get self.old.cells 0 }
        ensures queue { self.new ≡ record self.old { cells = drop 1 self.old.cells } }
    {
        let cell = self.head();
        self.slots.pop_front();
        self.ports.pop_front();
        cell
    }
}

// How many ports a queue keeps: none where it tells both of each cell.
fn places_of_ports(queueing: Queueing, depth: u32) -> usize
    ensures { result ≡ places_of_ports queueing depth }
{
    match queueing {
        Queueing::ByPair => 0,
        Queueing::ByInput | Queueing::ByOutput => depth as usize,
    }
}

// The port of the first cell; 0 where none is kept.
fn port_at_front(ports: &HeapCircularBuffer<u8>) -> u32
    ensures { result ≡ slice_index ports.now.items 0 }
{
    match ports.front() {
        Some(port) => u32::from(*port),
        None => 0,
    }
}

// The cell of this slot, and this port where the queue does not tell it.
fn cell_told(queueing: Queueing, input: u32, output: u32, slot: u32, port: u32) -> ArrivedCell
    ensures { result ≡ cell_told queueing input output slot port }
{
    match queueing {
        Queueing::ByPair => ArrivedCell {
            arrival: slot,
            input,
            output,
        },
        Queueing::ByInput => ArrivedCell {
            arrival: slot,
            input,
            output: port,
        },
        Queueing::ByOutput => ArrivedCell {
            arrival: slot,
            input: port,
            output,
        },
    }
}
