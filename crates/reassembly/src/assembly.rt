ghost use Rattle.std.specs.Prelude.{◌≡◌, ◌*◌, ◌<◌, ◌≤◌, ◌↔◌, List, [], ◌∷◌, ◌++◌, length, map, false, All, IfOk, IsTrue, IsNone, IfSome};
ghost use Rattle.reassembly.specs.Flows.{Fits, fresh, flow_of, bytes_with, after_cell, place_of_cell};
ghost use Rattle.reassembly.specs.BufferSteps.{flow_in};
ghost use Rattle.reassembly.specs.Cutting.{Stands, messages_of};

use crate::buffer::Buffer;
use crate::limits::FLOWS_PER_INPUT;
use cell_cutter::{Cell, MAX_MESSAGE_BYTES};
use rotating_pick::{Kind, LEVELS, MAX_PORTS, OutOfMemory};
use std::alloc::{AllocError, Global};
use std::marker::Model;

/// A message that is whole, and its flow.
#[derive(Clone, Copy, Debug)]
pub struct Finished<'a> {
    /// The input port that it came from.
    pub input: u8,
    /// Its priority level.
    pub level: u8,
    /// Whether it is unicast or multicast.
    pub kind: Kind,
    /// Its bytes.
    pub message: &'a [u8],
}

/// The messages that are on their way to one output.
#[derive(Drop)]
pub struct Reassembly {
    ports: u32,
    buffers: Vec<Buffer>,
}

impl Model for Reassembly {
    ghost use Rattle.reassembly.specs.Flows.{Flows};
    ghost use Rattle.reassembly.specs.BufferSteps.{flows_in, HasBuffers};

    ghost Value = { Flows };

    ghost view = { λ r. flows_in r.ports r.buffers.items };

    ghost invariant = { λ r. HasBuffers r.ports r.buffers.items };
}

impl Reassembly {
    ghost use Rattle.std.specs.Borrow.{sem};
    ghost use Rattle.reassembly.specs.LendingSteps.{EndsAs};

    /// A reassembly for `n` inputs, 1 to 64. Entry `8 * input + 2 * level + kind` of `sizes` (unicast 0,
    /// multicast 1) is the greatest message length of that flow, in bytes, at most 65,551. It takes all
    /// memory that the flows need.
    pub fn make(alloc: Global, n: u32, sizes: &[u32]) -> Result<Reassembly, OutOfMemory>
        requires some { 0 < n }
        requires ports { n ≤ MAX_PORTS }
        requires flows { length sizes.now ≡ FLOWS_PER_INPUT * n }
        requires sizes { All (λ size. size ≤ MAX_MESSAGE_BYTES) sizes.now }
        ensures { IfOk result (λ r. r ≡ record { ports = n; flows = map fresh sizes.now }) }
    {
        Ok(Reassembly {
            ports: n,
            buffers: buffers(alloc, sizes)?,
        })
    }

    /// Whether the cell can be put: it is of the form, of one of the inputs, the next of its flow (the
    /// first after a last cell), and its used bytes have room in the flow's buffer.
    pub fn fits(&self, cell: &Cell) -> bool
        ensures { IsTrue result ↔ Fits self.now cell.now }
    {
        cell.is_of_form()
            && u32::from(cell.input) < self.ports
            && self.buffers[place_of(cell)].fits(cell)
    }

    /// Adds the used bytes of a cell that fits to its flow. With a last cell the message is whole, and
    /// lent until the next call; with any other the answer is None. The other flows stay.
    pub fn put(&mut self, cell: &Cell) -> Option<Finished<'_>>
        requires { Fits self.old cell.now }
        ensures* after { sem 𝓛 (EndsAs self.entry (after_cell self.old cell.now)) }
        ensures none { IsNone result ↔ (cell.now.last ≡ false) }
        ensures flow { IfSome result (λ done. (done.input ≡ cell.now.input) × (done.level ≡ cell.now.level) × (done.kind ≡ cell.now.kind)) }
        ensures message { IfSome result (λ done. done.message.now ≡ bytes_with (flow_of self.old cell.now) cell.now) }
        // Of the flow's cells so far, cut after each last cell, it is the next message.
        ensures cut { (cells : List Cell) → Stands (flow_of self.old cell.now) cells
            → IfSome result (λ done. messages_of (cells ++ cell.now ∷ []) ≡ messages_of cells ++ done.message.now ∷ []) }
    {
        let place = place_of(cell);
        self.buffers[place].add(cell);
        if cell.last {
            Some(Finished {
                input: cell.input,
                level: cell.level,
                kind: cell.kind,
                message: self.buffers[place].message(),
            })
        } else {
            None
        }
    }
}

// An empty buffer for each flow.
fn buffers(alloc: Global, sizes: &[u32]) -> Result<Vec<Buffer>, AllocError>
    ensures { IfOk result (λ buffers. map flow_in buffers.items ≡ map fresh sizes.now) }
{
    let mut buffers = Vec::with_capacity(alloc, sizes.len())?;
    for size in sizes {
        buffers.push(Buffer::make(alloc, *size as usize)?)?;
    }
    Ok(buffers)
}

// The place of the cell's flow among all.
fn place_of(cell: &Cell) -> usize
    requires { cell.now.level < LEVELS }
    ensures { result ≡ place_of_cell cell.now }
{
    let kind = match cell.kind {
        Kind::Uni => 0,
        Kind::Multi => 1,
    };
    FLOWS_PER_INPUT * usize::from(cell.input) + 2 * usize::from(cell.level) + kind
}
