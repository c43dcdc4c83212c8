ghost use Rattle.std.specs.Prelude.{◌≡◌, ◌+◌, ◌≤◌, ◌↔◌, [], length, IfOk, IsTrue};
ghost use Rattle.cell_cutter.specs.Cells.{IsCellForm};
ghost use Rattle.reassembly.specs.BufferSteps.{begun, stored_with};

use cell_cutter::Cell;
use std::alloc::{AllocError, Global};
use std::marker::Model;

/// The bytes of one flow, written in place. There is room for `size` of them.
#[derive(Drop)]
pub(crate) struct Buffer {
    bytes: Vec<u8>,
    size: usize,
    next: u16,
}

impl Model for Buffer {
    ghost use Rattle.std.specs.Prelude.{◌≤◌, vec_capacity, vec_len};
    ghost use Rattle.reassembly.specs.BufferSteps.{Stored};

    ghost Value = { Stored };

    ghost view = { λ b. record { size = b.size; bytes = b.bytes.items; next = b.next } };

    ghost invariant = { λ b. (vec_len b.bytes ≤ b.size) × (b.size ≤ vec_capacity b.bytes) };
}

impl Buffer {
    /// An empty buffer for messages of at most `size` bytes. One of size 0 takes no memory.
    pub(crate) fn make(alloc: Global, size: usize) -> Result<Buffer, AllocError>
        ensures { IfOk result (λ buffer. buffer ≡ record { size = size; bytes = []; next = 0 }) }
    {
        Ok(Buffer {
            bytes: Vec::with_capacity(alloc, size)?,
            size,
            next: 0,
        })
    }

    /// Whether the cell is the next one, and its bytes have room.
    pub(crate) fn fits(&self, cell: &Cell) -> bool
        ensures { IsTrue result ↔ ((cell.now.number ≡ self.now.next) × (length (begun self.now) + cell.now.used ≤ self.now.size)) }
    {
        cell.number == self.next && usize::from(cell.used) <= self.size - self.begun()
    }

    /// Writes the used bytes of the flow's next cell after those of its message.
    pub(crate) fn add(&mut self, cell: &Cell)
        requires form { IsCellForm cell.now }
        requires room { length (begun self.old) + cell.now.used ≤ self.old.size }
        ensures { self.new ≡ stored_with self.old cell.now }
    {
        if self.next == 0 {
            self.bytes.clear();
        }
        let used = &cell.payload[..usize::from(cell.used)];
        let Ok(()) = self.bytes.extend_from_slice(used) else {
            unreachable!()
        };
        self.next = if cell.last { 0 } else { cell.number + 1 };
    }

    /// The bytes of the last message that was begun.
    pub(crate) fn message(&self) -> &[u8]
        ensures { result.now ≡ self.now.bytes }
    {
        &self.bytes
    }

    // How many bytes stand of the message that the next cell belongs to.
    fn begun(&self) -> usize
        ensures count { result ≡ length (begun self.now) }
        ensures within { result ≤ self.now.size }
    {
        if self.next == 0 { 0 } else { self.bytes.len() }
    }
}
