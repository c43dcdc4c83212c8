ghost use Rattle.std.specs.Prelude.{◌≡◌, ◌+◌, ◌<◌, ◌≤◌, ◌↔◌, ◌*◌, ◌^◌, ◌++◌, [], map, length, vec_len, vec_capacity, Some, None, IfOk, IsTrue, All};
ghost use Rattle.std.specs.Prelude.{true, if◌then◌else◌};
ghost use Rattle.reassembly.specs.Flows.{Fits, fresh, flow_of, bytes_with, after_cell};
ghost use Rattle.card_core.specs.Cards.{MayReceive, MayReceiveAny};
ghost use Rattle.card_core.specs.CardSteps.{received_with, received_any};

use crate::limits::MAX_SLOTS;
use crate::outcome::CardOut;
use cell_cutter::{Cell, MAX_MESSAGE_BYTES, PAYLOAD_BYTES};
use reassembly::{FLOWS_PER_INPUT, Reassembly};
use rotating_pick::{MAX_PORTS, OutOfMemory};
use std::alloc::Global;
use std::marker::Model;

/// What a line card keeps of what comes to its output. `body` and `lens` have room for all that comes: for
/// `body_room` bytes, and for `packet_room` lengths and no more.
#[derive(Drop)]
pub(crate) struct Egress {
    flows: Reassembly,
    body: Vec<u8>,
    body_room: usize,
    lens: Vec<u32>,
    packet_room: usize,
    cells: u32,
}

impl Model for Egress {
    ghost use Rattle.std.specs.Prelude.{vec_capacity, vec_len};
    ghost use Rattle.card_core.specs.Cards.{Received};
    ghost use Rattle.card_core.specs.CardSteps.{AreFull, IsRoom, IsExactRoom};

    ghost Value = { Received };

    ghost view = { λ e. record {
      flows = e.flows;
      body = e.body.items;
      lens = e.lens.items;
      cells = e.cells;
      body_room = e.body_room;
      packet_room = e.packet_room;
    } };

    ghost invariant = { λ e. IsRoom (vec_len e.body) e.body_room (vec_capacity e.body) × IsExactRoom (vec_len e.lens) e.packet_room (vec_capacity e.lens)
        × AreFull e.flows };
}

impl Egress {
    /// An output to which nothing has come, for `n` inputs, with a flow of each size, and room for
    /// `body_room` bytes and `packet_room` messages.
    pub(crate) fn make(
        alloc: Global,
        n: u32,
        sizes: &[u32],
        body_room: u64,
        packet_room: u32,
    ) -> Result<Egress, OutOfMemory>
        requires some { 0 < n }
        requires ports { n ≤ MAX_PORTS }
        requires flows { length sizes.now ≡ FLOWS_PER_INPUT * n }
        requires sizes { All (λ size. size ≤ MAX_MESSAGE_BYTES) sizes.now }
        ensures { IfOk result (λ r. r ≡ record {
          flows = record { ports = n; flows = map fresh sizes.now };
          body = [];
          lens = [];
          cells = 0;
          body_room = body_room;
          packet_room = packet_room;
        }) }
    {
        Ok(Egress {
            flows: Reassembly::make(alloc, n, sizes)?,
            body: Vec::with_capacity(alloc, body_room as usize)?,
            body_room: body_room as usize,
            lens: Vec::with_capacity(alloc, packet_room as usize)?,
            packet_room: packet_room as usize,
            cells: 0,
        })
    }

    /// Whether the cell, if any, may be put.
    pub(crate) fn may_take(&self, cell: &Option<Cell>) -> bool
        ensures { IsTrue result ↔ MayReceiveAny self.now cell.now }
    {
        match cell {
            Some(cell) => self.flows.fits(cell) && (!cell.last || self.has_room(cell)),
            None => true,
        }
    }

    // Whether the message that ends with the cell has room.
    fn has_room(&self, cell: &Cell) -> bool
        requires { Fits self.now.flows cell.now }
        ensures { IsTrue result ↔ ((length self.now.body + length (bytes_with (flow_of self.now.flows cell.now) cell.now) ≤ self.now.body_room)
            × (length self.now.lens < self.now.packet_room)) }
    {
        let len = PAYLOAD_BYTES * usize::from(cell.number) + usize::from(cell.used);
        len <= self.body_room - self.body.len() && self.lens.len() < self.packet_room
    }

    /// Puts the cell, if any. With a last one its message goes after those that are whole.
    #[tactic(auto, using(crate::proofs::Collecting::full_after))]
    pub(crate) fn take(&mut self, cell: &Option<Cell>)
        requires may { MayReceiveAny self.old cell.now }
        requires few { self.old.cells < MAX_SLOTS }
        ensures { self.new ≡ received_any self.old cell.now }
    {
        let Some(cell) = cell else {
            return;
        };
        self.cells += 1;
        if let Some(len) = put(&mut self.flows, cell, &mut self.body) {
            self.lens.push_reserved(len as u32);
        }
    }
}

impl Egress {
    /// What came, beside the counts of the packets that the card sent.
    pub(crate) fn finish(self, admitted: u32, dropped: u32) -> CardOut
        requires { length self.lens < 2 ^ 32 }
        ensures body { result.body.items ≡ self.body }
        ensures lens { result.lens.items ≡ self.lens }
        ensures packets { result.packets ≡ length self.lens }
        ensures cells { result.cells ≡ self.cells }
        ensures admitted { result.admitted ≡ admitted }
        ensures dropped { result.dropped ≡ dropped }
    {
        let Egress {
            flows: _,
            body,
            body_room: _,
            lens,
            packet_room: _,
            cells,
        } = self;
        CardOut {
            packets: lens.len() as u32,
            body,
            lens,
            cells,
            admitted,
            dropped,
        }
    }
}

// Puts the cell. With a last one its message is copied behind the bytes, which have room for it, and the
// answer is its length.
fn put(flows: &mut Reassembly, cell: &Cell, body: &mut Vec<u8>) -> Option<usize>
    requires fits { Fits flows.old cell.now }
    requires room { cell.now.last ≡ true → vec_len body.old + length (bytes_with (flow_of flows.old cell.now) cell.now) ≤ vec_capacity body.old }
    ensures flows { flows.new ≡ after_cell flows.old cell.now }
    ensures len { result ≡ (if cell.now.last then Some (length (bytes_with (flow_of flows.old cell.now) cell.now)) else None) }
    ensures body { body.new.items ≡ (if cell.now.last then body.old.items ++ bytes_with (flow_of flows.old cell.now) cell.now else body.old.items) }
    ensures room { vec_capacity body.old ≤ vec_capacity body.new }
{
    let done = flows.put(cell)?;
    let Ok(()) = body.extend_from_slice(done.message) else {
        unreachable!()
    };
    Some(done.message.len())
}
