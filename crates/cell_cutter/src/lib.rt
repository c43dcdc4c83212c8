//! Packets as messages, and messages as the cells of fixed size that cross the switch.
//!
//! A packet's message is a header of 16 bytes and its captured bytes. A cell is 8 bytes of header and
//! 56 bytes of payload; a message's cells are by place and length alone, so each can be cut by itself,
//! with no copy of the message.
#![tactic(auto)]

mod cell;
mod cutter;
mod joined_cells;
mod sizes;

pub use cell::{Cell, CellName};
pub use cutter::{Packet, cells_of, cut};
pub use joined_cells::cells_join;
pub use sizes::{
    CELL_BYTES, CELL_HEADER_BYTES, MAX_CAPTURED_BYTES, MAX_CAPTURED_CELLS, MAX_FORWARDED_BYTES,
    MAX_FORWARDED_CELLS, MAX_MESSAGE_BYTES, MAX_NUMBER, MESSAGE_HEADER_BYTES, PAYLOAD_BYTES,
    sizes_are,
};
