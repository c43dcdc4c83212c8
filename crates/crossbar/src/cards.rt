use cell_cutter::Cell;
use slot_match::{Row, Served};

/// What a line card posts in a slot.
#[derive(Clone, Copy, Debug, PartialEq, Eq)]
pub struct Post {
    /// The outputs for which cells wait at its input.
    pub row: Row,
    /// The cell that was granted to its input in the slot before, None where none was.
    pub cell: Option<Cell>,
    /// Whether more is to come: a packet that has not arrived, or a cell that waits.
    pub more: bool,
}

/// What a line card takes of a decided slot.
#[derive(Clone, Copy, Debug, PartialEq, Eq)]
pub struct Taken {
    /// The slot's number, from 0 on.
    pub slot: u32,
    /// What the slot's match gives its input, None where it is matched with no output.
    pub served: Option<Served>,
    /// The cell that crossed to its output, None where none did.
    pub cell: Option<Cell>,
    /// Whether this is the last slot of the run.
    pub done: bool,
}
