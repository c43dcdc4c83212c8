//! The virtual output queues of an input port: a queue of unicast cells for each output and level.
//!
//! A queue is a list of cells by their names, kept as a ring of packets. For each level stands the set
//! of outputs that cells wait for.
//!
//! A packet's cells are counted in a ring and not listed, so a packet enters and a cell leaves in constant time, and
//! nothing but `make` takes memory. Beside each cell stands what the queue keeps of its packet: the fan-out where the
//! queue is multicast, nothing where it is unicast.
#![tactic(auto)]

mod banks;
mod limits;
mod ring;

pub use banks::Banks;
pub use limits::{MAX_DEPTH, MAX_QUEUE_PACKETS, limits_are};
pub use ring::{CellRing, QueuedCell};
