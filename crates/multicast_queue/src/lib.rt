//! The multicast queues of an input port: a queue of cells for each level.
//!
//! The head of a queue stays until each output of its fan-out was served. A queue is kept as a ring of
//! packet numbers with their fan-outs, and beside it stands the rest of the head's fan-out: a packet
//! enters and a cell leaves in constant time, and nothing but `make` takes memory.
#![tactic(auto)]

mod fan_queues;
mod queue;

pub use fan_queues::FanQueues;
