//! The queues of a simulated switch. Of a cell that waits nothing is kept but the slot in which it came, and its port
//! where the queue does not tell it. All memory is taken before the first slot.
#![tactic(auto)]

mod cell;
mod limits;
mod queue;
mod queueing;
mod queues;

pub use cell::ArrivedCell;
pub use limits::{MAX_CELLS, limits_are};
pub use queueing::Queueing;
pub use queues::ArrivalQueues;
