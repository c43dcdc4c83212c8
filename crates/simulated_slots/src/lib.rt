//! The slots of a simulated switch: what a job says, and what each slot makes of the parts of a switch. Cells come by made
//! traffic, inputs in order; the slot is decided by the first cells of the queues; and what is served leaves, outputs in
//! order. Each part counts what a run tells of it.
#![tactic(auto)]

mod arbiter;
mod arrivals;
mod batch_table;
mod count_table;
mod departed;
mod discipline;
mod job;
mod limits;
mod slot_scheduler;

pub use arbiter::Arbiter;
pub use arrivals::{Arrivals, take_in};
pub use batch_table::BatchTable;
pub use count_table::CountTable;
pub use departed::Departed;
pub use discipline::Discipline;
pub use job::{Job, Settings};
pub use limits::{MAX_BATCHES, MAX_DEPTH, MAX_SEED, MAX_SLOTS, limits_are};
