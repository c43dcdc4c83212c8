//! How long a queue can wait: a meter of waits, and the laws that bound them.
#![tactic(auto)]

mod bounds;
pub mod laws;
mod level_queues;
mod limits;
mod meter;

pub use bounds::{longest_service, longest_service_at_line_rate};
pub use limits::MAX_NOTED;
pub use meter::WaitMeter;
