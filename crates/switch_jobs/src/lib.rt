//! Runs a plan to its end: its line cards meet at a shared board, driven by workers on threads.
#![tactic(auto)]

mod captures;
mod ending;
mod groups;
pub mod jobs;
mod meters;
mod ready;
mod runs;
mod summaries;
mod workers;

pub use captures::{into_capture, output_bytes};
pub use meters::longest_of;
pub use ready::{Ready, Terms};
pub use runs::{run_job, run_ready, run_ready_with};
pub use summaries::sum_up;
