//! The whole command: from the words of a command line to the files that its job writes.
#![tactic(auto)]

mod captures;
mod command;
mod job_texts;
pub mod laws;
mod packets;
mod runs;
mod texts;

pub use command::switch_main;
pub use run_laws::Outcome;
pub use switch_jobs::{Ready, output_bytes, run_job, run_ready, run_ready_with};
