//! The run of a plan by packet descriptors, on one thread and under any of the schedulers.
//!
//! Queues keep the numbers of packets. No byte of a packet is touched until its last cell crosses: then its record is copied
//! from the bytes of its input to the end of each output's capture, where captures are kept.
#![tactic(auto)]

mod cell_names;
mod ends;
mod input_ports;
mod inputs;
mod outputs;
mod posts;
mod requests;
mod runs;
mod service;
mod switch;

pub use outputs::Captures;
pub use runs::{RunOutcome, run_by_descriptors};
