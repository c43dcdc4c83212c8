//! Simulated runs: a job's slots, one after the other, and the numbers that are told of them.
#![tactic(auto)]

pub mod bounds;
mod fault;
pub mod laws;
mod numbers;
mod runs;
mod simulation;
mod slot_counts;
mod told;

pub use fault::SimulationFault;
pub use numbers::{BatchNumbers, Numbers, PERCENTILES, PortNumbers, WaitingNumbers};
pub use runs::simulate;
