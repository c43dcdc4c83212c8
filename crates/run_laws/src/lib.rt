//! The run of a switch over its plan: a function of the plan alone, slot by slot. Laws say that a board
//! on which the cards of the plan act makes this run, where it ends, what it delivers, and how long a
//! queue waits.
//!
//! Under any scheduler they say what a run leaves, its numbers and what leaves by each output, and when each packet leaves
//! by each of its outputs.
#![tactic(auto)]

pub mod boards;
pub mod deliveries;
pub mod departures;
pub mod ends;
pub mod numbers;
mod outcome;
pub mod slots;
pub mod waits;

pub use outcome::Outcome;
