//! The run of a plan against the ideal switch whose queues stand at the outputs.
#![tactic(auto)]

pub mod laws;
mod reference;

pub use reference::reference_of;
