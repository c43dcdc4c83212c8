//! What takes note of a run, slot by slot as it goes.
#![tactic(auto)]

mod sinks;

pub use sinks::{NoSink, SlotSink};
