//! When the packets of a capture come to their port: in which slot each is whole.
#![tactic(auto)]

mod arrival_slots;
mod fault;
pub mod laws;
mod pace;

pub use arrival_slots::{MAX_ARRIVAL_SLOTS, MAX_CAPTURE_PACKETS, arrivals};
pub use fault::PaceFault;
pub use pace::{MAX_LINE_RATE, MAX_SLOT_MICROS, Pace, Stamp};
