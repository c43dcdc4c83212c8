//! What can happen at the board of a switch, as lists of events: which lists are legal, what each event
//! answers, and that the order in which the line cards come does not matter.
//!
//! A line card posts its requests for a slot, a slot that all cards have posted is decided, and each
//! card takes its part of the decided slot.
#![tactic(auto)]

mod events;
pub mod laws;

pub use events::{Answer, Event};
