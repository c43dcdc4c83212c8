//! What the inputs of a switch post in a slot, and which of them the slot matches with which outputs.
#![tactic(auto)]

mod feeds;
pub mod laws;
mod marks;
mod matching;
mod parts;
mod rows;

pub use matching::{Fed, Match, Served};
pub use rows::{Row, are_within};
