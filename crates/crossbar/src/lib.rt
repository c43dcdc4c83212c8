//! What crosses the switch in a slot: each input's deposit of one cell at most, from which the outputs
//! fetch as the match of the slot says.
//!
//! Beside it stand what a line card posts for a slot and what it takes of a decided one.
#![tactic(auto)]

mod cards;
mod deposits;
mod posted_rows;

pub use cards::{Post, Taken};
pub use deposits::Crossbar;
pub use posted_rows::put_rows;
