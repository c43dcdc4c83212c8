//! Parallel iterative matching: a slot is decided in rounds of request, grant and accept, in which each port that has a
//! choice takes any with the same chance, by random words.
#![tactic(auto)]

pub mod laws;
mod matching;
mod members;
mod picks;

pub use picks::{PICKS_STREAM, RandomPicks};
