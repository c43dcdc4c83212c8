//! Made traffic: for each input of a switch the output of the cell that comes in each slot, by loads, bursts and
//! patterns, from a seed. No scheduler is named here, so traffic is the same under all of them.
#![tactic(auto)]

mod limits;
mod pattern;
mod source;
mod streams;
mod traffic;

pub use limits::{MAX_BURST, MILLION, limits_are};
pub use pattern::Pattern;
pub use source::Source;
pub use streams::stream;
pub use traffic::Traffic;
