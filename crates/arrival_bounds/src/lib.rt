//! Buffers and delays before the run: how long a cell waits at most, and how many cells wait, in a switch whose matches
//! are maximal, from how cells may arrive alone.
#![tactic(auto)]

pub mod counts;
pub mod runs;
