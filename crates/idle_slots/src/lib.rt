//! Slots in which no input asks for anything, and in which no packet arrives: nothing changes in them, so that a run can
//! go on with the next arrival.
#![tactic(auto)]

pub mod laws;
