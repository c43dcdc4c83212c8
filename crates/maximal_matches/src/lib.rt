//! What the match of a slot leaves out: when it is maximal, what more rounds match, and who is served while a request
//! waits.
#![tactic(auto)]

pub mod laws;
