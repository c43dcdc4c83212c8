//! What each slot of a run adds to the captures of its outputs, by the names of cells alone.
#![tactic(auto)]

pub mod laws;
