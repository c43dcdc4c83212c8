//! Laws of the runs of a plan under each scheduler, and what is promised of a run under FIRM.
#![tactic(auto)]

pub mod laws;
