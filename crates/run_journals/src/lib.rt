//! The journal of a run under any scheduler: what its file tells, and a law that it is lawful.
#![tactic(auto)]

pub mod laws;
