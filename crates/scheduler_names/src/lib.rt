//! The schedulers by the names that the command line has for them.
#![tactic(auto)]

mod names;

pub use names::SchedulerName;
