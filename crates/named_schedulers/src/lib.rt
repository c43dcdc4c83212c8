//! The schedulers of a switch, chosen by name.
#![tactic(auto)]

pub mod laws;
mod named;

pub use named::NamedScheduler;
