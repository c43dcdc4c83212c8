//! The text of a simulation: the lines of its job and of its numbers.
#![tactic(auto)]

mod job_lines;
mod lines;
mod number_lines;
mod text;

pub use text::simulation_text;
