//! The whole command of a simulated switch: from the words of a command line to the text of its numbers.
#![tactic(auto)]

mod command;
mod error_lines;
mod fault;

pub use command::simulate_main;
pub use fault::CommandFault;
