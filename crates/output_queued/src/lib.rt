//! A run against the ideal switch, whose queues stand at the outputs: it takes in all cells of a slot, and
//! gives one out at each output at which one waits.
#![tactic(auto)]

mod coming;
mod entries;
mod inputs;
pub mod laws;
mod line;
mod reference;
mod rooms;
mod size_checks;
mod tally;
mod text;

pub use coming::Coming;
pub use line::RefLine;
pub use reference::Reference;
pub use text::reference_text;
