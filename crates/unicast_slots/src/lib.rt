//! Slots of iSLIP for one level of unicast, over requests that are kept by rows and by columns from slot to slot.
#![tactic(auto)]

mod accepts;
mod grants;
mod moves;
mod rows;
mod scheduler;

pub use rows::UnicastRows;
pub use scheduler::UnicastScheduler;
