//! The rotating pointers of a switch's scheduler.
#![tactic(auto)]

mod caller_tables;
mod pointers;

pub use caller_tables::PointerTables;
pub use pointers::Pointers;
