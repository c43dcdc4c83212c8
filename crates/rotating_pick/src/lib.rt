//! Ports, sets of ports and rotating choice: the words in which every other crate speaks.
//!
//! A switch has `n` ports, 0 to `n - 1`, each an input and an output. A set of ports is a word of
//! bits, and only this crate writes shifts and masks: all others see a set by its members.
#![tactic(auto)]

mod kinds;
mod limits;
mod memory;
mod port_set;
mod rotation;

pub use kinds::Kind;
pub use limits::{
    LEVEL_COUNT, LEVELS, MAX_FILE_BYTES, MAX_PORTS, MAX_ROUNDS, PORT_COUNT, limits_are,
};
pub use memory::OutOfMemory;
pub use port_set::{
    Ports, all, contains, difference, intersection, is_among, is_empty, is_subset, union, with,
    without,
};
pub use rotation::{dist, lowest, next, only, pick, rotate};
