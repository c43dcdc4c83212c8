//! The words of a simulation, behind the command: which job a list of words means, and whether each delay is counted.
//!
//! ```text
//! SEED SLOTS PORTS        0 to 1,000,000,000; 1 to 4,000,000,000; 1 to 64
//!
//! --scheduler NAME        islip, firm, rrm, pim, fifo or ideal    islip
//! --rounds R              rounds of a slot, 1 to 64            4
//! --load-ppm P            cells of an input in a million slots, 0 to 1,000,000    900,000
//! --burst B               mean cells of a burst, 1 to 4,096    1
//! --pattern NAME          uniform, diagonal, log-diagonal, hot-spot or unbalanced    uniform
//! --weight-ppm W          0 to 1,000,000, with hot-spot and unbalanced alone
//! --depth D               cells of a queue, 1 to 1,048,576     4,096
//! --warm-up S             slots that are not measured, fewer than SLOTS    SLOTS / 10
//! --batches K             1 to 1,000                           10
//! --histogram             count each delay
//! ```
#![tactic(auto)]

mod defaults;
mod reader;

pub use defaults::{
    DEFAULT_BATCHES, DEFAULT_BURST, DEFAULT_DEPTH, DEFAULT_LOAD, DEFAULT_ROUNDS, defaults_are,
};
pub use reader::{SimulationWords, read_words};
