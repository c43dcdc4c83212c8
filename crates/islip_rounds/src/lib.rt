//! The rounds of iSLIP for one level of unicast, and the two kernels of every scheduler here: rows of
//! requests turned into columns, and the rotating choice of many ports at once.
//!
//! N. McKeown, "The iSLIP Scheduling Algorithm for Input-Queued Switches", IEEE/ACM Transactions on
//! Networking 7(2), 1999, section III.
//!
//! Rows of many ports are turned as a square of ports: 64 sets of 64 ports into its columns, by whole words, in six
//! exchanges. Each exchanges one bit of a row's number with the same bit of a column's, for all rows two by two.
#![tactic(auto)]

mod kernels;
pub mod laws;
mod numbers;
mod rounds;
mod slot;
mod square;
mod unicast;

pub use kernels::{picks, transpose};
pub use numbers::RoundsUsed;
pub use slot::islip_slot;
pub use square::turn_square;
pub use unicast::{UniMatch, UniPointers};
