//! When each packet of a run left: the packets file, and how its rows add up.
#![tactic(auto)]

mod ends;
mod fields;
mod flow_counts;
mod inputs;
pub mod laws;
mod limits;
mod most;
mod pieces;
mod rows;
mod state;
mod times;
mod walk;

pub use limits::{MAX_PACKETS_BYTES, limits_are};
pub use pieces::PacketRows;
pub use state::PacketState;
pub use times::PacketTimes;
