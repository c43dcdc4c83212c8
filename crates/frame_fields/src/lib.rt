//! The fields of a frame that the switch reads: the IPv4 destination address.
#![tactic(auto)]

mod address;
pub mod laws;

pub use address::destination;
