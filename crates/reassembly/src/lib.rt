//! Cells become messages again at an output.
//!
//! A flow is the cells of one input, level and kind. Each has one buffer, in which the used bytes of
//! its cells are written in place; with its last cell a message is whole.
#![tactic(auto)]

mod assembly;
mod buffer;
mod cut_flows;
mod limits;
mod put_messages;

pub use assembly::{Finished, Reassembly};
pub use cut_flows::flow_is_cut;
pub use limits::FLOWS_PER_INPUT;
pub use put_messages::message_is_put;
