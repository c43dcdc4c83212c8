//! Slots under round-robin matching, and that it can starve a queue.
//!
//! It is where iSLIP starts (N. McKeown, "The iSLIP Scheduling Algorithm for Input-Queued Switches", IEEE/ACM
//! Transactions on Networking 7(2), 1999). A slot is that of `eslip_rounds` except for one rule: a unicast grant of the
//! first round moves the output's grant pointer beyond the input that was granted, whether or not the input accepted.
#![tactic(auto)]

pub mod laws;
mod slot;

pub use slot::{decide_rrm, decide_rrm_in, decide_rrm_over};
