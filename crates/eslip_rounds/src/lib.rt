//! The decision of a slot: rounds of request, grant and accept over four levels, unicast and multicast.
//!
//! Unicast is scheduled by prioritized iSLIP (N. McKeown, IEEE/ACM Transactions on Networking 7(2),
//! 1999, section VI). Multicast, the kind that a slot prefers and the shared pointers are rules of
//! this project, in the manner of ESLIP.
#![tactic(auto)]

mod accepts;
mod asks;
mod columns;
mod grants;
pub mod laws;
mod moves;
mod ranks;
mod refusals;
mod rounds;
mod slot;

pub use columns::Columns;
pub use refusals::Refused;
pub use slot::{
    Scratch, decide, decide_in, decide_over, decide_over_with_refused, decide_with_refused,
};
