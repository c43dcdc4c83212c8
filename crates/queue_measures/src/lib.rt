//! What each queue of a run held: how many packets were for it, how many of these were dropped, and its greatest length.
//!
//! The sizing theorem stands beside it: one run in which nothing is dropped tells the depth of queues that is needed.
//! Its laws are about the runs of a plan and of the same plan with queues of another depth, under any scheduler.
#![tactic(auto)]

mod inputs;
pub mod laws;
mod measures;
mod numbers;
pub mod sizes;
mod text;

pub use measures::QueueMeasures;
pub use numbers::QueueNumbers;
