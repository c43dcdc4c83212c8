//! That each job has one outcome: whatever the bytes of its table and captures are, it makes one list of texts, or it is
//! refused for one cause. Laws of jobs, and of what they read, that stand on definitions alone.
#![tactic(auto)]

pub mod laws;
