//! Which words are a job: a grammar of the words of `run`, `gen`, `check` and `firm`, and that the words are read by it.
#![tactic(auto)]

pub mod laws;
