//! Tests of packets, cells and queues: what the stored runs of `known_answers` and `known_queues` do not call.
#![tactic(auto)]

#[cfg(test)]
mod captures;
#[cfg(test)]
mod cells;
#[cfg(test)]
mod picks;
#[cfg(test)]
mod rings;
#[cfg(test)]
mod tables;
