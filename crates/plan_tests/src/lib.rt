//! Tests of line cards and plans: a card, slot by slot, how many cells wait in its queues, what is made and planned,
//! and what the reference switch may note.
#![tactic(auto)]

#[cfg(test)]
mod cards;
#[cfg(test)]
mod lengths;
#[cfg(test)]
mod plans;
#[cfg(test)]
mod references;
#[cfg(test)]
mod words;
