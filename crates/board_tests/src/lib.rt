//! Tests of the board: the crossbar, the state of a board, turns, and the board as its cards call it.
#![tactic(auto)]

#[cfg(test)]
mod boards;
#[cfg(test)]
mod crossings;
#[cfg(test)]
mod states;
#[cfg(test)]
mod turns;
