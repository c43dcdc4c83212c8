//! Tests of what the schedulers work on: rows, matches, pointers, squares of ports, and their names. What they decide
//! are rows of the stored run of `known_answers`.
#![tactic(auto)]

#[cfg(test)]
mod matches;
#[cfg(test)]
mod names;
#[cfg(test)]
mod pointers;
#[cfg(test)]
mod rows;
#[cfg(test)]
mod squares;
