//! A turn lock: a value that one seat at a time works on, with one history of turns.
//!
//! A turn word says whether some seat is in a turn, a second word counts the turns, and one slot holds
//! the value. A try takes the turn word by one compare-exchange, and answers `Busy` where it is held:
//! no call waits. Each seat's acts stand once, in its order, in one history that begins with what the
//! seat had seen.
#![tactic(auto)]

mod close;
mod creation;
mod history;
mod kept;
mod rule;
mod seat;
mod steps;
mod turn;
mod view;

pub use history::TurnOf;
pub use kept::{Act, Kept};
pub use seat::{TurnSeat, TurnSeats};
pub use turn::{Busy, Turn};
