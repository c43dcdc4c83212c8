//! A board that line cards on several threads share: each card posts for its slots and takes its parts of
//! the decided ones, through a seat of its own.
//!
//! A turn lock lets one card at a time work on the board's state, so the events of all cards stand in one
//! history. No call waits: a card that does not get the board, or whose slot is not decided yet, is told
//! so, and may try again. Only `Board::make` takes memory.
#![tactic(auto)]

mod acts;
mod board;
mod close;
mod journal;
pub mod laws;
mod new_seats;
mod seat;
mod state;
mod waits;

pub use board::Board;
pub use board_state::{CardBook, MAX_SLOTS, MAX_SLOTS_WIDE};
pub use journal::Journal;
pub use seat::{CardSeat, Seats};
pub use slot_histories::{Answer, Event};
pub use state::BoardState;
pub use waits::TakeWait;
