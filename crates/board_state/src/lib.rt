//! The state of a switch's board: what the line cards posted, what each slot decided, and the journal.
//!
//! All that it makes follows from its list of events and the definitions of `slot_histories`. Its
//! memory is taken when it is made: no event takes any.
#![tactic(auto)]

mod acceptance;
mod books;
mod counts;
mod journal;
mod limits;
mod posts;
mod state;

pub use acceptance::is_accepted;
pub use books::CardBook;
pub use journal::Journal;
pub use limits::{MAX_SLOTS, MAX_SLOTS_WIDE, limits_are};
pub use state::BoardState;
