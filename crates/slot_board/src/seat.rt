ghost use Rattle.std.specs.Prelude.{◌≡◌, ◌<◌, ◌≤◌, ◌↔◌, [], length, vec_capacity, IsTrue};
ghost use Rattle.slot_match.specs.Keeping.{KeepsRest, Gives};
ghost use Rattle.slot_board.specs.Columns.{IsBoard};
ghost use Rattle.slot_board.specs.Calls.{IsSeat};
ghost use Rattle.slot_board.specs.Seats.{setup_at, slot_of, IsPosted, is_done, is_due, last_row, last_served, Accepts};

use crate::acts::KeptState;
use crate::board::Board;
use board_state::is_accepted;
use crossbar::Post;
use slot_match::{Row, Served};
use std::marker::Model;
use turn_lock::{TurnSeat, TurnSeats};

/// All seats of a board, by card.
pub type Seats = Vec<CardSeat>;

/// The seat of one line card at the board. It knows its card's slot, what the card posted last and what
/// it was served last, and counts its refused tries.
///
/// Contracts see the seat of the turn lock: the board's turn lock, the card's number and the turns that
/// the seat has seen.
#[derive(Drop)]
pub struct CardSeat {
    pub(crate) seat: TurnSeat<KeptState>,
    pub(crate) ports: u32,
    pub(crate) card: u32,
    pub(crate) slot: u32,
    pub(crate) posted: bool,
    pub(crate) done: bool,
    // The row of the last post.
    pub(crate) last: Row,
    // What the card was served in the slot that it took last.
    pub(crate) served: Option<Served>,
    // How many tries were refused, up to the last value of a `u64`.
    pub(crate) refused: u64,
    // In the first seat the room for the list of all seats that the close hands to the turn lock.
    pub(crate) room: TurnSeats<KeptState>,
}

impl Model for CardSeat {
    ghost use Rattle.std.specs.Prelude.{vec_capacity};
    ghost use Rattle.slot_histories.specs.declared.events.Event.{Event};
    ghost use Rattle.turn_lock.specs.Seats.{SeatValue};
    ghost use Rattle.slot_board.specs.ColumnSteps.{IsCardSeat};

    ghost Value = { SeatValue Event };

    ghost view = { λ s. s.seat };

    ghost invariant = { λ s. IsCardSeat s.seat s.ports s.card s.slot s.posted s.done s.last s.served s.refused s.room.items (vec_capacity s.room) };
}

impl CardSeat {
    /// The card's number, that of its input and output.
    pub fn card(&self) -> u32
        ensures { result ≡ self.now.number }
    {
        self.card
    }

    /// The seat is one of a board's, what it has seen is legal there, and its column tells its slot,
    /// whether it is done, its last row and what it was served last.
    pub fn legal(&self)
        ensures { IsSeat self.now }
    {
        // Reads a field: that tells the proof what the type says of its value.
        let _ = &self.card;
    }

    /// The slot that the card has posted and not taken, or else the one that it posts next.
    pub fn slot(&self) -> u32
        ensures { result ≡ slot_of self.now }
    {
        self.slot
    }

    /// Whether the card has posted its slot, and not taken it yet.
    pub fn posted(&self) -> bool
        ensures { IsTrue result ↔ IsPosted self.now }
    {
        self.posted
    }

    /// Whether the card has taken the last slot of the run.
    pub fn done(&self) -> bool
        ensures { result ≡ is_done self.now }
    {
        self.done
    }

    /// Whether the card is due at its board: it has posted its slot, or is not done and a slot is left.
    pub fn is_due(&self, board: &Board) -> bool
        requires { self.now.turn ≡ board.now }
        ensures { result ≡ is_due self.now }
    {
        self.posted || (!self.done && self.slot < board.max_slots)
    }

    /// The number of turns of all seats that this seat has seen. After a turn of its own these are all
    /// turns up to and with that one.
    pub fn front(&self) -> u64
        ensures { result ≡ length self.now.seen }
    {
        self.seat.front()
    }

    /// Whether the row, as the card's next, keeps what the card posted for the slot before and was not
    /// served there.
    pub fn keeps(&self, row: &Row) -> bool
        requires { IsPosted self.now → ⊥ }
        ensures { IsTrue result ↔ KeepsRest (Gives (last_served self.now)) (last_row self.now) row.now }
    {
        row.keeps(&self.last, self.served)
    }

    /// Whether the board takes this post as the card's next.
    pub fn accepts(&self, post: &Post) -> bool
        requires { IsPosted self.now → ⊥ }
        ensures { IsTrue result ↔ Accepts self.now post.now }
    {
        is_accepted(self.ports, self.card, &self.last, self.served, post)
    }
}
