ghost use Rattle.std.specs.Prelude.{◌≡◌, ◌≤◌, ◌<◌, ℕ, Some, slice_get, length};
ghost use Rattle.turn_lock.specs.Seats.{AreSeats};
ghost use Rattle.slot_histories.specs.Answers.{journal_of};
ghost use Rattle.slot_histories.specs.Columns.{column_of};
ghost use Rattle.board_state.specs.JournalRows.{AreJournalRows};
ghost use Rattle.slot_board.specs.Seats.{setup_at, column_at, due_tries};
ghost use Rattle.slot_board.specs.Boards.{least_refused, IsClosed};

use crate::acts::KeptState;
use crate::board::Board;
use crate::seat::{CardSeat, Seats};
use crate::state::BoardState;
use turn_lock::TurnSeats;

impl Board {
    /// Hands out the board's state, which stands for all that the cards did, with the least of the due
    /// cards' refused tries. A card is due where it has posted its slot and not taken it, or where it has
    /// not taken the last slot of the run and a slot is left to post; where none is due, or the least is
    /// more than a `u64` holds, it is the last value of a `u64`. The rows of the decided slots are within
    /// the ports, and are kept until they are served.
    pub fn close(self, seats: Seats) -> BoardState
        requires { AreSeats self seats.items }
        ensures closed { IsClosed self seats.items result }
        ensures columns { (i : ℕ) (s : _) → slice_get seats.items i ≡ Some s → column_of result.setup i result.events ≡ column_at s }
        ensures rows { AreJournalRows result.setup.ports (journal_of result.setup result.events) }
    {
        let least = least_refused(&seats, &self);
        let Board { turn, .. } = self;
        let KeptState { state } = turn.close(turn_seats(seats));
        let state = Box::into_inner(state);
        let closed = BoardState {
            state,
            refused: least,
        };
        closed.legal();
        closed
    }
}

// The least of the due cards' refused tries, the last value of a `u64` where none is due.
fn least_refused(seats: &[CardSeat], board: &Board) -> u64
    requires { (i : ℕ) (s : _) → slice_get seats.now i ≡ Some s → s.turn ≡ board.now }
    ensures { result ≡ least_refused seats.now }
{
    let mut least = u64::MAX;
    for seat in seats {
        let tries = due_tries(seat, board);
        if tries < least {
            least = tries;
        }
    }
    least
}

// The card's refused tries where it is due, else the last value of a `u64`.
fn due_tries(seat: &CardSeat, board: &Board) -> u64
    requires { seat.now.turn ≡ board.now }
    ensures { result ≡ due_tries seat.now }
{
    if seat.is_due(board) {
        seat.refused
    } else {
        u64::MAX
    }
}

// The seats of the turn lock, in the list that the first seat has room for.
fn turn_seats(seats: Seats) -> TurnSeats<KeptState>
    requires some { 0 < length seats.items }
    requires first { (s : _) → slice_get seats.items 0 ≡ Some s → (s.number ≡ 0) × (length seats.items ≤ (setup_at s).ports) }
    ensures { result.items ≡ seats.items }
{
    let mut rest = seats;
    let first = rest.remove(0);
    let CardSeat {
        seat,
        room: mut list,
        ..
    } = first;
    list.push_reserved(seat);
    for next in rest {
        let CardSeat { seat, .. } = next;
        list.push_reserved(seat);
    }
    list
}
