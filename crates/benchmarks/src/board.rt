//! How long a post and a take at the board are, where one thread drives all cards in turn with rows that
//! name nothing. The first touch of the board's memory is part of it.
ghost use Rattle.std.specs.Prelude.{◌≡◌, ◌<◌, ◌≤◌};
ghost use Rattle.turn_lock.specs.Seats.{AreSeats};

use crossbar::Post;
use rotating_pick::MAX_PORTS;
use slot_board::{Board, CardSeat, Seats};
use slot_match::Row;
use std::io;
use std::time::{Clock, Instant};

/// The slots of a board.
const SLOTS: u32 = 2_000;

/// How many boards are timed. The least time counts, since it was disturbed least.
const BOARDS: u32 = 5;

// One call of a card: the take of its slot where it has posted it, or else its next post.
fn drive(board: &Board, seat: &mut CardSeat)
    requires { seat.old.turn ≡ board.now }
    ensures { (seat.new.turn ≡ seat.old.turn) × (seat.new.number ≡ seat.old.number) }
{
    if seat.posted() {
        let _taken = board.try_take(seat);
    } else {
        post_nothing(board, seat);
    }
}

// A post of nothing for the card's next slot, where one is left.
fn post_nothing(board: &Board, seat: &mut CardSeat)
    requires { seat.old.turn ≡ board.now }
    ensures { (seat.new.turn ≡ seat.old.turn) × (seat.new.number ≡ seat.old.number) }
{
    let post = Post {
        row: Row::empty(),
        cell: None,
        more: true,
    };
    let left = !seat.posted() && !seat.done() && seat.slot() < board.max_slots();
    if left && seat.accepts(&post) {
        let _posted = board.try_post(seat, post);
    }
}

// One call of the card at the place.
fn drive_at(board: &Board, seats: &mut Seats, card: usize)
    requires { AreSeats board.now seats.old.items }
    ensures { AreSeats board.now seats.new.items }
{
    if card < seats.len() {
        let seat = &mut seats[card];
        drive(board, seat);
    }
}

// Makes `calls` calls of each card, one card after the other.
fn drive_in_turn(board: &Board, seats: &mut Seats, calls: u32)
    requires { AreSeats board.now seats.old.items }
    ensures { AreSeats board.now seats.new.items }
{
    for _ in 0..calls {
        for card in 0..seats.len() {
            drive_at(board, seats, card);
        }
    }
}

// The nanoseconds of all slots of one board, or None where there was no memory for it.
fn time_board<R: Clock + AllocGlobal>(rt: &R, n: u32) -> io::Result<Option<u128>>
    requires some { 0 < n }
    requires size { n ≤ MAX_PORTS }
{
    let Ok((board, mut seats)) = Board::make(rt.alloc(), n, 1, SLOTS) else {
        return Ok(None);
    };
    let begin = Instant::now(rt)?;
    drive_in_turn(&board, &mut seats, 2 * SLOTS);
    let end = Instant::now(rt)?;
    Ok(Some(end.duration_since(begin).as_nanos()))
}

// Times boards of `n` ports, and tells the least time.
fn time_boards<R: Clock + Eprint + AllocGlobal>(rt: &R, n: u32) -> io::Result<()>
    requires some { 0 < n }
    requires size { n ≤ MAX_PORTS }
{
    let mut least = u128::MAX;
    for _board in 0..BOARDS {
        if let Some(nanos) = time_board(rt, n)? {
            least = least.min(nanos);
        }
    }
    let slot = least / SLOTS as u128;
    let each = slot / n as u128;
    eprintln!(rt; "{n} ports: {slot} ns a slot, {each} ns a post and take")
}

/// Tells the time of a slot of boards with 2 to 64 ports.
pub(crate) fn time_all_boards<R: Clock + Eprint + AllocGlobal>(rt: &R) -> io::Result<()> {
    time_boards(rt, 2)?;
    time_boards(rt, 8)?;
    time_boards(rt, 16)?;
    time_boards(rt, 32)?;
    time_boards(rt, 64)
}
