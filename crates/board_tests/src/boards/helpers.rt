ghost use Rattle.std.specs.Prelude.{◌≡◌, ◌<◌, ◌≤◌, IfOk};
ghost use Rattle.turn_lock.specs.Seats.{AreSeats};

use cell_cutter::{Cell, PAYLOAD_BYTES};
use crossbar::{Post, Taken};
use rotating_pick::{Kind, MAX_PORTS, OutOfMemory, Ports};
use slot_board::{Board, CardSeat, MAX_SLOTS_WIDE, Seats, TakeWait};
use slot_match::{Row, Served};
use std::alloc::Global;

// A post of unicast at level 0.
pub(crate) fn post_of(outputs: Ports, cell: Option<Cell>, more: bool) -> Post {
    let mut row = Row::empty();
    row.uni[0] = outputs;
    Post { row, cell, more }
}

// The one cell of a message of one byte, from input 0 at level 0.
pub(crate) fn one_cell(kind: Kind) -> Cell {
    let mut payload = [0; PAYLOAD_BYTES];
    payload[0] = 7;
    Cell {
        input: 0,
        level: 0,
        kind,
        last: true,
        used: 1,
        number: 0,
        payload,
    }
}

// Unicast of level 0 to these outputs.
pub(crate) fn served(outputs: Ports) -> Option<Served> {
    Some(Served {
        outputs,
        level: 0,
        kind: Kind::Uni,
    })
}

// A board of one round a slot.
pub(crate) fn board_of(alloc: Global, n: u32, max_slots: u32) -> Result<(Board, Seats), OutOfMemory>
    requires ports { (0 < n) × (n ≤ MAX_PORTS) }
    requires slots { (0 < max_slots) × (max_slots ≤ MAX_SLOTS_WIDE) }
    ensures { IfOk result (λ made. AreSeats made.0 made.1.items) }
{
    Board::make(alloc, n, 1, max_slots)
}

// Whether the card has posted: it may post, its post is accepted, and the board was free.
pub(crate) fn posts(board: &Board, seat: &mut CardSeat, post: Post) -> bool
    requires { seat.old.turn ≡ board.now }
    ensures { (seat.new.turn ≡ seat.old.turn) × (seat.new.number ≡ seat.old.number) }
{
    if seat.posted() || seat.done() || seat.slot() >= board.max_slots() || !seat.accepts(&post) {
        return false;
    }
    board.try_post(seat, post).is_ok()
}

// What a try to take gives, None where the card has not posted.
pub(crate) fn takes(board: &Board, seat: &mut CardSeat) -> Option<Result<Taken, TakeWait>>
    requires { seat.old.turn ≡ board.now }
    ensures { (seat.new.turn ≡ seat.old.turn) × (seat.new.number ≡ seat.old.number) }
{
    if !seat.posted() {
        return None;
    }
    Some(board.try_take(seat))
}

// The same with the seat of a card.
pub(crate) fn post_at(board: &Board, seats: &mut Seats, card: usize, post: Post) -> bool
    requires { AreSeats board.now seats.old.items }
    ensures { AreSeats board.now seats.new.items }
{
    if card >= seats.len() {
        return false;
    }
    let seat = &mut seats[card];
    posts(board, seat, post)
}

pub(crate) fn take_at(
    board: &Board,
    seats: &mut Seats,
    card: usize,
) -> Option<Result<Taken, TakeWait>>
    requires { AreSeats board.now seats.old.items }
    ensures { AreSeats board.now seats.new.items }
{
    if card >= seats.len() {
        return None;
    }
    let seat = &mut seats[card];
    takes(board, seat)
}

// Makes `tries` tries of a card to take.
pub(crate) fn take_often(board: &Board, seats: &mut Seats, card: usize, tries: u32)
    requires { AreSeats board.now seats.old.items }
    ensures { AreSeats board.now seats.new.items }
{
    for _ in 0..tries {
        take_at(board, seats, card);
    }
}
