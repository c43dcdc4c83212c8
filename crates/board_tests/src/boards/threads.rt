ghost use Rattle.std.specs.Prelude.{◌≡◌};
ghost use Rattle.turn_lock.specs.Seats.{AreSeats};

use crate::boards::helpers::{board_of, post_of, posts, takes};
use slot_board::{Board, CardSeat, Seats};
use std::test::Fail;
use std::thread;
use std::thread::Threads;

fn is_shared<T: Sync>(_value: &T) {}

fn is_sent<T: Send>(_value: &T) {}

// A board may be shared, and seats may be sent.
fn crosses_threads(board: &Board, seat: &CardSeat) {
    is_shared(board);
    is_sent(board);
    is_sent(seat);
}

// The slots of the run on two threads, and how often each card tries there.
const SLOTS: u32 = 300;

const TRIES: u32 = 1_000;

// Makes `tries` tries of a card to post that it has nothing yet, or to take.
fn drive(board: &Board, seat: &mut CardSeat, tries: u32)
    requires { seat.old.turn ≡ board.now }
    ensures { (seat.new.turn ≡ seat.old.turn) × (seat.new.number ≡ seat.old.number) }
{
    for _ in 0..tries {
        if seat.posted() {
            takes(board, seat);
        } else {
            posts(board, seat, post_of(0, None, true));
        }
    }
}

// The cards try at once, each on a thread.
fn drive_all<R: Threads + Sync>(rt: &R, board: &Board, seats: &mut [CardSeat])
    requires { AreSeats board.now seats.old }
    ensures { AreSeats board.now seats.new }
{
    thread::for_each_mut(rt, seats, 2, &|_, seat| drive(board, seat, TRIES));
}

// The cards try one after the other, `times` times.
fn drive_in_turn(board: &Board, seats: &mut Seats, times: u32)
    requires { AreSeats board.now seats.old.items }
    ensures { AreSeats board.now seats.new.items }
{
    for _ in 0..times {
        for card in 0..seats.len() {
            drive_at(board, seats, card);
        }
    }
}

// One try of the card.
fn drive_at(board: &Board, seats: &mut Seats, card: usize)
    requires { AreSeats board.now seats.old.items }
    ensures { AreSeats board.now seats.new.items }
{
    if card < seats.len() {
        let seat = &mut seats[card];
        drive(board, seat, 1);
    }
}

#[test]
fn two_threads_make_one_journal(rt: HostRuntime) -> Result<(), Fail> {
    let (board, mut seats) = board_of(rt.alloc(), 2, SLOTS)?;
    crosses_threads(&board, &seats[0]);
    drive_all(&rt, &board, &mut seats);
    drive_in_turn(&board, &mut seats, 4 * SLOTS);
    let journal = board.close(seats).journal();
    assert_eq!(rt; journal.slots(), SLOTS);
    // Two posts, a decision and two takings a slot.
    assert_eq!(rt; journal.events(), 1_500);
    let nothing = post_of(0, None, true);
    for slot in 0..journal.slots() {
        assert!(rt; journal.posts(slot).iter().all(|post| *post == nothing));
    }
    // All slots are posted and taken, so no card is due.
    assert_eq!(rt; journal.least_refused(), u64::MAX);
    Ok(())
}
