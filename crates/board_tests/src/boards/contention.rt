ghost use Rattle.turn_lock.specs.Seats.{AreSeats};

use crate::boards::contention::Turn::{E, P, T};
use crate::boards::helpers::{board_of, one_cell, post_at, post_of, served, take_at, take_often};
use crate::boards::slots::{compare_journal, part_of};
use crossbar::{Post, Taken};
use rotating_pick::{Kind, Ports};
use slot_board::{Board, Seats, TakeWait};
use std::process::Abort;
use std::test::Fail;

#[test]
fn takes_before_and_after_the_other_post(rt: HostRuntime) -> Result<(), Fail> {
    // How often card 1 takes, and the least of the due cards.
    for (takes, least) in [(0, 0), (1, u64::MAX)] {
        let (board, mut seats) = board_of(rt.alloc(), 2, 4)?;
        let nothing = post_of(0, None, false);
        assert!(rt; post_at(&board, &mut seats, 0, nothing));
        let early = TakeWait::NotYet { posted: 0b01 };
        assert_eq!(rt; take_at(&board, &mut seats, 0), Some(Err(early)));
        assert!(rt; post_at(&board, &mut seats, 1, nothing));
        let taken = Taken {
            slot: 0,
            served: None,
            cell: None,
            done: true,
        };
        assert_eq!(rt; take_at(&board, &mut seats, 0), Some(Ok(taken)));
        take_often(&board, &mut seats, 1, takes);
        let journal = board.close(seats).journal();
        assert_eq!(rt; journal.slots(), 1);
        assert_eq!(rt; journal.least_refused(), least);
    }
    Ok(())
}

#[test]
fn a_late_take_gets_its_own_slots_part(rt: HostRuntime) -> Result<(), Fail> {
    let (board, mut seats) = board_of(rt.alloc(), 2, 4)?;
    let cell = one_cell(Kind::Uni);
    assert!(rt; post_at(&board, &mut seats, 0, post_of(0b10, None, true)));
    assert!(rt; post_at(&board, &mut seats, 1, post_of(0, None, true)));
    let first = Taken {
        slot: 0,
        served: served(0b10),
        cell: None,
        done: false,
    };
    assert_eq!(rt; take_at(&board, &mut seats, 0), Some(Ok(first)));
    assert!(rt; post_at(&board, &mut seats, 0, post_of(0, Some(cell), false)));
    let late = Taken {
        slot: 0,
        served: None,
        cell: None,
        done: false,
    };
    assert_eq!(rt; take_at(&board, &mut seats, 1), Some(Ok(late)));
    assert!(rt; post_at(&board, &mut seats, 1, post_of(0, None, false)));
    let last = Taken {
        slot: 1,
        served: None,
        cell: Some(cell),
        done: true,
    };
    assert_eq!(rt; take_at(&board, &mut seats, 1), Some(Ok(last)));
    assert!(rt; !post_at(&board, &mut seats, 1, post_of(0, None, false)));
    let own = Taken { cell: None, ..last };
    assert_eq!(rt; take_at(&board, &mut seats, 0), Some(Ok(own)));
    let journal = board.close(seats).journal();
    assert_eq!(rt; journal.slots(), 2);
    assert_eq!(rt; journal.least_refused(), u64::MAX);
    Ok(())
}

// A card posts its next slot, takes its slot, or tries to take it too early.
#[derive(Clone, Copy, Debug)]
enum Turn {
    P(usize),
    T(usize),
    E(usize),
}

// The turns of three cards in three slots, in a row up to the last post of each slot and one after them. One
// card tries to take too early, and these have posted then.
#[derive(Clone, Copy)]
struct Order {
    posted: Ports,
    turns: [&'static [Turn]; 4],
}

const ORDERS: [Order; 6] = [
    Order {
        posted: 0b001,
        turns: [
            &[P(0), E(0), P(2), P(1)],
            &[T(0), P(0), T(2), T(1), P(2), P(1)],
            &[T(0), P(0), T(2), T(1), P(2), P(1)],
            &[T(0), T(2), T(1)],
        ],
    },
    Order {
        posted: 0b101,
        turns: [
            &[P(2), P(0), P(1)],
            &[T(2), P(2), T(1), T(0), P(0), E(0), P(1)],
            &[T(2), P(2), T(1), T(0), P(0), P(1)],
            &[T(2), T(1), T(0)],
        ],
    },
    Order {
        posted: 0b010,
        turns: [
            &[P(1), P(0), P(2)],
            &[T(1), P(1), T(0), T(2), P(0), P(2)],
            &[T(1), P(1), E(1), T(0), T(2), P(0), P(2)],
            &[T(1), T(0), T(2)],
        ],
    },
    Order {
        posted: 0b011,
        turns: [
            &[P(0), P(1), E(0), P(2)],
            &[T(0), T(2), P(0), T(1), P(1), P(2)],
            &[T(0), T(2), P(0), T(1), P(1), P(2)],
            &[T(0), T(2), T(1)],
        ],
    },
    Order {
        posted: 0b100,
        turns: [
            &[P(2), P(1), P(0)],
            &[T(2), P(2), E(2), T(1), P(1), T(0), P(0)],
            &[T(2), P(2), T(1), P(1), T(0), P(0)],
            &[T(2), T(1), T(0)],
        ],
    },
    Order {
        posted: 0b110,
        turns: [
            &[P(1), P(2), E(2), P(0)],
            &[T(1), P(1), T(0), T(2), P(2), P(0)],
            &[T(1), P(1), T(0), T(2), P(2), P(0)],
            &[T(1), T(0), T(2)],
        ],
    },
];

#[test]
fn six_orders_make_one_journal(rt: HostRuntime) -> Result<(), Fail> {
    for order in ORDERS {
        let (board, mut seats) = board_of(rt.alloc(), 3, 4)?;
        take_all_turns(&rt, &board, &mut seats, &order);
        compare_journal(&rt, &board.close(seats).journal());
    }
    Ok(())
}

fn take_all_turns(rt: &impl Abort, board: &Board, seats: &mut Seats, order: &Order)
    requires { AreSeats board.now seats.old.items }
    ensures { AreSeats board.now seats.new.items }
{
    for turns in order.turns {
        take_turns(rt, board, seats, turns, order.posted);
    }
}

fn take_turns(rt: &impl Abort, board: &Board, seats: &mut Seats, turns: &[Turn], posted: Ports)
    requires { AreSeats board.now seats.old.items }
    ensures { AreSeats board.now seats.new.items }
{
    for turn in turns {
        assert!(rt; goes_as_it_should(board, seats, *turn, posted), "{turn:?}");
    }
}

// Whether the turn gives what it should.
fn goes_as_it_should(board: &Board, seats: &mut Seats, turn: Turn, posted: Ports) -> bool
    requires { AreSeats board.now seats.old.items }
    ensures { AreSeats board.now seats.new.items }
{
    match turn {
        P(card) => posts_next(board, seats, card),
        T(card) => takes_own(board, seats, card),
        E(card) => take_at(board, seats, card) == Some(Err(TakeWait::NotYet { posted })),
    }
}

fn posts_next(board: &Board, seats: &mut Seats, card: usize) -> bool
    requires { AreSeats board.now seats.old.items }
    ensures { AreSeats board.now seats.new.items }
{
    match part_of(seats, card) {
        Some(part) => post_at(board, seats, card, part.post),
        None => false,
    }
}

fn takes_own(board: &Board, seats: &mut Seats, card: usize) -> bool
    requires { AreSeats board.now seats.old.items }
    ensures { AreSeats board.now seats.new.items }
{
    match part_of(seats, card) {
        Some(part) => take_at(board, seats, card) == Some(Ok(part.taken)),
        None => false,
    }
}
