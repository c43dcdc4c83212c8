ghost use Rattle.std.specs.Prelude.{IfOk};
ghost use Rattle.turn_lock.specs.Seats.{AreSeats};

use crate::boards::helpers::{board_of, one_cell, post_at, post_of, take_at, take_often};
use rotating_pick::{Kind, OutOfMemory, Ports};
use slot_board::{Board, CardSeat, Seats};
use std::alloc::Global;
use std::test::Fail;

// The seats of a board of two on which card 0 asked for both outputs and was served output 0.
fn after_one_slot(alloc: Global) -> Result<(Board, Seats), OutOfMemory>
    ensures { IfOk result (λ made. AreSeats made.0 made.1.items) }
{
    let (board, mut seats) = board_of(alloc, 2, 4)?;
    post_at(&board, &mut seats, 0, post_of(0b11, None, true));
    post_at(&board, &mut seats, 1, post_of(0, None, true));
    take_at(&board, &mut seats, 0);
    take_at(&board, &mut seats, 1);
    Ok((board, seats))
}

// A post of card 0 after that slot, and whether its row keeps the last one and the board takes it.
#[derive(Clone, Copy)]
struct Next {
    outputs: Ports,
    cell: Option<Kind>,
    more: bool,
    keeps: bool,
    accepted: bool,
}

const NEXT: [Next; 7] = [
    Next {
        outputs: 0b10,
        cell: Some(Kind::Uni),
        more: true,
        keeps: true,
        accepted: true,
    },
    Next {
        outputs: 0b11,
        cell: Some(Kind::Uni),
        more: true,
        keeps: true,
        accepted: true,
    },
    // The output that was not served is dropped.
    Next {
        outputs: 0b01,
        cell: Some(Kind::Uni),
        more: true,
        keeps: false,
        accepted: false,
    },
    // No port of this number.
    Next {
        outputs: 0b110,
        cell: Some(Kind::Uni),
        more: true,
        keeps: true,
        accepted: false,
    },
    // The granted cell is missing.
    Next {
        outputs: 0b10,
        cell: None,
        more: true,
        keeps: true,
        accepted: false,
    },
    // A cell of the other kind was granted.
    Next {
        outputs: 0b10,
        cell: Some(Kind::Multi),
        more: true,
        keeps: true,
        accepted: false,
    },
    // An output is named, so more is to come.
    Next {
        outputs: 0b10,
        cell: Some(Kind::Uni),
        more: false,
        keeps: true,
        accepted: false,
    },
];

#[test]
fn a_seat_tells_which_posts_are_accepted(rt: HostRuntime) -> Result<(), Fail> {
    let (board, mut seats) = after_one_slot(rt.alloc())?;
    for next in NEXT {
        let post = post_of(next.outputs, next.cell.map(one_cell), next.more);
        let seat = &seats[0];
        assert!(rt; !seat.posted());
        assert_eq!(rt; seat.keeps(&post.row), next.keeps);
        assert_eq!(rt; seat.accepts(&post), next.accepted);
    }
    board.close(seats);
    Ok(())
}

// What a seat tells: its card, its slot, whether it has posted that and is done, and the turns that it has seen.
fn told_by(seat: &CardSeat) -> (u32, u32, bool, bool, u64) {
    (
        seat.card(),
        seat.slot(),
        seat.posted(),
        seat.done(),
        seat.front(),
    )
}

// Whether the card at the place is due.
fn due_at(board: &Board, seats: &Seats, card: usize) -> bool
    requires { AreSeats board.now seats.now.items }
{
    card < seats.len() && seats[card].is_due(board)
}

#[test]
fn a_seat_tells_where_its_card_stands(rt: HostRuntime) -> Result<(), Fail> {
    let (board, mut seats) = board_of(rt.alloc(), 2, 4)?;
    let nothing = post_of(0, None, false);
    assert_eq!(rt; board.max_slots(), 4);
    assert!(rt; seats.len() == 2);
    assert_eq!(rt; told_by(&seats[0]), (0, 0, false, false, 0));
    assert!(rt; due_at(&board, &seats, 0));
    assert!(rt; post_at(&board, &mut seats, 0, nothing));
    assert!(rt; post_at(&board, &mut seats, 1, nothing));
    assert!(rt; seats.len() == 2);
    assert_eq!(rt; told_by(&seats[0]), (0, 0, true, false, 1));
    assert_eq!(rt; told_by(&seats[1]), (1, 0, true, false, 2));
    assert!(rt; take_at(&board, &mut seats, 0).is_some());
    assert!(rt; seats.len() == 2);
    assert_eq!(rt; told_by(&seats[0]), (0, 1, false, true, 3));
    assert!(rt; !due_at(&board, &seats, 0) && due_at(&board, &seats, 1));
    board.close(seats);
    Ok(())
}

#[test]
fn the_least_of_the_due_cards_is_told(rt: HostRuntime) -> Result<(), Fail> {
    let (board, mut seats) = after_one_slot(rt.alloc())?;
    let cell = Some(one_cell(Kind::Uni));
    assert!(rt; post_at(&board, &mut seats, 0, post_of(0b10, cell, true)));
    take_often(&board, &mut seats, 0, 2);
    assert!(rt; post_at(&board, &mut seats, 1, post_of(0, None, true)));
    take_at(&board, &mut seats, 0);
    take_at(&board, &mut seats, 1);
    assert!(rt; post_at(&board, &mut seats, 1, post_of(0, None, true)));
    take_often(&board, &mut seats, 1, 3);
    let journal = board.close(seats).journal();
    assert_eq!(rt; journal.slots(), 2);
    assert_eq!(rt; journal.least_refused(), 2);
    Ok(())
}
