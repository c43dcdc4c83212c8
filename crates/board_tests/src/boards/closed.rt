use crate::boards::helpers::{board_of, post_at, post_of};
use crossbar::Taken;
use slot_board::{Answer, BoardState, CardBook, Event};
use std::process::Abort;
use std::test::Fail;

// Makes an event, which may come.
fn make(rt: &impl Abort, state: &mut BoardState, event: Event) -> Answer {
    assert!(rt; state.may(&event));
    state.step(event)
}

const TAKEN: Taken = Taken {
    slot: 0,
    served: None,
    cell: None,
    done: true,
};

#[test]
fn a_closed_board_goes_on(rt: HostRuntime) -> Result<(), Fail> {
    let (board, mut seats) = board_of(rt.alloc(), 2, 4)?;
    let nothing = post_of(0, None, false);
    assert!(rt; post_at(&board, &mut seats, 0, nothing));
    let mut state = board.close(seats);
    assert_eq!(rt;
        (state.ports(), state.rounds(), state.max_slots()),
        (2, 1, 4)
    );
    assert_eq!(rt;
        (state.posted(), state.events(), state.decided_slots()),
        (0b01, 1, 0)
    );
    let post = Event::Post {
        card: 1,
        post: nothing,
    };
    assert_eq!(rt; make(&rt, &mut state, post), Answer::Posted);
    make(&rt, &mut state, Event::Decide);
    let take = Event::Take { card: 0 };
    assert_eq!(rt; make(&rt, &mut state, take), Answer::Took(TAKEN));
    assert!(rt; 0 < state.ports());
    let book = CardBook {
        card: 0,
        slot: 1,
        posted: false,
        done: true,
    };
    assert_eq!(rt; state.book(0), book);
    assert!(rt; !state.finished());
    make(&rt, &mut state, Event::Take { card: 1 });
    assert!(rt; state.finished());
    let journal = state.journal();
    assert_eq!(rt; (journal.rounds(), journal.max_slots()), (1, 4));
    // Card 0 had posted and card 1 was to post, and neither was refused.
    assert_eq!(rt; journal.least_refused(), 0);
    assert_eq!(rt; (journal.slots(), journal.events()), (1, 5));
    Ok(())
}

#[test]
fn a_closed_board_goes_on_by_calls_of_each_kind(rt: HostRuntime) -> Result<(), Fail> {
    let (board, mut seats) = board_of(rt.alloc(), 2, 4)?;
    let nothing = post_of(0, None, false);
    assert!(rt; post_at(&board, &mut seats, 0, nothing));
    let mut state = board.close(seats);
    assert!(rt; !state.may_settle() && !state.may_draw(0));
    let event = Event::Post {
        card: 1,
        post: nothing,
    };
    assert!(rt; state.may(&event));
    state.put(1, &nothing);
    assert!(rt; state.may_settle());
    state.settle();
    assert!(rt; state.may_draw(0));
    assert_eq!(rt; state.draw(0), TAKEN);
    assert_eq!(rt; (state.events(), state.decided_slots()), (4, 1));
    Ok(())
}
