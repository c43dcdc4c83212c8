use crate::states::builders::{
    NOTHING, PORTS, decides, last_post, make_all, one_round, post, posts, takes_last,
};
use board_state::{BoardState, CardBook};
use std::process::Abort;
use std::test::Fail;

const UNPOSTED: CardBook = CardBook {
    card: 1,
    slot: 0,
    posted: false,
    done: false,
};

// Where a card stands before and after it posts, and after it took a slot that is done.
#[test]
fn books_tell_where_cards_stand(rt: HostRuntime) -> Result<(), Fail> {
    let mut board = BoardState::make(rt.alloc(), PORTS, 1, 2)?;
    assert_eq!(rt; board.book(1), UNPOSTED);
    assert_eq!(rt; board.posted(), 0);
    make_all(&rt, &mut board, &[posts(last_post(1, None))]);
    assert_eq!(rt; board.posted(), 0b10);
    let posted = CardBook {
        posted: true,
        ..UNPOSTED
    };
    assert_eq!(rt; board.book(1), posted);
    let rest = [
        posts(last_post(0, None)),
        decides(0),
        takes_last(1, 0, None),
    ];
    make_all(&rt, &mut board, &rest);
    let done = CardBook {
        slot: 1,
        done: true,
        ..UNPOSTED
    };
    assert_eq!(rt; board.book(1), done);
    assert!(rt; !board.finished());
    make_all(&rt, &mut board, &[takes_last(0, 0, None)]);
    assert!(rt; board.finished());
    // After a slot that is done no card posts.
    assert!(rt; !board.may(&post(0, NOTHING, None)));
    Ok(())
}

// What a board and its journal tell of themselves.
#[test]
fn boards_tell_what_they_were_made_for(rt: HostRuntime) -> Result<(), Fail> {
    let mut board = BoardState::make(rt.alloc(), PORTS, 1, 2)?;
    board.legal();
    assert_eq!(rt;
        (board.ports(), board.rounds(), board.max_slots()),
        (2, 1, 2)
    );
    assert_eq!(rt; (board.decided_slots(), board.events()), (0, 0));
    let steps = [
        posts(last_post(0, None)),
        posts(last_post(1, None)),
        decides(0),
    ];
    make_all(&rt, &mut board, &steps);
    assert_eq!(rt; (board.decided_slots(), board.events()), (1, 3));
    let journal = board.journal();
    journal.legal();
    assert_eq!(rt;
        (journal.ports(), journal.rounds(), journal.max_slots()),
        (2, 1, 2)
    );
    assert_eq!(rt; (journal.slots(), journal.events()), (1, 3));
    assert!(rt; 0 < journal.slots());
    assert_eq!(rt; journal.posts(0).len(), 2);
    assert_eq!(rt; journal.decided(0).ports(), 2);
    assert!(rt; journal.used(0) == one_round(0));
    Ok(())
}
