use crate::states::builders::{
    NOTHING, PORTS, Step, cell, decides, last_post, make_all, one_round, post, posts, taken, takes,
    takes_last, uni,
};
use board_state::{BoardState, Journal};
use cell_cutter::Cell;
use rotating_pick::{Kind, Ports};
use slot_histories::{Answer, Event};
use slot_match::Fed;
use std::process::Abort;
use std::test::Fail;

const BOTH: Ports = 0b11;

const fn own_cell() -> Option<Cell> {
    cell(0, Kind::Uni, 1)
}

// The posts of slot 0, in which input 0 is served output 0 and nothing else is matched.
const fn first_post(card: u32) -> Event {
    post(card, uni(BOTH), None)
}

const fn first_take(card: u32) -> Step {
    takes(card, taken(0, if card == 0 { 0b01 } else { 0 }, None))
}

// The posts of slot 1, in which input 0 is served output 1, and input 1 output 0.
const fn second_post(card: u32) -> Event {
    post(card, uni(BOTH), if card == 0 { own_cell() } else { None })
}

// Card 0 is that of output 0, to which its own cell crosses.
const fn second_take(card: u32) -> Step {
    if card == 0 {
        takes(card, taken(1, 0b10, own_cell()))
    } else {
        takes(card, taken(1, 0b01, None))
    }
}

const fn in_one_order() -> [Step; 10] {
    [
        posts(first_post(0)),
        posts(first_post(1)),
        decides(1),
        first_take(0),
        first_take(1),
        posts(second_post(1)),
        posts(second_post(0)),
        decides(2),
        second_take(1),
        second_take(0),
    ]
}

const fn in_another_order() -> [Step; 10] {
    [
        posts(first_post(1)),
        posts(first_post(0)),
        decides(1),
        first_take(1),
        posts(second_post(1)),
        first_take(0),
        posts(second_post(0)),
        decides(2),
        second_take(0),
        second_take(1),
    ]
}

// Compares what fed the two outputs in the slot, and what was posted for it.
fn compare_slot(
    rt: &impl Abort,
    journal: &Journal,
    slot: u32,
    inputs: [Option<u32>; 2],
    posted: [Event; 2],
) {
    assert!(rt; journal.ports() == PORTS && slot < journal.slots());
    let matched = journal.decided(slot);
    for output in 0..PORTS {
        let fed = inputs[output as usize].map(|input| Fed {
            input,
            level: 0,
            kind: Kind::Uni,
        });
        assert_eq!(rt; matched.fed(output), fed, "output {output} in slot {slot}");
        let event = Event::Post {
            card: output,
            post: journal.posts(slot)[output as usize],
        };
        assert_eq!(rt; event, posted[output as usize]);
    }
}

// In both orders each card takes the same, and the journal is one.
#[test]
fn lists_in_two_orders(rt: HostRuntime) -> Result<(), Fail> {
    for steps in [in_one_order(), in_another_order()] {
        let mut board = BoardState::make(rt.alloc(), PORTS, 1, 3)?;
        make_all(&rt, &mut board, &steps);
        let journal = board.journal();
        assert_eq!(rt; (journal.slots(), journal.events()), (2, 10));
        let first_posts = [first_post(0), first_post(1)];
        compare_slot(&rt, &journal, 0, [Some(0), None], first_posts);
        let second_posts = [second_post(0), second_post(1)];
        compare_slot(&rt, &journal, 1, [Some(1), Some(0)], second_posts);
        assert!(rt; journal.slots() == 2);
        assert!(rt; journal.used(0) == one_round(1));
        assert!(rt; journal.used(1) == one_round(2));
    }
    Ok(())
}

// Makes the event by the call of its kind, where it may come, and compares what a take answers.
fn make_by_kind(rt: &impl Abort, board: &mut BoardState, step: &Step) {
    match step.event {
        Event::Post { card, post } => {
            assert!(rt; board.may_put(card, &post));
            board.put(card, &post);
        }
        Event::Decide => {
            assert!(rt; board.may_settle());
            board.settle();
        }
        Event::Take { card } => {
            assert!(rt; board.may_draw(card));
            let taken = board.draw(card);
            assert!(rt; Answer::Took(taken) == step.answer);
        }
    }
}

#[test]
fn calls_of_each_kind_make_the_list(rt: HostRuntime) -> Result<(), Fail> {
    let mut board = BoardState::make(rt.alloc(), PORTS, 1, 3)?;
    assert!(rt; !board.may_settle() && !board.may_draw(0));
    for step in in_one_order() {
        make_by_kind(&rt, &mut board, &step);
    }
    let journal = board.journal();
    assert_eq!(rt; (journal.slots(), journal.events()), (2, 10));
    let second_posts = [second_post(0), second_post(1)];
    compare_slot(&rt, &journal, 1, [Some(1), Some(0)], second_posts);
    Ok(())
}

const fn posts_nothing(card: u32) -> Step {
    posts(post(card, NOTHING, None))
}

// Card 0 is served its own output twice, and takes slot 1 after card 1 has posted slot 2.
const fn to_itself(earlier: Option<Cell>, later: Option<Cell>) -> [Step; 15] {
    [
        posts(post(0, uni(0b01), None)),
        posts_nothing(1),
        decides(1),
        takes(0, taken(0, 0b01, None)),
        takes(1, taken(0, 0, None)),
        posts(post(0, uni(0b01), earlier)),
        posts_nothing(1),
        decides(1),
        takes(1, taken(1, 0, None)),
        posts(last_post(1, None)),
        takes(0, taken(1, 0b01, earlier)),
        posts(last_post(0, later)),
        decides(0),
        takes_last(0, 2, later),
        takes_last(1, 2, None),
    ]
}

// Card 1 feeds output 0 twice, and has posted the later cell when card 0 takes slot 1.
const fn from_the_other(earlier: Option<Cell>, later: Option<Cell>) -> [Step; 15] {
    [
        posts_nothing(0),
        posts(post(1, uni(0b01), None)),
        decides(1),
        takes(0, taken(0, 0, None)),
        takes(1, taken(0, 0b01, None)),
        posts_nothing(0),
        posts(post(1, uni(0b01), earlier)),
        decides(1),
        takes(1, taken(1, 0b01, None)),
        posts(last_post(1, later)),
        takes(0, taken(1, 0, earlier)),
        posts(last_post(0, None)),
        decides(0),
        takes_last(0, 2, later),
        takes_last(1, 2, None),
    ]
}

#[test]
fn late_take_gets_its_own_cell(rt: HostRuntime) -> Result<(), Fail> {
    let lists = [
        to_itself(cell(0, Kind::Uni, 1), cell(0, Kind::Uni, 2)),
        from_the_other(cell(1, Kind::Uni, 1), cell(1, Kind::Uni, 2)),
    ];
    for steps in lists {
        let mut board = BoardState::make(rt.alloc(), PORTS, 1, 3)?;
        make_all(&rt, &mut board, &steps);
        assert!(rt; board.finished());
    }
    Ok(())
}
