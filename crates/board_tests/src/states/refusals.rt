use crate::states::builders::{NOTHING, PORTS, cell, last_post, multi, post, take, uni};
use board_state::{BoardState, MAX_SLOTS, is_accepted};
use crossbar::Post;
use rotating_pick::Kind;
use slot_histories::Event;
use slot_match::Row;
use std::alloc::Global;
use std::process::Abort;
use std::test::Fail;

// Whether an event may come after the first `after` of a board's events.
#[derive(Clone, Copy)]
struct Case {
    after: usize,
    next: Event,
    may: bool,
}

const fn may(after: usize, next: Event) -> Case {
    Case {
        after,
        next,
        may: true,
    }
}

const fn refuses(after: usize, next: Event) -> Case {
    Case {
        after,
        next,
        may: false,
    }
}

// Makes the first of the events on a board of two ports and `max_slots` slots, and asks for one more.
fn check(
    rt: &impl Abort,
    alloc: Global,
    max_slots: u32,
    events: &[Event],
    cases: &[Case],
) -> Result<(), Fail> {
    assert!(rt; 0 < max_slots && max_slots <= MAX_SLOTS);
    for (row, case) in cases.iter().enumerate() {
        let mut board = BoardState::make(alloc, PORTS, 1, max_slots)?;
        assert!(rt; case.after <= events.len());
        for event in &events[..case.after] {
            assert!(rt; board.may(event), "{event:?}");
            let _answer = board.step(*event);
        }
        assert_eq!(rt; board.may(&case.next), case.may, "row {row}");
    }
    Ok(())
}

#[test]
fn events_out_of_turn_are_refused(rt: HostRuntime) -> Result<(), Fail> {
    let ask = post(0, uni(0b11), None);
    let asks = [
        ask,
        post(1, uni(0b11), None),
        Event::Decide,
        take(0),
        take(1),
    ];
    let cases = [
        refuses(1, Event::Decide),
        refuses(1, ask),
        refuses(2, ask),
        refuses(3, ask),
        refuses(2, take(0)),
        // Output 0 was not served.
        refuses(5, post(1, uni(0b10), None)),
    ];
    check(&rt, rt.alloc(), 3, &asks, &cases)
}

#[test]
fn only_some_events_may_come(rt: HostRuntime) -> Result<(), Fail> {
    let ask = post(0, uni(0b10), None);
    let asks = [ask, post(1, NOTHING, None), Event::Decide, take(0), take(1)];
    let next = post(0, NOTHING, cell(0, Kind::Uni, 0));
    let end = Post {
        row: uni(0b10),
        cell: None,
        more: false,
    };
    let cases = [
        may(0, ask),
        may(0, last_post(0, None)),
        // A card that is none, a row beyond the ports, a cell where none was served, and no more to come
        // where an output is named.
        refuses(0, post(2, NOTHING, None)),
        refuses(0, post(0, uni(0b100), None)),
        refuses(0, next),
        refuses(0, Event::Post { card: 0, post: end }),
        // A second post before the take, and takes and decisions that come early.
        refuses(1, ask),
        refuses(1, Event::Decide),
        refuses(2, take(0)),
        refuses(2, take(2)),
        may(2, Event::Decide),
        refuses(3, Event::Decide),
        refuses(3, next),
        may(3, take(0)),
        refuses(4, take(0)),
        // What was served comes, and nothing else.
        may(5, next),
        refuses(5, post(0, NOTHING, None)),
        refuses(5, post(0, NOTHING, cell(1, Kind::Uni, 0))),
        refuses(5, post(0, NOTHING, cell(0, Kind::Multi, 0))),
        may(5, last_post(1, None)),
    ];
    check(&rt, rt.alloc(), 2, &asks, &cases)?;
    // There is no slot left.
    check(&rt, rt.alloc(), 1, &asks, &[refuses(5, next)])
}

// Input 0 accepts output 0, and output 1 waits.
#[test]
fn waiting_outputs_are_kept(rt: HostRuntime) -> Result<(), Fail> {
    let granted = cell(0, Kind::Uni, 0);
    let both = [
        post(0, uni(0b11), None),
        post(1, NOTHING, None),
        Event::Decide,
        take(0),
    ];
    let cases = [
        may(4, post(0, uni(0b10), granted)),
        may(4, post(0, uni(0b11), granted)),
        refuses(4, post(0, uni(0b01), granted)),
        refuses(4, post(0, NOTHING, granted)),
    ];
    check(&rt, rt.alloc(), 2, &both, &cases)
}

// Output 0 grants the unicast of input 1, and input 0's head goes to output 1 alone.
#[test]
fn rest_of_a_head_is_kept(rt: HostRuntime) -> Result<(), Fail> {
    let granted = cell(0, Kind::Multi, 0);
    let head = [
        post(0, multi(0b11), None),
        post(1, uni(0b01), None),
        Event::Decide,
        take(0),
    ];
    let cases = [
        may(4, post(0, multi(0b01), granted)),
        refuses(4, post(0, multi(0b11), granted)),
        refuses(4, post(0, NOTHING, granted)),
        refuses(4, post(0, multi(0b01), cell(0, Kind::Uni, 0))),
    ];
    check(&rt, rt.alloc(), 2, &head, &cases)
}

// A card that has not posted yet may ask for an output, and posts no cell.
#[test]
fn first_post_is_accepted(rt: HostRuntime) {
    let none = Row::empty();
    let ask = Post {
        row: uni(0b10),
        cell: None,
        more: true,
    };
    assert!(rt; is_accepted(PORTS, 0, &none, None, &ask));
    let cell = cell(0, Kind::Uni, 0);
    assert!(rt; !is_accepted(PORTS, 0, &none, None, &Post { cell, ..ask }));
}
