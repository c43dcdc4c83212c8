ghost use Rattle.std.specs.Prelude.{◌≡◌};

use board_state::BoardState;
use cell_cutter::{Cell, PAYLOAD_BYTES};
use crossbar::{Post, Taken};
use islip_rounds::RoundsUsed;
use rotating_pick::{Kind, LEVELS, Ports};
use slot_histories::{Answer, Event};
use slot_match::{Row, Served};
use std::process::Abort;

pub(crate) const PORTS: u32 = 2;

const NO_PORTS: [Ports; LEVELS as usize] = [0; LEVELS as usize];

/// A row that names no output.
pub(crate) const NOTHING: Row = Row {
    uni: NO_PORTS,
    multi: NO_PORTS,
};

// A row of unicast at level 0.
pub(crate) const fn uni(outputs: Ports) -> Row {
    Row {
        uni: [outputs, 0, 0, 0],
        multi: NO_PORTS,
    }
}

// A row of a multicast head at level 0.
pub(crate) const fn multi(outputs: Ports) -> Row {
    Row {
        uni: NO_PORTS,
        multi: [outputs, 0, 0, 0],
    }
}

// A full cell of level 0 that is not the last of its message; its payload repeats the number.
pub(crate) const fn cell(input: u8, kind: Kind, number: u8) -> Option<Cell> {
    Some(Cell {
        input,
        level: 0,
        kind,
        last: false,
        used: PAYLOAD_BYTES as u8,
        number: number as u16,
        payload: [number; PAYLOAD_BYTES],
    })
}

// A post of a card that has more.
pub(crate) const fn post(card: u32, row: Row, cell: Option<Cell>) -> Event {
    Event::Post {
        card,
        post: Post {
            row,
            cell,
            more: true,
        },
    }
}

// A post of a card that has no more.
pub(crate) const fn last_post(card: u32, cell: Option<Cell>) -> Event {
    Event::Post {
        card,
        post: Post {
            row: NOTHING,
            cell,
            more: false,
        },
    }
}

pub(crate) const fn take(card: u32) -> Event {
    Event::Take { card }
}

// An event, and what it answers.
#[derive(Clone, Copy)]
pub(crate) struct Step {
    pub(crate) event: Event,
    pub(crate) answer: Answer,
}

pub(crate) const fn posts(event: Event) -> Step {
    Step {
        event,
        answer: Answer::Posted,
    }
}

// How one round is used that matches this number of outputs.
pub(crate) const fn one_round(matched: u32) -> RoundsUsed {
    RoundsUsed {
        used: if matched == 0 { 0 } else { 1 },
        first: matched,
        last_added: matched,
    }
}

// A decision of a slot in one round that matches this number of outputs.
pub(crate) const fn decides(matched: u32) -> Step {
    Step {
        event: Event::Decide,
        answer: Answer::Decided(one_round(matched)),
    }
}

// What a card takes of a slot that is not done, which served the outputs as unicast of level 0, or none.
pub(crate) const fn taken(slot: u32, outputs: Ports, cell: Option<Cell>) -> Taken {
    let served = Served {
        outputs,
        level: 0,
        kind: Kind::Uni,
    };
    Taken {
        slot,
        served: if outputs == 0 { None } else { Some(served) },
        cell,
        done: false,
    }
}

pub(crate) const fn takes(card: u32, taken: Taken) -> Step {
    Step {
        event: take(card),
        answer: Answer::Took(taken),
    }
}

// A take of the last slot, which served no output.
pub(crate) const fn takes_last(card: u32, slot: u32, cell: Option<Cell>) -> Step {
    let last = Taken {
        slot,
        served: None,
        cell,
        done: true,
    };
    takes(card, last)
}

// Makes the events, each of which may come, and compares what they answer.
pub(crate) fn make_all(rt: &impl Abort, board: &mut BoardState, steps: &[Step])
    ensures { board.new.setup ≡ board.old.setup }
{
    for step in steps {
        assert!(rt; board.may(&step.event), "{:?}", step.event);
        let answer = board.step(step.event);
        assert!(rt; answer == step.answer, "{:?}: {answer:?}", step.event);
    }
}
