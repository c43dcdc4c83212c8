use cell_cutter::{Cell, PAYLOAD_BYTES};
use crossbar::{Post, Taken};
use islip_rounds::RoundsUsed;
use rotating_pick::{Kind, LEVELS, Ports};
use slot_board::{CardSeat, Journal};
use slot_match::{Fed, Row, Served};
use std::process::Abort;

const CARD_COUNT: u32 = 3;

const LAST_SLOT: u32 = 2;

const SLOT_COUNT: u32 = LAST_SLOT + 1;

// What a card posts for a slot, and takes of it.
#[derive(Clone, Copy)]
pub(crate) struct Part {
    pub(crate) post: Post,
    pub(crate) taken: Taken,
}

impl Part {
    const fn new(post: Post, taken: Taken) -> Part {
        Part { post, taken }
    }
}

// The parts of the cards, the input that feeds each output, and how the rounds were used.
#[derive(Clone, Copy)]
struct Slot {
    parts: [Part; CARD_COUNT as usize],
    inputs: [Option<u32>; CARD_COUNT as usize],
    numbers: RoundsUsed,
}

const NONE: [Ports; LEVELS as usize] = [0; LEVELS as usize];

// A multicast head of level 0, no head where there is no output, and the cell that was granted.
const fn multicast(outputs: Ports, cell: Option<Cell>, more: bool) -> Post {
    let row = Row {
        uni: NONE,
        multi: [outputs, 0, 0, 0],
    };
    Post { row, cell, more }
}

// The one cell of a packet of 20 bytes at time 0: a header of IPv4 from 10.0.0.9 to 10.0.`net`.1.
const fn packet_cell(input: u8, net: u8) -> Option<Cell> {
    Some(Cell {
        input,
        level: 0,
        kind: Kind::Multi,
        last: true,
        used: 36,
        number: 0,
        payload: [
            0, 0, 0, 0, 0, 0, 0, 0, 0, 0, 0, 20, 0, 0, 0, 20, 0x45, 0, 0, 0x14, 0, 0, 0, 0, 0x40,
            0xfd, 0, 0, 10, 0, 0, 9, 10, 0, net, 1, 0, 0, 0, 0, 0, 0, 0, 0, 0, 0, 0, 0, 0, 0, 0, 0,
            0, 0, 0, 0,
        ],
    })
}

const fn takes(slot: u32, outputs: Ports, cell: Option<Cell>) -> Taken {
    let served = Served {
        outputs,
        level: 0,
        kind: Kind::Multi,
    };
    Taken {
        slot,
        served: if outputs == 0 { None } else { Some(served) },
        cell,
        done: slot == LAST_SLOT,
    }
}

// One round that matched this number of outputs, or added none.
const fn matched(first: u32) -> RoundsUsed {
    RoundsUsed {
        used: if first == 0 { 0 } else { 1 },
        first,
        last_added: first,
    }
}

// The cells of cards 0 and 1 cross to two outputs each, that of card 1 to one after the other.
const fn slots() -> [Slot; SLOT_COUNT as usize] {
    let nothing = multicast(0, None, false);
    let from_0 = packet_cell(0, 9);
    let from_1 = packet_cell(1, 8);
    [
        Slot {
            parts: [
                Part::new(multicast(0b011, None, true), takes(0, 0b011, None)),
                Part::new(multicast(0b110, None, true), takes(0, 0b100, None)),
                Part::new(nothing, takes(0, 0, None)),
            ],
            inputs: [Some(0), Some(0), Some(1)],
            numbers: matched(3),
        },
        Slot {
            parts: [
                Part::new(multicast(0, from_0, false), takes(1, 0, from_0)),
                Part::new(multicast(0b010, from_1, true), takes(1, 0b010, from_0)),
                Part::new(nothing, takes(1, 0, from_1)),
            ],
            inputs: [None, Some(1), None],
            numbers: matched(1),
        },
        Slot {
            parts: [
                Part::new(nothing, takes(2, 0, None)),
                Part::new(multicast(0, from_1, false), takes(2, 0, from_1)),
                Part::new(nothing, takes(2, 0, None)),
            ],
            inputs: [None, None, None],
            numbers: matched(0),
        },
    ]
}

// The card's part of its slot.
pub(crate) fn part_of(seats: &[CardSeat], card: usize) -> Option<Part> {
    let slots = slots();
    let slot = slots.get(seats.get(card)?.slot() as usize)?;
    slot.parts.get(card).copied()
}

// Compares the journal with the slots.
pub(crate) fn compare_journal(rt: &impl Abort, journal: &Journal) {
    // Nine posts, three decisions and nine takes: a try that comes too early is no event.
    assert_eq!(rt; journal.events(), 21);
    assert_eq!(rt; journal.least_refused(), u64::MAX);
    assert_eq!(rt; journal.slots(), SLOT_COUNT);
    for slot in 0..SLOT_COUNT {
        compare_slot(rt, journal, slot);
    }
}

fn compare_slot(rt: &impl Abort, journal: &Journal, slot: u32) {
    assert!(rt; slot < SLOT_COUNT && slot < journal.slots());
    let Slot {
        parts,
        inputs,
        numbers,
    } = slots()[slot as usize];
    let posts = parts.map(|part| part.post);
    assert_eq!(rt; journal.posts(slot), posts.as_slice());
    assert_eq!(rt; journal.used(slot), numbers);
    for output in 0..CARD_COUNT {
        let fed = inputs[output as usize].map(|input| Fed {
            input,
            level: 0,
            kind: Kind::Multi,
        });
        assert!(rt; output < journal.ports());
        assert_eq!(rt;
            journal.decided(slot).fed(output),
            fed,
            "output {output} of slot {slot}"
        );
    }
}
