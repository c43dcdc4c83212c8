use super::{IDLE, Job};
use cell_cutter::CELL_HEADER_BYTES;
use rotating_pick::{Kind, Ports};
use slot_match::Served;

// The idle job with three ports.
const IDLE_OF_3: Job<'static> = Job {
    n: 3,
    flows: 24,
    ..IDLE
};

/// What a card posts in a slot, and what it takes. A cell that is posted is named by its header.
#[derive(Clone, Copy)]
pub(super) struct Slot {
    pub(super) uni: [Ports; 4],
    pub(super) multi: [Ports; 4],
    pub(super) cell: Option<[u8; CELL_HEADER_BYTES]>,
    pub(super) more: bool,
    pub(super) served: Option<Served>,
    /// Whether the cell that is posted crosses to the card's own output.
    pub(super) crosses: bool,
}

// Nothing waits, and more is to come.
const BEFORE: Slot = Slot {
    uni: [0; 4],
    multi: [0; 4],
    cell: None,
    more: true,
    served: None,
    crosses: false,
};

// No more is to come.
const AFTER: Slot = Slot {
    more: false,
    ..BEFORE
};

// A queue is served to output 0 or 1 at level 0, or to output 1 at level 2.
const TO_0: Option<Served> = Some(Served {
    outputs: 1,
    level: 0,
    kind: Kind::Uni,
});

const TO_1: Option<Served> = Some(Served {
    outputs: 2,
    level: 0,
    kind: Kind::Uni,
});

const TO_1_AT_2: Option<Served> = Some(Served {
    outputs: 2,
    level: 2,
    kind: Kind::Uni,
});

// A multicast head is served to output 1, or to outputs 0 and 2.
const HEAD_TO_1: Option<Served> = Some(Served {
    outputs: 2,
    level: 0,
    kind: Kind::Multi,
});

const HEAD_TO_0_AND_2: Option<Served> = Some(Served {
    outputs: 5,
    level: 0,
    kind: Kind::Multi,
});

/// A card follows the slots from slot 0 on, and is done with the last. Then `counts` are its admitted and dropped
/// packets, and the messages and cells that came to its output; `body` has these messages, and `lens` their lengths.
#[derive(Clone, Copy)]
pub(super) struct Script<'a> {
    pub(super) what: &'a str,
    pub(super) job: Job<'a>,
    pub(super) slots: &'a [Slot],
    pub(super) counts: (u32, u32, u32, u32),
    pub(super) lens: &'a [u32],
    pub(super) body: &'a [u8],
}

pub(super) const ONE_PACKET: Script<'static> = Script {
    what: "a packet of two cells goes to output 1",
    job: Job {
        packets: &[(0, 60, 1, 2, 0)],
        ..IDLE
    },
    slots: &[
        BEFORE,
        Slot {
            uni: [2, 0, 0, 0],
            served: TO_1,
            ..BEFORE
        },
        Slot {
            uni: [2, 0, 0, 0],
            cell: Some([0, 0, 0, 0, 56, 0, 0, 0]),
            served: TO_1,
            ..BEFORE
        },
        Slot {
            cell: Some([0, 0, 0, 1, 20, 0, 0, 1]),
            ..AFTER
        },
    ],
    counts: (1, 0, 0, 0),
    lens: &[],
    body: &[],
};

pub(super) const TWO_LEVELS: Script<'static> = Script {
    what: "a packet of level 0 overtakes one of level 2",
    job: Job {
        packets: &[(0, 100, 2, 2, 2), (100, 20, 3, 2, 0)],
        ..IDLE
    },
    slots: &[
        BEFORE,
        BEFORE,
        Slot {
            uni: [0, 0, 2, 0],
            served: TO_1_AT_2,
            ..BEFORE
        },
        Slot {
            uni: [2, 0, 2, 0],
            cell: Some([0, 2, 0, 0, 56, 0, 0, 0]),
            served: TO_1,
            ..BEFORE
        },
        Slot {
            uni: [0, 0, 2, 0],
            cell: Some([0, 0, 0, 1, 36, 0, 0, 0]),
            served: TO_1_AT_2,
            ..BEFORE
        },
        Slot {
            uni: [0, 0, 2, 0],
            cell: Some([0, 2, 0, 0, 56, 0, 0, 1]),
            served: TO_1_AT_2,
            ..BEFORE
        },
        Slot {
            cell: Some([0, 2, 0, 1, 4, 0, 0, 2]),
            ..AFTER
        },
    ],
    counts: (2, 0, 0, 0),
    ..ONE_PACKET
};

pub(super) const NO_ROUTE: Script<'static> = Script {
    what: "three packets go nowhere, and one to output 0",
    job: Job {
        packets: &[
            (0, 20, 0, 0, 0),
            (20, 20, 1, 0, 0),
            (40, 20, 2, 0, 0),
            (60, 20, 3, 1, 0),
        ],
        ..IDLE_OF_3
    },
    slots: &[
        BEFORE,
        BEFORE,
        BEFORE,
        Slot {
            uni: [1, 0, 0, 0],
            served: TO_0,
            ..BEFORE
        },
        Slot {
            cell: Some([0, 0, 0, 1, 36, 0, 0, 0]),
            ..AFTER
        },
    ],
    ..ONE_PACKET
};

pub(super) const TO_ALL: Script<'static> = Script {
    what: "a packet goes to all three outputs, the card's own among them",
    job: Job {
        packets: &[(0, 20, 0, 7, 0)],
        ..IDLE_OF_3
    },
    slots: &[
        Slot {
            multi: [7, 0, 0, 0],
            served: HEAD_TO_0_AND_2,
            ..BEFORE
        },
        Slot {
            multi: [2, 0, 0, 0],
            cell: Some([0, 0, 1, 1, 36, 0, 0, 0]),
            served: HEAD_TO_1,
            crosses: true,
            ..BEFORE
        },
        Slot {
            cell: Some([0, 0, 1, 1, 36, 0, 0, 0]),
            ..AFTER
        },
        AFTER,
    ],
    counts: (1, 0, 1, 1),
    lens: &[36],
    // The header of the message, and the captured bytes.
    body: &[
        0, 0, 0, 1, 0, 0, 7, 208, 0, 0, 0, 20, 0, 0, 0, 20, 0, 1, 2, 3, 4, 5, 6, 7, 8, 9, 10, 11,
        12, 13, 14, 15, 16, 17, 18, 19,
    ],
};

pub(super) const TWO_WAIT: Script<'static> = Script {
    what: "two packets that arrive one slot after the other wait for output 1",
    job: Job {
        card: 1,
        packets: &[(0, 20, 0, 2, 0), (20, 20, 1, 2, 0)],
        ..IDLE_OF_3
    },
    slots: &[
        Slot {
            uni: [2, 0, 0, 0],
            served: TO_1,
            ..BEFORE
        },
        Slot {
            uni: [2, 0, 0, 0],
            cell: Some([1, 0, 0, 1, 36, 0, 0, 0]),
            ..BEFORE
        },
        Slot {
            uni: [2, 0, 0, 0],
            served: TO_1,
            ..BEFORE
        },
        Slot {
            cell: Some([1, 0, 0, 1, 36, 0, 0, 0]),
            ..AFTER
        },
    ],
    ..TWO_LEVELS
};

// A packet of three cells and one of two come to output 0, which is served in each second slot.
const CELL_WAITS: Slot = Slot {
    uni: [1, 0, 0, 0],
    ..BEFORE
};

const CELL_LEAVES: Slot = Slot {
    served: TO_0,
    ..CELL_WAITS
};

const FIRST_WAITS: Slot = Slot {
    cell: Some([0, 0, 0, 0, 56, 0, 0, 0]),
    ..CELL_WAITS
};

const SECOND_WAITS: Slot = Slot {
    cell: Some([0, 0, 0, 0, 56, 0, 0, 1]),
    ..CELL_WAITS
};

pub(super) const WITH_ROOM: Script<'static> = Script {
    what: "two cells come to a queue of four in which two wait",
    job: Job {
        depth: 4,
        packets: &[(0, 100, 2, 1, 0), (100, 60, 4, 1, 0)],
        ..IDLE
    },
    slots: &[
        BEFORE,
        BEFORE,
        CELL_LEAVES,
        FIRST_WAITS,
        CELL_LEAVES,
        SECOND_WAITS,
        CELL_LEAVES,
        Slot {
            cell: Some([0, 0, 0, 1, 4, 0, 0, 2]),
            ..CELL_WAITS
        },
        CELL_LEAVES,
        Slot {
            served: TO_0,
            ..FIRST_WAITS
        },
        Slot {
            cell: Some([0, 0, 0, 1, 20, 0, 0, 1]),
            ..AFTER
        },
    ],
    ..TWO_LEVELS
};

pub(super) const WITHOUT_ROOM: Script<'static> = Script {
    what: "two cells come to a queue of three in which two wait: the packet is dropped whole",
    job: Job {
        depth: 3,
        packets: &[(0, 100, 2, 1, 0), (100, 60, 4, 1, 0)],
        ..IDLE
    },
    slots: &[
        BEFORE,
        BEFORE,
        CELL_LEAVES,
        FIRST_WAITS,
        CELL_LEAVES,
        SECOND_WAITS,
        CELL_LEAVES,
        Slot {
            cell: Some([0, 0, 0, 1, 4, 0, 0, 2]),
            ..AFTER
        },
        AFTER,
    ],
    counts: (1, 1, 0, 0),
    ..ONE_PACKET
};
