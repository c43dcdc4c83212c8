use crate::cards::{IDLE, Job, plan_of};
use card_core::{Card, MAX_SLOTS};
use crossbar::Taken;
use queue_lengths::QueueLengths;
use rotating_pick::Kind;
use slot_match::Served;
use std::test::Fail;

// What comes of a slot: whether a packet arrives and is admitted, then how many cells wait for output 0 at level 0, for
// output 1 at level 1 and in the multicast queue of level 0, and what is served.
#[derive(Clone, Copy)]
struct Slot {
    admitted: Option<bool>,
    waits: [u32; 3],
    served: Option<Served>,
}

// Input 0 of a switch of two ports, with queues of four cells. Packets of 20 bytes have one cell, of 60 two and of 100
// three.
const JOB: Job<'static> = Job {
    depth: 4,
    packets: &[
        (0, 60, 0, 1, 0),
        (0, 100, 1, 1, 0),
        (0, 20, 2, 1, 0),
        (0, 20, 3, 3, 0),
        (0, 20, 4, 0, 0),
        (0, 60, 5, 2, 1),
        (0, 60, 6, 3, 0),
    ],
    ..IDLE
};

// The packet of slot 1 just fits and that of slot 2 does not; that of slot 4 goes nowhere. Slot 3 serves a part of a
// multicast cell and slot 4 the rest; slot 6 serves a whole one.
const SLOTS: [Slot; 8] = [
    Slot {
        admitted: Some(true),
        waits: [2, 0, 0],
        served: Some(Served {
            outputs: 1,
            level: 0,
            kind: Kind::Uni,
        }),
    },
    Slot {
        admitted: Some(true),
        waits: [4, 0, 0],
        served: None,
    },
    Slot {
        admitted: Some(false),
        waits: [4, 0, 0],
        served: Some(Served {
            outputs: 1,
            level: 0,
            kind: Kind::Uni,
        }),
    },
    Slot {
        admitted: Some(true),
        waits: [3, 0, 1],
        served: Some(Served {
            outputs: 2,
            level: 0,
            kind: Kind::Multi,
        }),
    },
    Slot {
        admitted: Some(false),
        waits: [3, 0, 1],
        served: Some(Served {
            outputs: 1,
            level: 0,
            kind: Kind::Multi,
        }),
    },
    Slot {
        admitted: Some(true),
        waits: [3, 2, 0],
        served: Some(Served {
            outputs: 2,
            level: 1,
            kind: Kind::Uni,
        }),
    },
    Slot {
        admitted: Some(true),
        waits: [3, 1, 2],
        served: Some(Served {
            outputs: 3,
            level: 0,
            kind: Kind::Multi,
        }),
    },
    Slot {
        admitted: None,
        waits: [3, 1, 1],
        served: None,
    },
];

#[test]
fn cells_wait_as_the_card_says(rt: HostRuntime) -> Result<(), Fail> {
    let plan = plan_of(rt.alloc(), &JOB)?;
    assert!(rt; plan.is_good() && plan.n == 2 && plan.packets.len() == 7);
    let mut queues = QueueLengths::make(rt.alloc(), &plan)?;
    let mut card = Card::make(rt.alloc(), plan)?;
    for want in SLOTS {
        let number = card.slot();
        assert!(rt; !card.posted() && !card.done() && number < MAX_SLOTS);
        let arrival = queues.arrive(number);
        let waits = [queues.length(0), queues.length(5), queues.length(8)];
        assert_eq!(rt; waits, want.waits, "slot {number}");
        assert_eq!(rt;
            arrival.map(|arrival| arrival.admitted),
            want.admitted,
            "slot {number}"
        );
        let post = card.post();
        let taken = Taken {
            slot: number,
            served: want.served,
            cell: None,
            done: false,
        };
        assert!(rt; card.may_take(&taken), "slot {number}");
        card.take(&taken);
        queues.leave(&post.row, want.served);
    }
    Ok(())
}
