mod plans;
mod scripts;

use card_core::{Card, CardOut, CardPlan, MAX_SLOTS, Planned};
use cell_cutter::{CELL_HEADER_BYTES, Cell};
use crossbar::Taken;
use rotating_pick::{Kind, Ports};
use scripts::{
    NO_ROUTE, ONE_PACKET, Script, Slot, TO_ALL, TWO_LEVELS, TWO_WAIT, WITH_ROOM, WITHOUT_ROOM,
};
use slot_match::{Row, Served};
use std::alloc::{AllocError, Global};
use std::process::Abort;
use std::test::Fail;

/// A packet: where its captured bytes begin, how many they are, its arrival slot, its outputs and its level.
pub(crate) type Packet = (u32, u32, u32, Ports, u8);

/// A plan by its numbers: how many captured bytes, which are 0, 1, 2 and so on, and how many flows, all of
/// one size.
#[derive(Clone, Copy)]
pub(crate) struct Job<'a> {
    pub(crate) n: u32,
    pub(crate) card: u32,
    pub(crate) depth: u32,
    pub(crate) packets: &'a [Packet],
    pub(crate) bytes: usize,
    pub(crate) flows: usize,
    pub(crate) size: u32,
    pub(crate) body_room: u64,
    pub(crate) packet_room: u32,
}

/// Two ports, the deepest queues, no packets, and flows and rooms for a message of 100 captured bytes.
pub(crate) const IDLE: Job<'static> = Job {
    n: 2,
    card: 0,
    depth: 131_072,
    packets: &[],
    bytes: 160,
    flows: 16,
    size: 116,
    body_room: 116,
    packet_room: 1,
};

/// The plan that the job names, all of whose packets have one time.
pub(crate) fn plan_of(alloc: Global, job: &Job<'_>) -> Result<CardPlan, AllocError> {
    let mut packets = Vec::new(alloc);
    for (start, len, arrival, fan, level) in job.packets {
        packets.push(Planned {
            seconds: 1,
            nanos: 2000,
            original: *len,
            start: *start,
            len: *len,
            arrival: *arrival,
            fan: *fan,
            level: *level,
        })?;
    }
    let mut bytes = Vec::with_capacity(alloc, job.bytes)?;
    for k in 0..job.bytes {
        bytes.push((k % 256) as u8)?;
    }
    Ok(CardPlan {
        n: job.n,
        card: job.card,
        depth: job.depth,
        packets,
        bytes,
        sizes: vec![in alloc; job.size; job.flows]?,
        body_room: job.body_room,
        packet_room: job.packet_room,
    })
}

// The header of a cell, as in its bytes.
fn header(cell: Cell) -> [u8; CELL_HEADER_BYTES] {
    let kind = match cell.kind {
        Kind::Uni => 0,
        Kind::Multi => 1,
    };
    let [high, low] = cell.number.to_be_bytes();
    [
        cell.input,
        cell.level,
        kind,
        u8::from(cell.last),
        cell.used,
        0,
        high,
        low,
    ]
}

// A card posts and takes slot by slot, and is done with the last.
fn follow(rt: &impl Abort, alloc: Global, script: &Script<'_>) -> Result<CardOut, Fail> {
    let plan = plan_of(alloc, &script.job)?;
    assert!(rt; plan.is_good());
    let mut card = Card::make(alloc, plan).ok().ok_or("memory")?;
    for (number, slot) in script.slots.iter().enumerate() {
        let done = number.wrapping_add(1) == script.slots.len();
        step(rt, &mut card, slot, script.what, done);
    }
    assert!(rt; card.done() && !card.posted());
    Ok(card.finish())
}

// It posts and takes in one slot.
fn step(rt: &impl Abort, card: &mut Card, slot: &Slot, what: &str, done: bool) {
    let at = card.slot();
    assert!(rt; at < MAX_SLOTS && !card.posted() && !card.done());
    let post = card.post();
    let row = Row {
        uni: slot.uni,
        multi: slot.multi,
    };
    assert_eq!(rt; post.row, row, "{what}, slot {at}");
    assert_eq!(rt; post.cell.map(header), slot.cell, "{what}, slot {at}");
    assert_eq!(rt; post.more, slot.more, "{what}, slot {at}");
    let taken = Taken {
        slot: at,
        served: slot.served,
        cell: if slot.crosses { post.cell } else { None },
        done,
    };
    let slot = at.wrapping_add(1);
    assert!(rt;
        !card.may_take(&Taken { slot, ..taken }),
        "{what}, slot {at}"
    );
    let served = Some(Served {
        outputs: Ports::MAX,
        level: 0,
        kind: Kind::Uni,
    });
    assert!(rt;
        !card.may_take(&Taken { served, ..taken }),
        "{what}, slot {at}"
    );
    assert!(rt; card.may_take(&taken), "{what}, slot {at}");
    card.take(&taken);
}

#[test]
fn cards_follow_their_scripts(rt: HostRuntime) -> Result<(), Fail> {
    let scripts = [
        ONE_PACKET,
        TWO_LEVELS,
        NO_ROUTE,
        TO_ALL,
        TWO_WAIT,
        WITH_ROOM,
        WITHOUT_ROOM,
    ];
    for script in scripts {
        let out = follow(&rt, rt.alloc(), &script)?;
        let counts = (out.admitted, out.dropped, out.packets, out.cells);
        assert_eq!(rt; counts, script.counts, "{}", script.what);
        assert_eq!(rt; out.lens.as_slice(), script.lens, "{}", script.what);
        assert_eq!(rt; out.body.as_slice(), script.body, "{}", script.what);
    }
    Ok(())
}
