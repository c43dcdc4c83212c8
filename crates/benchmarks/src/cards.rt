//! How long a post and a take of a line card are, where the card is of a switch of 64 ports and one of its
//! queues was full.
use card_core::{Card, CardPlan, MAX_SLOTS, Planned};
use cell_cutter::{MAX_FORWARDED_BYTES, MAX_FORWARDED_CELLS};
use crossbar::Taken;
use reassembly::FLOWS_PER_INPUT;
use rotating_pick::{Kind, MAX_PORTS, with};
use slot_match::Served;
use std::alloc::{AllocError, Global};
use std::time::{Clock, Instant};
use std::{fmt, io};

/// The packets of the queue, each as long as can be.
const PACKETS: u32 = 100;

/// The slots that are timed at once.
const SLOTS: u32 = 1_000;

/// How often they are timed, in all fewer slots than the queue has cells. The least time counts, since it
/// was disturbed least.
const BATCHES: u32 = 100;

/// What the card is served in each timed slot.
#[derive(Clone, Copy)]
enum Load {
    /// Nothing: its queue stays full.
    Waiting,
    /// The first cell of its queue, which is cut for the next post.
    Served,
}

impl Load {
    fn served(self) -> Option<Served> {
        match self {
            Load::Waiting => None,
            Load::Served => Some(Served {
                outputs: with(0, MAX_PORTS - 1),
                level: 0,
                kind: Kind::Uni,
            }),
        }
    }
}

impl fmt::Display for Load {
    fn fmt<W: fmt::Write>(&self, f: &mut fmt::Formatter<W>) -> fmt::Result {
        f.write_str(match self {
            Load::Waiting => "nothing is served",
            Load::Served => "a cell is served",
        })
    }
}

// A plan of packets to the last port, one in each of the first slots, that fill its queue.
fn full_plan(alloc: Global) -> Result<CardPlan, AllocError> {
    let mut packets = Vec::with_capacity(alloc, PACKETS as usize)?;
    for arrival in 0..PACKETS {
        packets.push(Planned {
            seconds: 0,
            nanos: 0,
            original: MAX_FORWARDED_BYTES as u32,
            start: 0,
            len: MAX_FORWARDED_BYTES as u32,
            arrival,
            fan: with(0, MAX_PORTS - 1),
            level: 0,
        })?;
    }
    Ok(CardPlan {
        n: MAX_PORTS,
        card: 0,
        depth: PACKETS * MAX_FORWARDED_CELLS,
        packets,
        bytes: vec![in alloc; 0; MAX_FORWARDED_BYTES]?,
        sizes: vec![in alloc; 0; FLOWS_PER_INPUT * MAX_PORTS as usize]?,
        body_room: 0,
        packet_room: 0,
    })
}

/// How many posts had a row that names an output, and how many a cell.
#[derive(Clone, Copy)]
struct Posts {
    rows: u32,
    cells: u32,
}

// Posts and takes in `slots` slots.
fn run_slots(card: &mut Card, slots: u32, served: Option<Served>) -> Posts {
    let mut posts = Posts { rows: 0, cells: 0 };
    for _slot in 0..slots {
        if card.posted() || card.done() || card.slot() >= MAX_SLOTS {
            return posts;
        }
        let post = card.post();
        posts.rows = posts.rows.wrapping_add(u32::from(!post.row.is_empty()));
        posts.cells = posts.cells.wrapping_add(u32::from(post.cell.is_some()));
        let taken = Taken {
            slot: card.slot(),
            served,
            cell: None,
            done: false,
        };
        if card.may_take(&taken) {
            card.take(&taken);
        }
    }
    posts
}

// Times the slots of a card once its queue is full, and tells the least time of one.
fn time_slots<R: Clock + Eprint>(rt: &R, load: Load, card: &mut Card) -> io::Result<()> {
    let mut posts = run_slots(card, PACKETS, None);
    let mut least = u128::MAX;
    for _batch in 0..BATCHES {
        let begin = Instant::now(rt)?;
        posts = run_slots(card, SLOTS, load.served());
        let end = Instant::now(rt)?;
        least = least.min(end.duration_since(begin).as_nanos());
    }
    let nanos = least / SLOTS as u128;
    eprintln!(rt;
        "{load}: {nanos} ns a post and take, {} rows and {} cells in {SLOTS} slots",
        posts.rows, posts.cells
    )
}

// Times a card of a full queue under the load, or tells why there is none.
fn time_card<R: Clock + Eprint + AllocGlobal>(rt: &R, load: Load) -> io::Result<()> {
    let Ok(plan) = full_plan(rt.alloc()) else {
        return eprintln!(rt; "no memory for a plan");
    };
    if !plan.is_good() {
        return eprintln!(rt; "the plan is not good");
    }
    match Card::make(rt.alloc(), plan) {
        Ok(mut card) => time_slots(rt, load, &mut card),
        Err(_) => eprintln!(rt; "no memory for a card"),
    }
}

/// Tells the time of a post and a take, where nothing is served and where a cell is.
pub(crate) fn time_cards<R: Clock + Eprint + AllocGlobal>(rt: &R) -> io::Result<()> {
    time_card(rt, Load::Waiting)?;
    time_card(rt, Load::Served)
}
