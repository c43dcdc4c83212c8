ghost use Rattle.std.specs.Prelude.{◌<◌};

use crate::Hands;
use crate::tests::groups::{Job, Way, drive_groups, finish, join_all};
use card_core::Planned;
use crossbar::Post;
use rotating_pick::{Kind, MAX_PORTS, MAX_ROUNDS, Ports};
use slot_board::{Board, Journal};
use slot_match::{Fed, Row};
use std::alloc::Global;
use std::process::Abort;
use std::test::Fail;
use std::thread::Threads;

// The most slots of a board.
const SLOTS: u32 = 10;

fn packet(seconds: u32, start: u32, len: u32, arrival: u32, fan: Ports) -> Planned {
    Planned {
        seconds,
        nanos: 2000,
        original: len,
        start,
        len,
        arrival,
        fan,
        level: 0,
    }
}

// Makes the run. The groups are driven a few times, and what is left is finished alone. Answers also how
// many events were made alone.
fn run<R: Threads + Sync>(
    rt: &R,
    alloc: Global,
    job: &Job<'_>,
    way: &Way,
) -> Result<(Journal, Hands, u64), Fail> {
    if job.n == 0
        || job.n > MAX_PORTS
        || job.rounds == 0
        || job.rounds > MAX_ROUNDS
        || way.groups == 0
        || way.threads == 0
    {
        return Err("job".into());
    }
    let (board, seats) = Board::make(alloc, job.n, job.rounds, SLOTS)?;
    let mut groups = join_all(alloc, &board, seats, job, way)?;
    for _ in 0..way.times {
        drive_groups(rt, &board, &mut groups, way);
    }
    let (state, hands, alone) = finish(alloc, board, groups)?;
    Ok((state.journal(), hands, alone))
}

// What feeds the output in the slot.
fn expected_at(fed: &[&[Option<Fed>]], slot: u32, output: u32) -> Option<Fed> {
    *fed.get(slot as usize)?.get(output as usize)?
}

// What feeds each output, slot by slot.
fn compare_journal(rt: &impl Abort, journal: &Journal, fed: &[&[Option<Fed>]], way: &Way) {
    assert_eq!(rt; journal.slots() as usize, fed.len(), "{way:?}");
    for slot in 0..journal.slots() {
        for output in 0..journal.ports() {
            assert!(rt; slot < journal.slots() && output < journal.ports());
            let expected = expected_at(fed, slot, output);
            let fed = journal.decided(slot).fed(output);
            assert_eq!(rt; fed, expected, "{way:?}, output {output} of slot {slot}");
        }
    }
}

// The messages of each card's output, by the seconds of their times, where all have one length.
fn compare_outputs(rt: &impl Abort, hands: Hands, seconds: &[&[u8]], len: usize, way: &Way) {
    assert_eq!(rt; hands.len(), seconds.len(), "{way:?}");
    for (card, hand) in hands.into_iter().enumerate() {
        let out = hand.card.finish();
        let expected = seconds.get(card).copied().unwrap_or(&[]);
        assert_eq!(rt; out.lens.len(), expected.len(), "{way:?}, output {card}");
        for (number, second) in expected.iter().enumerate() {
            let at = number.wrapping_mul(len).wrapping_add(3);
            assert_eq!(rt;
                out.body.get(at).copied(),
                Some(*second),
                "{way:?}, output {card}"
            );
        }
    }
}

const fn from(input: u32, kind: Kind) -> Option<Fed> {
    Some(Fed {
        input,
        level: 0,
        kind,
    })
}

// One group, two in turn, two at once, two that make no try, and one whose hands keep their first posts.
const WAYS: [Way; 5] = [
    Way {
        groups: 1,
        threads: 1,
        patience: 1,
        times: 1,
        ahead: false,
    },
    Way {
        groups: 2,
        threads: 1,
        patience: 1,
        times: 20,
        ahead: false,
    },
    Way {
        groups: 2,
        threads: 2,
        patience: 100_000,
        times: 1,
        ahead: false,
    },
    Way {
        groups: 2,
        threads: 1,
        patience: 0,
        times: 1,
        ahead: false,
    },
    KEPT,
];

const KEPT: Way = Way {
    groups: 1,
    threads: 1,
    patience: 1,
    times: 1,
    ahead: true,
};

// How many events the state makes on its own: none after drives to the end, all after none.
fn compare_events(rt: &impl Abort, journal: &Journal, alone: u64, way: &Way) {
    let a_slot = 2u64.wrapping_mul(journal.ports() as u64).wrapping_add(1);
    let events = a_slot.wrapping_mul(journal.slots() as u64);
    assert_eq!(rt; journal.events(), events, "{way:?}");
    if way.patience == 0 {
        assert_eq!(rt; alone, events, "{way:?}");
    } else if way.threads == 1 {
        assert_eq!(rt; alone, 0, "{way:?}");
    }
}

#[test]
fn one_packet_crosses(rt: HostRuntime) -> Result<(), Fail> {
    let uni = from(0, Kind::Uni);
    let fed: [&[Option<Fed>]; 4] = [&[None, None], &[None, uni], &[None, uni], &[None, None]];
    let job = Job {
        n: 2,
        rounds: 4,
        packets: &[&[packet(1, 0, 60, 1, 0b10)], &[]],
    };
    for way in WAYS {
        let (journal, hands, alone) = run(&rt, rt.alloc(), &job, &way)?;
        compare_events(&rt, &journal, alone, &way);
        compare_journal(&rt, &journal, &fed, &way);
        compare_outputs(&rt, hands, &[&[], &[1]], 76, &way);
    }
    Ok(())
}

#[test]
fn multicast_waits_for_both(rt: HostRuntime) -> Result<(), Fail> {
    let (multi, uni) = (from(0, Kind::Multi), from(1, Kind::Uni));
    let fed: [&[Option<Fed>]; 4] = [
        &[multi, uni, multi],
        &[None, multi, None],
        &[None, uni, None],
        &[None, None, None],
    ];
    let job = Job {
        n: 3,
        rounds: 1,
        packets: &[
            &[packet(20, 0, 20, 0, 0b111)],
            &[packet(10, 0, 20, 0, 0b010), packet(30, 20, 20, 1, 0b010)],
            &[],
        ],
    };
    for way in WAYS {
        let (journal, hands, alone) = run(&rt, rt.alloc(), &job, &way)?;
        compare_events(&rt, &journal, alone, &way);
        compare_journal(&rt, &journal, &fed, &way);
        compare_outputs(&rt, hands, &[&[20], &[10, 20, 30], &[20]], 36, &way);
    }
    Ok(())
}

// A first post: its row of level 0, no cell, and whether more is to come.
fn first_post(uni: Ports, multi: Ports, more: bool) -> Post {
    let mut row = Row::empty();
    row.uni[0] = uni;
    row.multi[0] = multi;
    Post {
        row,
        cell: None,
        more,
    }
}

#[test]
fn kept_posts_are_posted_unchanged(rt: HostRuntime) -> Result<(), Fail> {
    let job = Job {
        n: 3,
        rounds: 1,
        packets: &[
            &[packet(20, 0, 20, 0, 0b111)],
            &[packet(10, 0, 20, 0, 0b010), packet(30, 20, 20, 1, 0b010)],
        ],
    };
    let (journal, _hands, alone) = run(&rt, rt.alloc(), &job, &KEPT)?;
    assert_eq!(rt; alone, 0);
    assert!(rt; 0 < journal.slots());
    let expected = [
        first_post(0, 0b111, true),
        first_post(0b010, 0, true),
        first_post(0, 0, false),
    ];
    assert_eq!(rt; journal.posts(0), &expected[..]);
    Ok(())
}
