ghost use Rattle.std.specs.Prelude.{◌≤◌};
ghost use Rattle.switch_words.specs.Limits.{IsUpTo};

use card_core::{CardPlan, Planned};
use pcap_records::Link;
use rotating_pick::{MAX_FILE_BYTES, MAX_PORTS, OutOfMemory};
use scheduler_names::SchedulerName;
use std::alloc::Global;
use std::test::Fail;
use switch_plan::jobs::plan;
use switch_plan::{Made, Plan, made_input};
use switch_words::{GenJob, MAX_COUNT, Settings, Speed};

const SETTINGS: Settings = Settings {
    rounds: 4,
    depth: 131_072,
    workers: 4,
    speed: Speed::Untimed,
    long: false,
};

// The routes of a switch of two ports.
const TWO_PORTS: &[u8] = b"10.0.0.0/32 0 0\n10.0.0.1/32 1 0\n10.0.1.0/32 0,1 0\n10.0.1.1/32 1,0 0\n\
10.1.0.0/32 0 1\n10.1.0.1/32 1 1\n10.1.1.0/32 0,1 1\n10.1.1.1/32 1,0 1\n\
10.2.0.0/32 0 2\n10.2.0.1/32 1 2\n10.2.1.0/32 0,1 2\n10.2.1.1/32 1,0 2\n\
10.3.0.0/32 0 3\n10.3.0.1/32 1 3\n10.3.1.0/32 0,1 3\n10.3.1.1/32 1,0 3\n";

// The routes of a switch of one port.
const ONE_PORT: &[u8] = b"10.0.0.0/32 0 0\n10.0.1.0/32 0 0\n10.1.0.0/32 0 1\n10.1.1.0/32 0 1\n\
10.2.0.0/32 0 2\n10.2.1.0/32 0 2\n10.3.0.0/32 0 3\n10.3.1.0/32 0 3\n";

// The header of each capture, and the first record of port 0 where the number is 1: its header, and of its 209
// bytes those that are not 0.
const FIRST_BYTES: &[u8] = b"\xd4\xc3\xb2\xa1\x02\0\x04\0\0\0\0\0\0\0\0\0\0\0\x04\0\x01\0\0\0\
\0\0\0\0\0\0\0\0\xd1\0\0\0\xd1\0\0\0\
\0\0\0\0\0\0\0\0\0\0\0\0\x08\0\x45\0\0\0\0\0\0\0\0\0\0\0\0\0\0\0\x0a\x01\0\0\0";

// What is made from the number 1.
fn made_from_1(alloc: Global, count: u32, ports: u32) -> Result<Made, OutOfMemory>
    requires count { count ≤ MAX_COUNT }
    requires ports { IsUpTo MAX_PORTS ports }
{
    made_input(
        alloc,
        &GenJob {
            settings: SETTINGS,
            scheduler: SchedulerName::Islip,
            seed: 1,
            count,
            ports,
        },
    )
}

#[test]
fn makes_one_packet_for_one_port(rt: HostRuntime) -> Result<(), Fail> {
    let made = made_from_1(rt.alloc(), 1, 1)?;
    assert_eq!(rt; made.table.as_slice(), ONE_PORT);
    assert_eq!(rt; made.captures.len(), 1);
    let only = made.captures[0].as_slice();
    assert_eq!(rt; only.len(), 24 + 16 + 209);
    assert!(rt; only.starts_with(FIRST_BYTES));
    Ok(())
}

// Two packets for each of two ports are made, and planned.
#[test]
fn plans_a_made_job(rt: HostRuntime) -> Result<(), Fail> {
    let Made { table, captures } = made_from_1(rt.alloc(), 2, 2)?;
    assert_eq!(rt; table.as_slice(), TWO_PORTS);
    assert_eq!(rt; captures.len(), 2);
    assert_eq!(rt; captures[0].len(), 24 + 16 + 209 + 16 + 579);
    assert!(rt; captures[0].as_slice().starts_with(FIRST_BYTES));
    assert_eq!(rt; captures[1].len(), 24 + 16 + 1184 + 16 + 113);
    assert!(rt; table.len() <= MAX_FILE_BYTES);
    assert!(rt; captures.iter().all(|file| file.len() < 4_294_967_296));
    let plan = plan(&rt, rt.alloc(), &SETTINGS, table, captures)?;
    assert!(rt; plan.is_good());
    assert_eq!(rt;
        (plan.max_slots, plan.oversize, plan.unrouted),
        (25 + 41 + 1, 0, 0)
    );
    assert_eq!(rt; plan.cards.len(), 2);
    let (first, second) = (&plan.cards[0], &plan.cards[1]);
    let slots: [u32; 2] = [4, 15];
    assert!(rt; first.packets.iter().map(|packet| packet.arrival).eq(slots));
    let slots: [u32; 2] = [21, 24];
    assert!(rt; second.packets.iter().map(|packet| packet.arrival).eq(slots));
    assert_eq!(rt; (first.body_room, first.packet_room), (225 + 1200, 2));
    assert_eq!(rt; (second.body_room, second.packet_room), (595 + 129, 2));
    let sizes: [u32; 16] = [0, 0, 225, 0, 0, 0, 0, 0, 1200, 0, 0, 0, 0, 0, 0, 0];
    assert_eq!(rt; first.sizes.as_slice(), sizes.as_slice());
    Ok(())
}

// The plan of a switch of one port, to which a packet of two cells comes at level 2 in slot 1.
fn one_packet(alloc: Global) -> Result<Plan, OutOfMemory> {
    let packet = Planned {
        seconds: 7,
        nanos: 1_000,
        original: 60,
        start: 0,
        len: 60,
        arrival: 1,
        fan: 1,
        level: 2,
    };
    let card = CardPlan {
        n: 1,
        card: 0,
        depth: 4,
        packets: vec![in alloc; packet]?,
        bytes: vec![in alloc; 0; 60]?,
        sizes: [0, 0, 0, 0, 76, 0, 0, 0].to_vec(alloc)?,
        body_room: 76,
        packet_room: 1,
    };
    Ok(Plan {
        nano: false,
        link: Link::Ethernet,
        rounds: 4,
        depth: 4,
        workers: 1,
        max_slots: 5,
        oversize: 0,
        unrouted: 0,
        cards: vec![in alloc; card]?,
    })
}

#[test]
fn knows_a_good_plan_from_one_that_ends_early(rt: HostRuntime) -> Result<(), Fail> {
    let mut plan = one_packet(rt.alloc())?;
    assert!(rt; plan.is_good());
    plan.max_slots = 4;
    assert!(rt; !plan.is_good());
    Ok(())
}
