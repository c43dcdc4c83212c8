use super::{IDLE, Job, Packet, plan_of};
use card_core::{MAX_ARRIVALS, MAX_BODY, MAX_MESSAGES};
use cell_cutter::MAX_MESSAGE_BYTES;
use std::test::Fail;

// What is changed of the plan of a switch without packets.
#[derive(Clone, Copy)]
enum Change {
    Nothing,
    // The ports and the card's own, with as many flows as these ports need.
    Ports(u32, u32),
    Depth(u32),
    Flows(usize),
    Size(u32),
    BodyRoom(u64),
    PacketRoom(u32),
}

// Whether a card can be made of it.
const CHANGES: [(Change, bool); 11] = [
    (Change::Nothing, true),
    (Change::Ports(64, 63), true),
    (Change::Ports(0, 0), false),
    (Change::Ports(65, 0), false),
    (Change::Ports(2, 2), false),
    (Change::Depth(0), false),
    (Change::Depth(131_073), false),
    (Change::Flows(15), false),
    (Change::Size(MAX_MESSAGE_BYTES as u32 + 1), false),
    (Change::BodyRoom(MAX_BODY as u64 + 1), false),
    (Change::PacketRoom(MAX_MESSAGES + 1), false),
];

// Packets of which 65,536 bytes were captured, and whether a card can be made of them.
const PACKETS: [(&[Packet], bool); 8] = [
    // Bytes beyond those that were captured.
    (&[(65_476, 61, 0, 1, 0)], false),
    // A level, and an output, that there is not.
    (&[(0, 20, 0, 1, 4)], false),
    (&[(0, 20, 0, 4, 0)], false),
    // An oversize packet with a route, and without.
    (&[(0, 65_536, 0, 1, 0)], false),
    (&[(0, 65_536, 0, 0, 0)], true),
    // Two packets in one slot, one beyond the last slot, and one in it.
    (&[(0, 20, 7, 1, 0), (20, 20, 7, 1, 0)], false),
    (&[(0, 20, MAX_ARRIVALS, 1, 0)], false),
    (&[(0, 20, 7, 1, 0), (20, 20, MAX_ARRIVALS - 1, 3, 3)], true),
];

fn changed(change: Change) -> Job<'static> {
    let mut job = IDLE;
    match change {
        Change::Nothing => {}
        Change::Ports(n, card) => {
            job.n = n;
            job.card = card;
            job.flows = 8 * n as usize;
        }
        Change::Depth(depth) => job.depth = depth,
        Change::Flows(flows) => job.flows = flows,
        Change::Size(size) => job.size = size,
        Change::BodyRoom(room) => job.body_room = room,
        Change::PacketRoom(room) => job.packet_room = room,
    }
    job
}

#[test]
fn bad_plans_are_told(rt: HostRuntime) -> Result<(), Fail> {
    for (number, (change, good)) in CHANGES.iter().enumerate() {
        let plan = plan_of(rt.alloc(), &changed(*change))?;
        assert_eq!(rt; plan.is_good(), *good, "change {number}");
    }
    for (number, (packets, good)) in PACKETS.iter().enumerate() {
        let bytes = 65_536;
        let job = Job {
            packets,
            bytes,
            ..IDLE
        };
        let plan = plan_of(rt.alloc(), &job)?;
        assert_eq!(rt; plan.is_good(), *good, "packets {number}");
    }
    Ok(())
}
