use crate::{
    FeedWords, RoundsWords, tiny_tera_decide, tiny_tera_decide_firm, tiny_tera_decide_many,
    tiny_tera_decide_many_firm, tiny_tera_decide_many_rrm, tiny_tera_decide_rrm,
    tiny_tera_is_maximal, tiny_tera_islip_slot, tiny_tera_note_waits, tiny_tera_version,
};
use pointer_state::PointerTables;
use rotating_pick::Ports;
use slot_match::Row;

const AT_ZERO: PointerTables = PointerTables {
    grant: [[0; 64]; 4],
    accept: [[0; 64]; 4],
    shared: [0; 4],
};

const NO: u32 = 0xffff_ffff;

const FREE: FeedWords = FeedWords {
    input: NO,
    level: NO,
    kind: NO,
};

const NO_ROUNDS: RoundsWords = RoundsWords {
    used: 0,
    first: 0,
    last_added: 0,
};

fn unicast(outputs: Ports) -> Row {
    Row {
        uni: [outputs, 0, 0, 0],
        multi: [0; 4],
    }
}

fn multicast(outputs: Ports) -> Row {
    Row {
        uni: [0; 4],
        multi: [outputs, 0, 0, 0],
    }
}

fn fed(input: u32, kind: u32) -> FeedWords {
    FeedWords {
        input,
        level: 0,
        kind,
    }
}

// All queues of three ports are full: from slot 2 on every slot matches all, of one level and of four.
#[test]
fn full_load_of_three(rt: HostRuntime) {
    let slots = [[0, NO, NO], [1, 0, NO], [2, 1, 0], [0, 2, 1]];
    let mut grant = [0; 3];
    let mut accept = [0; 3];
    let mut pointers = AT_ZERO;
    let mut used = NO_ROUNDS;
    assert_eq!(rt; tiny_tera_version(), 1);
    for t in 0..4 {
        let wanted = slots[t as usize];
        let mut inputs = [NO; 3];
        let status = tiny_tera_islip_slot(
            3,
            1,
            &[7, 7, 7],
            &mut grant,
            &mut accept,
            &mut inputs,
            &mut used,
        );
        assert_eq!(rt; status, 0);
        assert_eq!(rt; inputs, wanted);

        let mut feeds = [FREE; 3];
        let rows = [unicast(7); 3];
        let status = tiny_tera_decide(3, 1, t, &rows, &mut pointers, &mut feeds, &mut used);
        assert_eq!(rt; status, 0);
        assert_eq!(rt; [feeds[0].input, feeds[1].input, feeds[2].input], wanted);
    }
}

// Output 0 grants input 1, which takes output 1. Output 0 then points where it did under iSLIP, to input 1 under
// FIRM, and one beyond it under round-robin matching.
#[test]
fn refused_grant_moves_by_the_scheduler(rt: HostRuntime) {
    let rows = [unicast(0), unicast(0b011), unicast(0b001)];
    let mut before = AT_ZERO;
    before.accept[0][1] = 1;
    for place in 0..3u32 {
        let mut pointers = before;
        let mut feeds = [FREE; 3];
        let mut used = NO_ROUNDS;
        let status = match place {
            0 => tiny_tera_decide(3, 1, 2, &rows, &mut pointers, &mut feeds, &mut used),
            1 => tiny_tera_decide_firm(3, 1, 2, &rows, &mut pointers, &mut feeds, &mut used),
            _ => tiny_tera_decide_rrm(3, 1, 2, &rows, &mut pointers, &mut feeds, &mut used),
        };
        assert_eq!(rt; status, 0);
        assert!(rt; feeds == [FREE, fed(1, 0), FREE]);
        let mut after = before;
        after.grant[0][0] = place;
        after.grant[0][1] = 2;
        after.accept[0][1] = 2;
        assert!(rt; pointers == after);
        let wanted = RoundsWords {
            used: 1,
            first: 1,
            last_added: 1,
        };
        assert!(rt; used == wanted);
    }
}

// Input 0 has a head for outputs 0 and 1, input 1 one for 1 and 2: the first completes, and moves the shared pointer.
#[test]
fn multicast_heads_share_a_pointer(rt: HostRuntime) {
    let rows = [multicast(0b011), multicast(0b110), unicast(0)];
    let mut pointers = AT_ZERO;
    let mut feeds = [FREE; 3];
    let mut used = NO_ROUNDS;
    let status = tiny_tera_decide(3, 1, 1, &rows, &mut pointers, &mut feeds, &mut used);
    assert_eq!(rt; status, 0);
    assert!(rt; feeds == [fed(0, 1), fed(0, 1), fed(1, 1)]);
    assert_eq!(rt; pointers.shared, [1, 0, 0, 0]);
    let mut maximal = 7;
    assert_eq!(rt; tiny_tera_is_maximal(3, &rows, &feeds, &mut maximal), 0);
    assert_eq!(rt; maximal, 1);
    feeds[1] = FREE;
    assert_eq!(rt; tiny_tera_is_maximal(3, &rows, &feeds, &mut maximal), 0);
    assert_eq!(rt; maximal, 0);
}

// A call out of range changes nothing.
#[test]
fn calls_out_of_range_are_refused(rt: HostRuntime) {
    let mut pointers = AT_ZERO;
    let mut feeds = [fed(0, 0), FREE];
    let mut used = NO_ROUNDS;
    let rows = [unicast(3), unicast(4)];
    assert_eq!(rt;
        tiny_tera_decide(2, 1, 0, &rows, &mut pointers, &mut feeds, &mut used),
        1
    );
    let rows = [unicast(3), unicast(2)];
    for (n, rounds) in [(0, 1), (1, 1), (3, 1), (65, 1), (2, 0), (2, 65)] {
        assert_eq!(rt;
            tiny_tera_decide(n, rounds, 0, &rows, &mut pointers, &mut feeds, &mut used),
            1
        );
        assert_eq!(rt;
            tiny_tera_decide_firm(n, rounds, 0, &rows, &mut pointers, &mut feeds, &mut used),
            1
        );
        assert_eq!(rt;
            tiny_tera_decide_rrm(n, rounds, 0, &rows, &mut pointers, &mut feeds, &mut used),
            1
        );
    }
    pointers.shared[2] = 2;
    let before = pointers;
    assert_eq!(rt;
        tiny_tera_decide(2, 1, 0, &rows, &mut pointers, &mut feeds, &mut used),
        1
    );
    assert!(rt; pointers == before && feeds == [fed(0, 0), FREE] && used == NO_ROUNDS);
    pointers.shared[2] = 1;
    assert_eq!(rt;
        tiny_tera_decide(2, 64, NO, &rows, &mut pointers, &mut feeds, &mut used),
        0
    );

    // Input 0 is matched twice, which no match of unicast is.
    let mut maximal = 7;
    assert_eq!(rt;
        tiny_tera_is_maximal(2, &rows, &[fed(0, 0), fed(0, 0)], &mut maximal),
        1
    );
    assert_eq!(rt;
        tiny_tera_is_maximal(2, &rows, &[fed(2, 0), FREE], &mut maximal),
        1
    );
    assert_eq!(rt;
        tiny_tera_is_maximal(2, &rows, &[fed(0, 2), FREE], &mut maximal),
        1
    );
    assert_eq!(rt; maximal, 7);
}

// Two inputs ask one output in two slots, and each is served in one of them. The queue to output 1 is asked once.
#[test]
fn waits_are_noted(rt: HostRuntime) {
    let mut waits = [0; 512];
    let mut longest = [0; 4];
    let rows = [unicast(0b11), unicast(0b01)];
    let feeds = [fed(1, 0), FREE];
    assert_eq!(rt;
        tiny_tera_note_waits(2, &rows, &feeds, &mut waits, &mut longest),
        0
    );
    assert_eq!(rt; [waits[0], waits[1], waits[256]], [1, 1, 0]);
    assert_eq!(rt; longest, [1, 0, 0, 0]);
    let rows = [unicast(0b01), unicast(0b01)];
    assert_eq!(rt;
        tiny_tera_note_waits(2, &rows, &feeds, &mut waits, &mut longest),
        0
    );
    assert_eq!(rt; [waits[0], waits[1], waits[256]], [2, 0, 0]);
    assert_eq!(rt; longest, [2, 0, 0, 0]);
    let feeds = [fed(0, 0), FREE];
    assert_eq!(rt;
        tiny_tera_note_waits(2, &rows, &feeds, &mut waits, &mut longest),
        0
    );
    assert_eq!(rt; [waits[0], waits[1], waits[256]], [0, 0, 1]);
    assert_eq!(rt; longest, [2, 0, 0, 0]);
}

// Words of another length than the ports ask for are refused, and nothing is written.
#[test]
fn waits_of_other_lengths_are_refused(rt: HostRuntime) {
    let mut waits = [5; 512];
    let mut longest = [6; 4];
    let rows = [unicast(0b11), unicast(0b01)];
    let feeds = [fed(1, 0), FREE];
    assert_eq!(rt;
        tiny_tera_note_waits(3, &rows, &feeds, &mut waits, &mut longest),
        1
    );
    assert_eq!(rt;
        tiny_tera_note_waits(2, &rows, &feeds, &mut [0; 511], &mut longest),
        1
    );
    assert_eq!(rt;
        tiny_tera_note_waits(2, &rows, &feeds, &mut waits, &mut [0; 3]),
        1
    );
    assert_eq!(rt; [waits[0], longest[0]], [5, 6]);
}

// A wait stands still at the greatest number of a word.
#[test]
fn greatest_wait_stands_still(rt: HostRuntime) {
    let mut waits = [0; 512];
    let mut longest = [0; 4];
    waits[256] = NO;
    assert_eq!(rt;
        tiny_tera_note_waits(
            2,
            &[unicast(0b01), unicast(0b01)],
            &[fed(0, 0), FREE],
            &mut waits,
            &mut longest
        ),
        0
    );
    assert_eq!(rt; [waits[256], longest[0]], [NO, NO]);
}

// The inputs that feed the outputs.
fn inputs_of(feeds: &[FeedWords; 12]) -> [u32; 12] {
    let mut inputs = [NO; 12];
    for k in 0..12 {
        inputs[k] = feeds[k].input;
    }
    inputs
}

// All queues of three ports are full in four slots, which one call decides: as one by one.
#[test]
fn many_slots_of_three(rt: HostRuntime) {
    let rows = [unicast(7); 12];
    let full = [0, NO, NO, 1, 0, NO, 2, 1, 0, 0, 2, 1];
    let mut feeds = [FREE; 12];
    let mut used = [NO_ROUNDS; 4];
    let mut pointers = AT_ZERO;
    let status = tiny_tera_decide_many(3, 1, 0, &rows, &mut pointers, &mut feeds, &mut used);
    assert!(rt; status == 0 && inputs_of(&feeds) == full);
    assert!(rt; pointers.grant[0][0] == 1 && pointers.grant[0][1] == 0 && used[1].first == 2);

    let mut pointers = AT_ZERO;
    let status = tiny_tera_decide_many_firm(3, 1, 0, &rows, &mut pointers, &mut feeds, &mut used);
    assert!(rt; status == 0 && inputs_of(&feeds) == full);

    // The grant pointers stay together, so each slot has one pair.
    let mut pointers = AT_ZERO;
    let status = tiny_tera_decide_many_rrm(3, 1, 0, &rows, &mut pointers, &mut feeds, &mut used);
    let pairs = [0, NO, NO, 1, NO, NO, 2, NO, NO, NO, 0, NO];
    assert!(rt; status == 0 && inputs_of(&feeds) == pairs);
}

// A row of the last slot names a port that is not there, and the rows are fewer than those of all slots.
#[test]
fn many_slots_are_refused(rt: HostRuntime) {
    let mut rows = [unicast(7); 12];
    rows[11] = multicast(8);
    let mut feeds = [FREE; 12];
    let mut used = [NO_ROUNDS; 4];
    let mut pointers = AT_ZERO;
    let status = tiny_tera_decide_many(3, 1, 0, &rows, &mut pointers, &mut feeds, &mut used);
    assert!(rt; status == 1);
    let status = tiny_tera_decide_many(2, 1, 0, &rows, &mut pointers, &mut feeds, &mut used);
    assert!(rt; status == 1);
    assert!(rt; pointers == AT_ZERO && feeds == [FREE; 12] && used == [NO_ROUNDS; 4]);
}
