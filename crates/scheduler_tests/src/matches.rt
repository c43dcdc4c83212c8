use rotating_pick::{Kind, PORT_COUNT};
use slot_match::{Fed, Match, Row, Served, are_within};

// Input 0 has a multicast head for outputs 1 and 2, input 1 unicast cells for outputs 0 and 2.
#[test]
fn head_goes_on(rt: HostRuntime) {
    let mut rows = [Row::empty(); 3];
    rows[0].multi[0] = 0b110;
    rows[1].uni[0] = 0b101;
    let mut matched = Match::new(3);
    assert_eq!(rt; matched.ports(), 3);
    assert!(rt; are_within(matched.ports(), &rows));
    assert!(rt; !matched.may_add(0, 0b011, 0, Kind::Uni));
    assert!(rt; matched.may_add(0, 0b010, 0, Kind::Multi));
    matched.add(0, 0b010, 0, Kind::Multi);
    assert!(rt; matched.may_add(1, 0b001, 0, Kind::Uni));
    matched.add(1, 0b001, 0, Kind::Uni);
    assert!(rt; !matched.is_maximal(&rows));
    assert!(rt; !matched.may_add(0, 0b100, 1, Kind::Multi));
    assert!(rt; !matched.may_add(1, 0b100, 0, Kind::Uni));
    assert!(rt; matched.may_add(0, 0b100, 0, Kind::Multi));
    matched.add(0, 0b100, 0, Kind::Multi);
    assert!(rt; matched.is_maximal(&rows));

    let fed = Fed {
        input: 1,
        level: 0,
        kind: Kind::Uni,
    };
    assert_eq!(rt; matched.fed(0), Some(fed));
    let part = Served {
        outputs: 0b110,
        level: 0,
        kind: Kind::Multi,
    };
    assert_eq!(rt; matched.served(0), Some(part));
    assert_eq!(rt; matched.served(2), None);
    let mut parts = [matched.served(0); PORT_COUNT];
    matched.put_parts(&mut parts);
    for input in 0..3 {
        assert_eq!(rt; parts[input as usize], matched.served(input));
    }
    assert_eq!(rt; matched.count(), 3);
    assert_eq!(rt; matched.free_inputs(), 0b100);
    assert_eq!(rt; matched.free_outputs(), 0);
    assert_eq!(rt; matched.multicasting(0), 0b001);
    assert_eq!(rt; matched.outputs_at(0, Kind::Multi), 0b110);
    assert_eq!(rt; matched.outputs_at(0, Kind::Uni), 0b001);
    assert_eq!(rt; matched.outputs_at(1, Kind::Uni), 0);
}

// Input 2 had the part of the match before, and input 0 has it now.
#[test]
fn part_passes_on(rt: HostRuntime) {
    let part = Served {
        outputs: 0b001,
        level: 0,
        kind: Kind::Uni,
    };
    let mut parts = [None; PORT_COUNT];
    parts[2] = Some(part);
    let mut matched = Match::new(3);
    assert!(rt; matched.may_add(0, 0b001, 0, Kind::Uni));
    matched.add(0, 0b001, 0, Kind::Uni);
    matched.change_parts(&mut parts, 0b100);
    assert_eq!(rt; parts[0], Some(part));
    assert_eq!(rt; parts[1], None);
    assert_eq!(rt; parts[2], None);
}
