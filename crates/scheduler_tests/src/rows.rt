use rotating_pick::Kind;
use slot_match::{Row, Served, are_within};

#[test]
fn rows_name_outputs(rt: HostRuntime) {
    let nothing = Row::empty();
    assert!(rt; nothing.is_empty());
    assert!(rt; nothing.within(0));
    let row = Row {
        uni: [0, 0b001, 0, 0],
        multi: [0, 0, 0, 0b110],
    };
    assert_eq!(rt; row.named(), 0b111);
    assert_eq!(rt; row.outputs(1, Kind::Uni), 0b001);
    assert_eq!(rt; row.outputs(1, Kind::Multi), 0);
    assert_eq!(rt; row.outputs(3, Kind::Multi), 0b110);
    assert!(rt; !row.is_empty());
    assert!(rt; row.within(3));
    assert!(rt; !row.within(2));
    let mut both = nothing;
    both.join(&row);
    assert!(rt; both == row);
    assert!(rt; are_within(3, &[row, nothing, row]));
    assert!(rt; !are_within(3, &[row, nothing]));
}

#[test]
fn next_rows_keep(rt: HostRuntime) {
    let old = Row {
        uni: [0b01, 0, 0, 0],
        multi: [0b110, 0, 0, 0],
    };
    let part = Served {
        outputs: 0b010,
        level: 0,
        kind: Kind::Multi,
    };
    let all = Served {
        outputs: 0b110,
        ..part
    };
    assert_eq!(rt; part.given(0, Kind::Multi), 0b010);
    assert_eq!(rt; part.given(1, Kind::Multi), 0);
    assert_eq!(rt; part.given(0, Kind::Uni), 0);
    // What was served, the unicast and the multicast of the next row, and whether that keeps the first.
    let cases = [
        (None, 0b11, 0b110, true),
        (None, 0b10, 0b110, false),
        (Some(part), 0b01, 0b100, true),
        (Some(part), 0b01, 0b110, false),
        (Some(all), 0b01, 0b011, true),
    ];
    for (served, uni, multi, keeps) in cases {
        let row = Row {
            uni: [uni, 0, 0, 0],
            multi: [multi, 0, 0, 0],
        };
        assert_eq!(rt; row.keeps(&old, served), keeps, "{row:?}");
    }
}
