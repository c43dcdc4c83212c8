use pointer_state::{PointerTables, Pointers};

#[test]
fn moves_one_pointer_or_two(rt: HostRuntime) {
    let first = Pointers::new(3);
    assert_eq!(rt; first.ports(), 3);
    assert_eq!(rt; first.grant(2, 3), 0);
    let mut pointers = first;
    assert!(rt; pointers == first);

    pointers.met(2, 1, 0);
    assert_eq!(rt; pointers.ports(), 3);
    assert_eq!(rt; pointers.grant(1, 0), 0);
    assert_eq!(rt; pointers.accept(2, 0), 2);
    assert_eq!(rt; pointers.accept(2, 1), 0);
    assert!(rt; pointers != first);

    pointers.held(2, 1, 0);
    assert_eq!(rt; pointers.grant(1, 0), 2);
    assert_eq!(rt; pointers.accept(2, 0), 2);

    pointers.passed(3, 0);
    assert_eq!(rt; pointers.shared(3), 1);
    assert_eq!(rt; pointers.shared(2), 0);
    assert_eq!(rt; pointers.grant(1, 0), 2);
}

const AT_ZERO: PointerTables = PointerTables {
    grant: [[0; 64]; 4],
    accept: [[0; 64]; 4],
    shared: [0; 4],
};

#[test]
fn tables_are_lent(rt: HostRuntime) {
    let mut tables = AT_ZERO;
    tables.grant[3][1] = 2;
    tables.accept[2][0] = 1;
    tables.shared[1] = 2;
    // Of a port that the switch does not have.
    tables.grant[0][63] = 9;
    let Some(mut pointers) = Pointers::from_tables(3, &tables) else {
        return assert!(rt; false, "three ports");
    };
    assert!(rt; pointers.ports() == 3);
    assert_eq!(rt;
        [
            pointers.grant(1, 3),
            pointers.accept(0, 2),
            pointers.shared(1)
        ],
        [2, 1, 2]
    );
    assert_eq!(rt;
        [
            pointers.grant(2, 3),
            pointers.accept(0, 3),
            pointers.shared(0)
        ],
        [0, 0, 0]
    );
    pointers.met(2, 1, 3);
    let mut after = AT_ZERO;
    pointers.put_tables(&mut after);
    tables.grant[3][1] = 0;
    tables.accept[3][2] = 2;
    assert!(rt; after == tables);
}

// Tables of 1 to 64 ports give the pointers where the places of these ports are in range.
#[test]
fn tables_out_of_range_are_refused(rt: HostRuntime) {
    let mut low = AT_ZERO;
    low.grant[0][3] = 3;
    low.accept[3][1] = 1;
    low.shared[2] = 1;
    let mut accepts = AT_ZERO;
    accepts.accept[1][2] = 3;
    let mut all = accepts;
    all.shared[3] = 4;
    let cases = [
        (&AT_ZERO, 0, false),
        (&AT_ZERO, 1, true),
        (&AT_ZERO, 64, true),
        (&AT_ZERO, 65, false),
        (&low, 1, false),
        (&low, 4, true),
        (&accepts, 2, true),
        (&accepts, 3, false),
        (&accepts, 4, true),
        (&all, 4, false),
    ];
    for (tables, n, is_in_range) in cases {
        assert_eq!(rt; tables.is_in_range(n), is_in_range, "{n} ports");
        assert_eq!(rt;
            Pointers::from_tables(n, tables).is_some(),
            is_in_range,
            "{n} ports"
        );
    }
}
