use islip_rounds::turn_square;
use rotating_pick::{PORT_COUNT, Ports};

// The rows of a square that are set, and the columns that are set then.
const TURNS: [([(usize, Ports); 3], [(usize, Ports); 3]); 2] = [
    (
        [(0, 0b110), (1, 0b001), (2, 0b100)],
        [(0, 0b010), (1, 0b001), (2, 0b101)],
    ),
    (
        [(0, 1 << 63), (63, 1), (32, 1 << 31)],
        [(63, 1), (0, 1 << 63), (31, 1 << 32)],
    ),
];

#[test]
fn rows_become_columns(rt: HostRuntime) {
    for (rows, columns) in TURNS {
        let mut square = [0; PORT_COUNT];
        let mut turned = [0; PORT_COUNT];
        for k in 0..3 {
            let (i, row) = rows[k];
            let (j, column) = columns[k];
            assert!(rt; i < PORT_COUNT && j < PORT_COUNT);
            square[i] = row;
            turned[j] = column;
        }
        turn_square(&mut square);
        assert!(rt; square == turned);
    }
}
