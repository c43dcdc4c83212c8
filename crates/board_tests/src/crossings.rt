ghost use Rattle.std.specs.Prelude.{◌≡◌, length};
ghost use Rattle.slot_match.specs.Matches.{IsMatch};

use cell_cutter::{Cell, PAYLOAD_BYTES};
use crossbar::Crossbar;
use rotating_pick::{Kind, Ports};
use slot_match::Match;
use std::process::Abort;

const PORTS: u32 = 4;

// What an input deposits.
#[derive(Clone, Copy)]
struct Deposit {
    input: u32,
    cell: Option<Cell>,
}

// An input, and the outputs that it feeds.
#[derive(Clone, Copy)]
struct Feed {
    input: u32,
    outputs: Ports,
    kind: Kind,
}

// Deposits one after the other, a match, and what an output fetches then.
#[derive(Clone, Copy)]
struct Case<'a> {
    deposits: &'a [Deposit],
    feeds: &'a [Feed],
    output: u32,
    fetched: Option<Cell>,
}

// A full cell of an input that is not the last of its message.
const fn cell(input: u8, number: u16) -> Cell {
    Cell {
        input,
        level: 0,
        kind: Kind::Uni,
        last: false,
        used: PAYLOAD_BYTES as u8,
        number,
        payload: [0; PAYLOAD_BYTES],
    }
}

// An input's deposit of its cell with this number.
const fn some(input: u8, number: u16) -> Deposit {
    Deposit {
        input: input as u32,
        cell: Some(cell(input, number)),
    }
}

// An input's deposit of no cell.
const fn none(input: u32) -> Deposit {
    Deposit { input, cell: None }
}

// An input that feeds one output.
const fn unicast(input: u32, outputs: Ports) -> Feed {
    Feed {
        input,
        outputs,
        kind: Kind::Uni,
    }
}

// An input that feeds several outputs.
const fn multicast(input: u32, outputs: Ports) -> Feed {
    Feed {
        input,
        outputs,
        kind: Kind::Multi,
    }
}

// The crossbar after these deposits.
fn deposited(rt: &impl Abort, deposits: &[Deposit]) -> Crossbar
    ensures { length result ≡ 4 }
{
    let mut crossbar = Crossbar::new(PORTS);
    for deposit in deposits {
        assert!(rt; deposit.input < PORTS);
        crossbar.deposit(deposit.input, deposit.cell);
    }
    crossbar
}

// The match of these inputs with their outputs.
fn matched(rt: &impl Abort, feeds: &[Feed]) -> Match
    ensures { IsMatch 4 result }
{
    let mut matched = Match::new(PORTS);
    for Feed {
        input,
        outputs,
        kind,
    } in feeds {
        assert!(rt; *input < PORTS);
        assert!(rt; matched.may_add(*input, *outputs, 0, *kind));
        matched.add(*input, *outputs, 0, *kind);
    }
    matched
}

#[test]
fn deposits_cross(rt: HostRuntime) {
    let cases = [
        // Nothing is deposited, and the input that feeds the output has deposited none.
        Case {
            deposits: &[],
            feeds: &[unicast(2, 0b0001)],
            output: 0,
            fetched: None,
        },
        Case {
            deposits: &[some(0, 7), some(1, 8), some(3, 9)],
            feeds: &[unicast(2, 0b0001)],
            output: 0,
            fetched: None,
        },
        // The feeding input's cell crosses, and not that of the output's own input.
        Case {
            deposits: &[some(0, 7), some(2, 5)],
            feeds: &[unicast(2, 0b0001)],
            output: 0,
            fetched: Some(cell(2, 5)),
        },
        Case {
            deposits: &[some(3, 4), some(0, 7)],
            feeds: &[unicast(3, 0b0100), unicast(0, 0b1000)],
            output: 3,
            fetched: Some(cell(0, 7)),
        },
        Case {
            deposits: &[some(1, 6)],
            feeds: &[unicast(1, 0b0010)],
            output: 1,
            fetched: Some(cell(1, 6)),
        },
        // A multicast cell crosses to each of its outputs.
        Case {
            deposits: &[some(1, 3)],
            feeds: &[multicast(1, 0b1001)],
            output: 0,
            fetched: Some(cell(1, 3)),
        },
        Case {
            deposits: &[some(1, 3)],
            feeds: &[multicast(1, 0b1001)],
            output: 3,
            fetched: Some(cell(1, 3)),
        },
        // The last deposit of an input counts, a cell or none.
        Case {
            deposits: &[some(2, 1), some(3, 5), some(2, 2)],
            feeds: &[unicast(2, 0b0001)],
            output: 0,
            fetched: Some(cell(2, 2)),
        },
        Case {
            deposits: &[some(2, 1), none(2)],
            feeds: &[unicast(2, 0b0001)],
            output: 0,
            fetched: None,
        },
        // No input feeds the output.
        Case {
            deposits: &[some(0, 0), some(1, 1), some(2, 2), some(3, 3)],
            feeds: &[unicast(2, 0b0001)],
            output: 2,
            fetched: None,
        },
    ];
    for case in cases {
        let crossbar = deposited(&rt, case.deposits);
        let matched = matched(&rt, case.feeds);
        assert!(rt; case.output < PORTS);
        assert_eq!(rt; crossbar.fetch(case.output, &matched), case.fetched);
    }
}
