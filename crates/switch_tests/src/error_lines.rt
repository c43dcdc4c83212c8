use crate::one_packet::run_with;
use outside::{Call, Fail};
use rotating_pick::OutOfMemory;
use std::alloc::Global;
use std::process::Abort;
use std::thread::Threads;

// No line is given to standard error in as many pieces.
const MOST_PIECES: u32 = 64;

const USAGE: &str =
    "usage: tiny_tera run [options] TABLE PREFIX INPUT.. or tiny_tera gen [options] SEED COUNT PORTS or tiny_tera check FILE \
    or tiny_tera firm [options] TABLE INPUT..\n";

// A command, a call that fails, the status and the line that come of it, and the line's first piece.
struct Line<'a> {
    words: &'a [&'a str],
    fail: Fail,
    status: u8,
    line: &'a str,
    first: &'a str,
}

const NO_CALL: Fail = Fail {
    call: Call::Read,
    number: 1_000,
};

const LINES: [Line<'static>; 7] = [
    Line {
        words: &[],
        fail: NO_CALL,
        status: 2,
        line: USAGE,
        first: "usage: tiny_",
    },
    Line {
        words: &["go"],
        fail: NO_CALL,
        status: 2,
        line: USAGE,
        first: "usage: tiny_",
    },
    Line {
        words: &["run", "t", "out", "a", "missing"],
        fail: NO_CALL,
        status: 3,
        line: "read fault: missing\n",
        first: "read fault: ",
    },
    Line {
        words: &["run", "a", "out", "a", "b"],
        fail: NO_CALL,
        status: 4,
        line: "table line 1: bad line\n",
        first: "table line ",
    },
    Line {
        words: &["run", "t", "out", "b", "t"],
        fail: NO_CALL,
        status: 4,
        line: "capture 1: bad magic 31302e30\n",
        first: "capture ",
    },
    Line {
        words: &["run", "t", "out", "a", "b"],
        fail: Fail {
            call: Call::Begin,
            number: 2,
        },
        status: 6,
        line: "write fault: out.1.pcap\n",
        first: "write fault:",
    },
    Line {
        words: &["run", "t", "out", "a", "b"],
        fail: Fail {
            call: Call::Out,
            number: 1,
        },
        status: 6,
        line: "write fault: standard output\n",
        first: "write fault:",
    },
];

// With a call of standard error failing too, a first part of the line is printed; answers its length. The status stays.
fn printed_with<R: Threads + Sync + Abort>(
    rt: &R,
    alloc: Global,
    row: &Line<'_>,
    number: u32,
) -> Result<usize, OutOfMemory> {
    let fails = [
        row.fail,
        Fail {
            call: Call::Err,
            number,
        },
    ];
    let (files, status) = run_with(rt, alloc, row.words, &fails)?;
    let printed = files.err_text();
    assert!(rt;
        status == row.status && row.line.as_bytes().starts_with(printed),
        "call {number}"
    );
    Ok(printed.len())
}

// With call after call of standard error failing, longer first parts of the line are printed.
fn check_line<R: Threads + Sync + Abort>(
    rt: &R,
    alloc: Global,
    row: &Line<'_>,
) -> Result<(), OutOfMemory> {
    assert!(rt; printed_with(rt, alloc, row, 1)? == 0, "{}", row.line);
    let mut before = printed_with(rt, alloc, row, 2)?;
    assert!(rt; before == row.first.len(), "{}", row.line);
    for number in 3..MOST_PIECES {
        let printed = printed_with(rt, alloc, row, number)?;
        if printed == before {
            break;
        }
        before = printed;
    }
    assert!(rt; before == row.line.len(), "{}", row.line);
    Ok(())
}

#[test]
fn rest_of_line_is_left_out(rt: HostRuntime) -> Result<(), OutOfMemory> {
    for row in &LINES {
        check_line(&rt, rt.alloc(), row)?;
    }
    Ok(())
}
