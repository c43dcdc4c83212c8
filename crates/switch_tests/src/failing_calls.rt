use crate::captures::{ETHERNET, ONE_FRAME};
use crate::commands::{Told, compare_file, compare_told};
use crate::one_packet::{PIECE, REPORT, SUMMARY, run_with};
use outside::{Call, Fail, MemFiles};
use rotating_pick::OutOfMemory;
use std::alloc::Global;
use std::process::Abort;
use std::thread::Threads;

// A job: its words, its outputs in the order in which they are written, and the kinds of calls that it makes.
struct Job<'a> {
    words: &'a [&'a str],
    outputs: &'a [(&'a str, &'a [u8])],
    kinds: &'a [Kind<'a>],
}

// A kind of call, how many calls of it the job makes for each name in turn, and how a fault of it ends.
struct Kind<'a> {
    call: Call,
    names: &'a [(&'a str, u32)],
    status: u8,
    fault: &'a str,
}

const JOURNAL: &[u8] = b"TTJ1\x02\x04\0\0\0\0\0\x04\
    \0\x01\0\0\xff\0\xff\0\
    \x01\x01\0\0\0\0\0\0\0\x02\0\0\xff\0\0\0\
    \x01\x01\0\0\0\0\0\0\0\x02\0\0\xff\0\0\0\
    \0\0\0\0\xff\0\xff\0";

// The last read of each file gives nothing.
const READS: Kind<'static> = Kind {
    call: Call::Read,
    names: &[("t", 4), ("a", 10), ("b", 3)],
    status: 3,
    fault: "read fault: ",
};

const OUTS: Kind<'static> = Kind {
    call: Call::Out,
    names: &[("standard output", 11)],
    status: 6,
    fault: "write fault: ",
};

const JOBS: [Job<'static>; 3] = [
    Job {
        words: &["run", "--workers", "1", "t", "out", "a", "b"],
        outputs: &[
            ("out.0.pcap", ETHERNET),
            ("out.1.pcap", ONE_FRAME),
            ("out.report", REPORT),
        ],
        kinds: &[
            READS,
            Kind {
                call: Call::Begin,
                names: &[("out.0.pcap", 1), ("out.1.pcap", 1), ("out.report", 1)],
                status: 6,
                fault: "write fault: ",
            },
            Kind {
                call: Call::Write,
                names: &[("out.0.pcap", 2), ("out.1.pcap", 9), ("out.report", 15)],
                status: 6,
                fault: "write fault: ",
            },
            OUTS,
        ],
    },
    Job {
        words: &["run", "--workers", "1", "--journal", "t", "out", "a", "b"],
        outputs: &[
            ("out.0.pcap", ETHERNET),
            ("out.1.pcap", ONE_FRAME),
            ("out.report", REPORT),
            ("out.journal", JOURNAL),
        ],
        kinds: &[
            READS,
            Kind {
                call: Call::Begin,
                names: &[
                    ("out.0.pcap", 1),
                    ("out.1.pcap", 1),
                    ("out.report", 1),
                    ("out.journal", 1),
                ],
                status: 6,
                fault: "write fault: ",
            },
            Kind {
                call: Call::Write,
                names: &[
                    ("out.0.pcap", 2),
                    ("out.1.pcap", 9),
                    ("out.report", 15),
                    ("out.journal", 5),
                ],
                status: 6,
                fault: "write fault: ",
            },
            OUTS,
        ],
    },
    // The empty name is one like others.
    Job {
        words: &["run", "", "", "a", "b"],
        outputs: &[
            (".0.pcap", ETHERNET),
            (".1.pcap", ONE_FRAME),
            (".report", REPORT),
        ],
        kinds: &[
            Kind {
                call: Call::Read,
                names: &[("", 4), ("a", 10), ("b", 3)],
                status: 3,
                fault: "read fault: ",
            },
            Kind {
                call: Call::Begin,
                names: &[(".0.pcap", 1), (".1.pcap", 1), (".report", 1)],
                status: 6,
                fault: "write fault: ",
            },
            Kind {
                call: Call::Write,
                names: &[(".0.pcap", 2), (".1.pcap", 9), (".report", 15)],
                status: 6,
                fault: "write fault: ",
            },
            OUTS,
        ],
    },
];

// What a failed call leaves: how many outputs are whole, how many bytes the next one has, where it was begun, and
// how many standard output was given.
#[derive(Clone, Copy)]
struct Left {
    whole: usize,
    next: Option<usize>,
    out: usize,
}

// After `done` calls of the kind on the name of this place in the kind's list, and one that failed.
fn left_after(job: &Job<'_>, call: Call, place: usize, done: u32) -> Left {
    let bytes = done.saturating_mul(PIECE) as usize;
    let (whole, next, out) = match call {
        Call::Begin => (place, None, 0),
        Call::Write => (place, Some(bytes), 0),
        Call::Out => (job.outputs.len(), None, bytes),
        Call::Read | Call::Err => (0, None, 0),
    };
    Left { whole, next, out }
}

// What is left of the output of this place.
fn left_of(bytes: &[u8], place: usize, left: Left) -> Option<&[u8]> {
    if place < left.whole {
        return Some(bytes);
    }
    match left.next {
        Some(len) if place == left.whole => bytes.get(..len),
        _ => None,
    }
}

fn compare_left(rt: &impl Abort, job: &Job<'_>, files: &MemFiles, left: Left) {
    for (place, (name, bytes)) in job.outputs.iter().enumerate() {
        compare_file(rt, files, name, left_of(bytes, place, left), job.words);
    }
}

// Runs the job with a call failing, and compares how it ends.
fn check_call<R: Threads + Sync + Abort>(
    rt: &R,
    alloc: Global,
    job: &Job<'_>,
    fail: Fail,
    (status, line, left): (u8, &str, Left),
) -> Result<(), OutOfMemory> {
    let (files, found) = run_with(rt, alloc, job.words, &[fail])?;
    let told = Told {
        status,
        out: SUMMARY.get(..left.out).unwrap_or(SUMMARY),
        err: line,
    };
    compare_told(rt, &files, found, told, job.words);
    compare_left(rt, job, &files, left);
    Ok(())
}

// Lets each call for one name fail; answers the number of the next call of the kind.
fn check_name<R: Threads + Sync + Abort>(
    rt: &R,
    alloc: Global,
    job: &Job<'_>,
    kind: &Kind<'_>,
    place: usize,
    first: u32,
) -> Result<u32, OutOfMemory> {
    let call = kind.call;
    let mut number = first;
    if let Some((name, calls)) = kind.names.get(place) {
        let line = format!(in alloc; "{}{name}\n", kind.fault)?;
        for done in 0..*calls {
            let left = left_after(job, call, place, done);
            let ending = (kind.status, line.as_str(), left);
            check_call(rt, alloc, job, Fail { call, number }, ending)?;
            number = number.saturating_add(1);
        }
    }
    Ok(number)
}

// Lets each call of a kind fail in turn; one more than the job makes changes nothing.
fn check_kind<R: Threads + Sync + Abort>(
    rt: &R,
    alloc: Global,
    job: &Job<'_>,
    kind: &Kind<'_>,
) -> Result<(), OutOfMemory> {
    let call = kind.call;
    let mut number = 1;
    for place in 0..kind.names.len() {
        number = check_name(rt, alloc, job, kind, place, number)?;
    }
    let whole = left_after(job, Call::Out, 0, u32::MAX);
    check_call(rt, alloc, job, Fail { call, number }, (0, "", whole))
}

#[test]
fn each_call_fails_in_turn(rt: HostRuntime) -> Result<(), OutOfMemory> {
    for job in &JOBS {
        for kind in job.kinds {
            check_kind(&rt, rt.alloc(), job, kind)?;
        }
    }
    Ok(())
}
