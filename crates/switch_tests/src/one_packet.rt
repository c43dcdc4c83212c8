use crate::captures::{ETHERNET, ONE_FRAME};
use crate::commands::{Calls, given_of, run};
use card_worker::OpenGate;
use outside::{Fail, MemFiles};
use rotating_pick::OutOfMemory;
use std::alloc::Global;
use std::process::Abort;
use std::thread::Threads;

/// What the job prints: of two ports, in which a frame of two cells crosses from port 0 to port 1.
pub(crate) const SUMMARY: &str =
    "ports 2\nrounds 4\ndepth 131072\nslots 4\npackets 1\noversize 0\nunrouted 0\ndropped 0\n\
    forwarded 1\ncopies 1\ncells 2\nlongest 0 0 0 0\n";

/// Its report.
pub(crate) const REPORT: &[u8] =
    b"ports 2\nrounds 4\ndepth 131072\nslots 4\npackets 1\noversize 0\nunrouted 0\ndropped 0\n\
    forwarded 1\ncopies 1\ncells 2\nlongest 0 0 0 0\n\
    output 0 packets 0 cells 0\noutput 1 packets 1 cells 2\n";

const TABLE: &[u8] = b"10.0.0.0/24 0\n10.0.1.0/24 1\n";

/// Its files: the captures `a` and `b`, and the table as `t` and by the empty name, which no file on a disk has.
pub(crate) const FILES: [(&str, &[u8]); 4] = [
    ("t", TABLE),
    ("", TABLE),
    ("a", ONE_FRAME),
    ("b", ETHERNET),
];

/// The most bytes that a call of `run_with` takes or gives.
pub(crate) const PIECE: u32 = 12;

/// Runs the command of these words over the job's files, with these calls failing.
pub(crate) fn run_with<R: Threads + Sync + Abort>(
    rt: &R,
    alloc: Global,
    words: &[&str],
    fails: &[Fail],
) -> Result<(MemFiles, u8), OutOfMemory> {
    let given = given_of(alloc, &FILES)?;
    let piece = PIECE;
    run(rt, alloc, words, given, Calls { piece, fails }, &OpenGate)
}
