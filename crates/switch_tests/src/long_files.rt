use crate::captures::ETHERNET;
use crate::commands::{Calls, Told, compare_file, compare_told, give, given_of, run};
use card_worker::OpenGate;
use rotating_pick::OutOfMemory;
use std::alloc::{AllocError, Global};
use std::process::Abort;
use std::thread::Threads;

// The most bytes that a call takes or gives.
const PIECE: u32 = 65_536;

// A command over a long file, which has these first bytes and then zeros, and what it prints.
struct Row<'a> {
    first: &'a [u8],
    len: usize,
    words: &'a [&'a str],
    line: &'a str,
}

// The header of a capture, and of a record with more bytes than a record may have.
const LONG_RECORD: &[u8] = b"\xd4\xc3\xb2\xa1\x02\0\x04\0\0\0\0\0\0\0\0\0\0\0\x04\0\x01\0\0\0\
    \0\0\0\0\0\0\0\0\x01\0\x04\0\x01\0\x04\0";

const ROWS: [Row<'static>; 4] = [
    Row {
        first: b"",
        len: 16_777_217,
        words: &["run", "long", "out", "long"],
        line: "too long: long\n",
    },
    Row {
        first: b"",
        len: 16_777_217,
        words: &["run", "t", "out", "none", "long"],
        line: "too long: long\n",
    },
    Row {
        first: b"",
        len: 16_777_216,
        words: &["run", "t", "out", "none", "long"],
        line: "capture 1: bad magic 00000000\n",
    },
    // All of the record's 262,145 bytes are there.
    Row {
        first: LONG_RECORD,
        len: 262_185,
        words: &["run", "t", "out", "long", "none"],
        line: "capture 0: long record at 24, 262145 bytes\n",
    },
];

// So many bytes: the first ones, and zeros. The length is no literal, so that the prover does not unfold the list.
fn long_file(alloc: Global, first: &[u8], len: usize) -> Result<Vec<u8>, AllocError> {
    let mut bytes = vec![in alloc; 0u8; len]?;
    for (byte, value) in bytes.iter_mut().zip(first) {
        *byte = *value;
    }
    Ok(bytes)
}

fn check_row<R: Threads + Sync + Abort>(
    rt: &R,
    alloc: Global,
    row: &Row<'_>,
) -> Result<(), OutOfMemory> {
    let mut given = given_of(alloc, &[("t", b""), ("none", ETHERNET)])?;
    let long = long_file(alloc, row.first, row.len)?;
    give(alloc, &mut given, "long", long)?;
    let calls = Calls {
        piece: PIECE,
        fails: &[],
    };
    let (files, status) = run(rt, alloc, row.words, given, calls, &OpenGate)?;
    let told = Told {
        status: 4,
        out: "",
        err: row.line,
    };
    compare_told(rt, &files, status, told, row.words);
    for name in ["out.0.pcap", "out.1.pcap", "out.report"] {
        compare_file(rt, &files, name, None, row.words);
    }
    Ok(())
}

#[test]
fn long_files_are_refused(rt: HostRuntime) -> Result<(), OutOfMemory> {
    for row in &ROWS {
        check_row(&rt, rt.alloc(), row)?;
    }
    Ok(())
}
