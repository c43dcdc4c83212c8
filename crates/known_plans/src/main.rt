//! Runs test vectors from outside against the plan of a job: each table is planned with captures that have no
//! packets, and with a packet to each address whose route is stated; the plan or its refusal is compared with
//! what the row states. In `limits.txt` it is the first limit that numbers of slots, packets and cells pass.
//!
//! `known_plans FILE..` prints a line for each file, as `tables.txt: 298 rows, 0 wrong`, and names each
//! wrong row on standard error. A row that cannot be read is wrong. The status is 0 where nothing is
//! wrong, else 1.
#![tactic(auto)]

mod captures;
mod limit_rows;
mod plans;
mod table_rows;
mod vector_file;

use crate::vector_file::Reader;
use std::process::ExitCode;
use std::rt::Files;
use std::thread::Threads;
use std::{env, fs, io};
use test_vectors::check_text;

fn main(rt: HostRuntime) -> io::Result<ExitCode> {
    let mut status = ExitCode::SUCCESS;
    for path in env::args(&rt)?.skip(1) {
        if check_file(&rt, path.as_str())? > 0 {
            status = ExitCode::FAILURE;
        }
    }
    Ok(status)
}

// How many rows of the file are wrong.
fn check_file<R: Threads + Sync + Files + Print + Eprint + AllocGlobal>(
    rt: &R,
    path: &str,
) -> io::Result<usize> {
    let text = fs::read_to_string(rt, path)?;
    let rows = match path {
        "limits.txt" => limit_rows::rows_of_lines(rt.alloc(), text.as_str())?,
        _ => table_rows::rows_of_lines(rt, rt.alloc(), text.as_str())?,
    };
    check_text(rt, path, Reader { rows }, text.as_str())
}
