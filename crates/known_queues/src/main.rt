//! Runs test vectors from outside against the queues of an input: a vector file is a list of calls of
//! the queues with their answers; each call is made, and what it answers is compared with what its row
//! states.
//!
//! `known_queues FILE..` prints a line for each file, as `banks.txt: 450 rows, 0 wrong`, and names each
//! wrong row on standard error. A row that cannot be read, and a call that the queues do not take, is
//! wrong. The status is 0 where nothing is wrong, else 1.
#![tactic(auto)]

mod bank_rows;
mod fan_queue_rows;
mod fields;
mod vector_file;

use crate::vector_file::Reader;
use std::io;
use std::process::ExitCode;
use test_vectors::check_named_files;

fn main(rt: HostRuntime) -> io::Result<ExitCode> {
    check_named_files::<Reader>(&rt)
}
