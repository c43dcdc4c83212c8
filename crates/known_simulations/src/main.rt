//! Runs test vectors from outside against the parts of a simulation: each row of a vector file is a question and an
//! answer; the question is put to a crate, and what it answers is compared with what the row states.
//!
//! `known_simulations FILE..` prints a line for each file, as `traffic.txt: 130 rows, 0 wrong`, and names each wrong
//! row on standard error. A row that cannot be read is wrong. The status is 0 where nothing is wrong, else 1.
#![tactic(auto)]

mod delay_rows;
mod items;
mod queue_rows;
mod traffic_rows;
mod vector_file;

use crate::vector_file::Reader;
use std::io;
use std::process::ExitCode;
use test_vectors::check_named_files;

fn main(rt: HostRuntime) -> io::Result<ExitCode> {
    check_named_files::<Reader>(&rt)
}
