//! Runs test vectors from outside against the crates of the switch: each row of a vector file is a
//! question and an answer; the question is put to the crate, and what it answers is compared with
//! what the row states.
//!
//! `known_answers FILE..` prints a line for each file, as `cells.txt: 130 rows, 0 wrong`, and names
//! each wrong row on standard error. A row that cannot be read is wrong. The status is 0 where
//! nothing is wrong, else 1.
#![tactic(auto)]

mod arrival_rows;
mod capture_rows;
mod cell_rows;
mod decision_rows;
mod destination_rows;
mod fields;
mod islip_rows;
mod kernel_rows;
mod longest_rows;
mod message_rows;
mod reassembly_rows;
mod rotating_rows;
mod schedule_rows;
mod slot_fields;
mod table_rows;
mod texts;
mod vector_file;
mod wait_rows;

use crate::vector_file::Reader;
use std::io;
use std::process::ExitCode;
use test_vectors::check_named_files;

fn main(rt: HostRuntime) -> io::Result<ExitCode> {
    check_named_files::<Reader>(&rt)
}
