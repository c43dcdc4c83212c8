//! Runs test vectors from outside against the formats that users read and write: the words of the command line,
//! the texts of a run, and journal files. What each row asks for is computed, and compared with what it states.
//!
//! `known_formats FILE..` prints a line for each file, as `words.txt: 309 rows, 0 wrong`, and names each wrong
//! row on standard error. A line that cannot be read is a wrong row, and so is the first line of a block of
//! texts where the text before it has lines that were not stated. The status is 0 where nothing is wrong,
//! else 1.
#![tactic(auto)]

mod fields;
mod job_texts;
mod journal_rows;
mod slots;
mod text_rows;
mod vector_file;
mod word_rows;

use crate::vector_file::Reader;
use std::io;
use std::process::ExitCode;
use test_vectors::check_named_files;

fn main(rt: HostRuntime) -> io::Result<ExitCode> {
    check_named_files::<Reader>(&rt)
}
