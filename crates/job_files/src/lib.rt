//! The files of a job and how a command ends: inputs read, outputs written, a journal file checked, and the line on standard
//! error.
#![tactic(auto)]

mod check;
mod check_ending;
mod ending;
mod error_lines;
mod inputs;
mod journal_file;
mod limits;
mod output_files;
mod pieces;
mod yes_lines;

pub use check::check_file;
pub use check_ending::CheckEnding;
pub use ending::{Ending, Written};
pub use error_lines::{print_line, print_memory, print_usage};
pub use inputs::{
    InputFile, Inputs, Reads, input_name, made_inputs, read_inputs, reads_of_firm, reads_of_run,
};
pub use limits::{MAX_LONG_CAPTURE, limits_are};
pub use output_files::{JobTexts, OutputFile, packets_file, put_texts, run_files};
pub use pieces::{PiecedFile, Pieces};
