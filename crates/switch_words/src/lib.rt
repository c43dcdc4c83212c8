//! The words of the command line: which job a list of words means.
//!
//! ```text
//! run TABLE PREFIX INPUT..      1 to 64 inputs
//! gen SEED COUNT PORTS
//! check FILE
//! firm TABLE INPUT..            1 to 64 inputs
//!
//! --rounds R    rounds in a slot, 1 to 64       run, gen, firm
//! --depth D     cells of a queue, 1 to 131,072, with --long to 1,073,741,824   run, gen, firm
//! --workers W   1 to 32                         run, gen
//! --pace-us K   microseconds of a slot, 1 to 1,000,000   run, firm
//! --line-rate M   megabits a second of a line, 1 to 1,600,000, without --pace-us   run, firm
//! --scheduler NAME   islip, firm or rrm         run, gen, check
//! --slots       report each slot                run
//! --journal     write the journal               run
//! --reference   compare each output with the output-queued reference   run
//! --queues      report how long each queue was  run
//! --packets     write when each packet left     run
//! --alone       make the slots on one thread    run
//! --long        take greater captures, without --slots and --journal   run, firm
//! ```
#![tactic(auto)]

mod fault;
mod job;
mod limits;
mod numbers;
mod options;
mod reader;

pub use fault::WordsFault;
pub use job::{CheckJob, FirmJob, GenJob, Job, RunJob, Settings, Speed};
pub use limits::{LONG_DEPTH, MAX_COUNT, MAX_SEED, MAX_WORKERS, limits_are};
pub use reader::read_words;
