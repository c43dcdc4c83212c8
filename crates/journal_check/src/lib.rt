//! Journal files: what a switch's scheduler decided in each slot, as bytes, and a checker of such files.
//!
//! The checker trusts nothing of the file's maker. It decides each slot anew, from the rows that the
//! file has, and compares.
#![tactic(auto)]

mod bytes;
mod check;
mod fields;
mod header;
mod judge;
pub mod laws;
mod limits;
mod posts;
mod slots;
mod verdict;
mod writer;

pub use bytes::{journal_bytes, journal_len};
pub use check::{check_journal, check_journal_by};
pub use limits::{MAX_JOURNAL_BYTES, limits_are};
pub use verdict::{JournalFault, Reason, Verdict};
pub use writer::JournalWriter;
