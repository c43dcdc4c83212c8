//! The texts that tell of a run: the summary, and the report.
#![tactic(auto)]

mod lines;
mod report;
mod slot_lines;
mod summary;

pub use report::{report_text, report_with_lines, summary_text};
pub use slot_lines::put_slot_line;
pub use summary::{OutLine, Summary};
