//! Rows of vector files: each is a question and the answer that it states. A program says how the
//! lines of its files are read; here they are read, their answers compared with what they state, and
//! what is wrong is counted and named.
#![tactic(auto)]

mod checks;
mod escapes;
mod fields;
mod row;
mod row_reader;
mod table_text;
#[cfg(test)]
mod tests;

pub use checks::{check_named_files, check_text};
pub use fields::{address, byte, number, port_count, port_set, words};
pub use row::{NoAnswer, Row, set_up_row, wrong_count};
pub use row_reader::{RowReader, is_comment, rows_of};
pub use table_text::TableText;
