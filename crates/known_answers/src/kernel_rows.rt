//! Rows of the kernels of the rounds: `transpose N ROWS -> COLUMNS` and
//! `picks N FROM SETS FREE -> CHOSEN`.
use crate::fields::{port_sets, port_table};
use crate::texts::{choices_text, port_sets_text};
use islip_rounds::{picks, transpose};
use rotating_pick::PORT_COUNT;
use std::alloc::{AllocError, Global};
use test_vectors::{NoAnswer, Row, port_count, port_set, words};

/// The row that a line is.
pub fn row(alloc: Global, line: &str) -> Result<Row, AllocError> {
    match line.split_once(" -> ") {
        Some((question, stated)) => Row::new(alloc, stated, answer(alloc, question)),
        None => Row::unread(alloc, line),
    }
}

fn answer(alloc: Global, question: &str) -> Result<String, NoAnswer> {
    let words = words(alloc, question)?;
    match words.as_slice() {
        ["transpose", n, rows] => columns(alloc, n, rows),
        ["picks", n, from, sets, free] => chosen(alloc, n, from, sets, free),
        _ => Err(NoAnswer),
    }
}

fn columns(alloc: Global, n: &str, rows: &str) -> Result<String, NoAnswer> {
    let n = port_count(n)?;
    let rows = port_sets(alloc, n, rows)?;
    let mut columns = [0; PORT_COUNT];
    transpose(n, rows.as_slice(), &mut columns);
    Ok(port_sets_text(alloc, &columns[..n as usize])?)
}

fn chosen(alloc: Global, n: &str, from: &str, sets: &str, free: &str) -> Result<String, NoAnswer> {
    let n = port_count(n)?;
    let from = port_table(alloc, n, from)?;
    let sets = port_sets(alloc, n, sets)?;
    let free = port_set(free)?;
    let mut chosen = [None; PORT_COUNT];
    picks(n, &from, sets.as_slice(), free, &mut chosen);
    Ok(choices_text(alloc, &chosen[..n as usize])?)
}
