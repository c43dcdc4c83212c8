//! Rows of tables, in blocks: `case NAME`, `n N`, `repeat K` and `text "..."` set up the text; then `answer ok
//! LINES` or `answer FAULT NUMBERS` states what its plan is, and `route ADDRESS FAN LEVEL` or `route ADDRESS
//! none` where it sends a packet. A plan does not tell how many lines its table has.
use crate::plans::{route_answer, table_answer};
use std::alloc::{AllocError, Global};
use std::collections::VecDeque;
use std::thread::Threads;
use test_vectors::{Row, TableText, address, is_comment, set_up_row};

/// What each line of a file gives, in order: a row, or None where it sets up the text. Comments are left out.
pub fn rows_of_lines<R: Threads + Sync>(
    rt: &R,
    alloc: Global,
    text: &str,
) -> Result<VecDeque<Option<Row>>, AllocError> {
    let mut table = TableText::new(alloc);
    let mut rows = VecDeque::new(alloc);
    for line in text.lines() {
        if !is_comment(line) {
            rows.push_back(row_of(rt, alloc, &mut table, line)?)?;
        }
    }
    Ok(rows)
}

// What a line gives, where the lines before it have set up this text.
fn row_of<R: Threads + Sync>(
    rt: &R,
    alloc: Global,
    table: &mut TableText,
    line: &str,
) -> Result<Option<Row>, AllocError> {
    if let Some(set_up) = table.set_up(alloc, line) {
        return set_up_row(alloc, line, set_up);
    }
    let row = match line.split_once(' ') {
        Some(("answer", value)) => {
            Row::new(alloc, stated(value), table_answer(rt, alloc, table))?
        }
        Some(("route", value)) => route_row(rt, alloc, table, value)?,
        _ => Row::unread(alloc, line)?,
    };
    Ok(Some(row))
}

// The stated answer without the number of lines, which a plan does not tell.
fn stated(value: &str) -> &str {
    match value.split_once(' ') {
        Some(("ok", _lines)) => "ok",
        _ => value,
    }
}

fn route_row<R: Threads + Sync>(
    rt: &R,
    alloc: Global,
    table: &TableText,
    value: &str,
) -> Result<Row, AllocError> {
    let Some((to, stated)) = value.split_once(' ') else {
        return Row::unread(alloc, value);
    };
    match address(alloc, to) {
        Ok(to) => Row::new(alloc, stated, route_answer(rt, alloc, table, to)),
        Err(_) => Row::unread(alloc, value),
    }
}
