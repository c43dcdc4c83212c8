//! Rows of rotating choice: `dist N FROM X ANSWER`, `next N X ANSWER`, `pick N FROM SET ANSWER`,
//! `rotate N SET BY ANSWER` and `lowest SET ANSWER`.
use crate::texts::choice_text;
use rotating_pick::{MAX_PORTS, dist, is_among, lowest, next, pick, rotate};
use std::alloc::{AllocError, Global};
use test_vectors::{NoAnswer, Row, number, port_set, words};

/// The row that a line is.
pub fn row(alloc: Global, line: &str) -> Result<Row, AllocError> {
    match line.rsplit_once(' ') {
        Some((question, stated)) => Row::new(alloc, stated, answer(alloc, question)),
        None => Row::unread(alloc, line),
    }
}

fn answer(alloc: Global, question: &str) -> Result<String, NoAnswer> {
    let words = words(alloc, question)?;
    match words.as_slice() {
        ["dist", fields @ ..] => distance(alloc, fields),
        ["next", fields @ ..] => following(alloc, fields),
        ["pick", fields @ ..] => picked(alloc, fields),
        ["rotate", fields @ ..] => rotated(alloc, fields),
        ["lowest", set] => lowest_of(alloc, set),
        _ => Err(NoAnswer),
    }
}

fn distance(alloc: Global, fields: &[&str]) -> Result<String, NoAnswer> {
    let [n, from, x] = fields else {
        return Err(NoAnswer);
    };
    let n = number(n)?;
    let from = number(from)?;
    let x = number(x)?;
    if n > MAX_PORTS || from >= n || x >= n {
        return Err(NoAnswer);
    }
    Ok(format!(in alloc; "{}", dist(n, from, x))?)
}

fn following(alloc: Global, fields: &[&str]) -> Result<String, NoAnswer> {
    let [n, x] = fields else {
        return Err(NoAnswer);
    };
    let n = number(n)?;
    let x = number(x)?;
    if n > MAX_PORTS || x >= n {
        return Err(NoAnswer);
    }
    Ok(format!(in alloc; "{}", next(n, x))?)
}

fn picked(alloc: Global, fields: &[&str]) -> Result<String, NoAnswer> {
    let [n, from, set] = fields else {
        return Err(NoAnswer);
    };
    let n = number(n)?;
    let from = number(from)?;
    let set = port_set(set)?;
    if n > MAX_PORTS || from >= n || !is_among(n, set) {
        return Err(NoAnswer);
    }
    Ok(choice_text(alloc, pick(n, from, set))?)
}

fn rotated(alloc: Global, fields: &[&str]) -> Result<String, NoAnswer> {
    let [n, set, by] = fields else {
        return Err(NoAnswer);
    };
    let n = number(n)?;
    let set = port_set(set)?;
    let by = number(by)?;
    if n > MAX_PORTS || by >= n || !is_among(n, set) {
        return Err(NoAnswer);
    }
    Ok(format!(in alloc; "{:#x}", rotate(n, set, by))?)
}

fn lowest_of(alloc: Global, set: &str) -> Result<String, NoAnswer> {
    Ok(choice_text(alloc, lowest(port_set(set)?))?)
}
