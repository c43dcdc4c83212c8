//! Rows of limits: a line `NAME SLOTS:PACKETS:CELLS PORTS PACKETS CELLS -> ANSWER`. First come the limits, where `-`
//! says that there is none on packets; then the arrival slots of each port, parted by commas, the packets of all
//! captures, and the cells that these bring to their outputs. The answer is the refusal's line in quotes, or `none`.
use rotating_pick::MAX_PORTS;
use std::alloc::{AllocError, Global};
use std::collections::VecDeque;
use switch_plan::Limits;
use test_vectors::{NoAnswer, Row, is_comment, words};

/// What each line of a file gives, in order. Comments are left out.
pub fn rows_of_lines(alloc: Global, text: &str) -> Result<VecDeque<Option<Row>>, AllocError> {
    let mut rows = VecDeque::new(alloc);
    for line in text.lines() {
        if !is_comment(line) {
            rows.push_back(Some(row_of(alloc, line)?))?;
        }
    }
    Ok(rows)
}

fn row_of(alloc: Global, line: &str) -> Result<Row, AllocError> {
    match line.split_once(" -> ") {
        Some((question, stated)) => Row::new(alloc, stated, answer(alloc, question)),
        None => Row::unread(alloc, line),
    }
}

// The first limit that is passed.
fn answer(alloc: Global, question: &str) -> Result<String, NoAnswer> {
    let words = words(alloc, question)?;
    let [_name, limits, ports, packets, cells] = words.as_slice() else {
        return Err(NoAnswer);
    };
    let limits = limits_of(limits)?;
    let slots = numbers(alloc, ports)?;
    if slots.len() > MAX_PORTS as usize {
        return Err(NoAnswer);
    }
    match limits.passed(&slots, number(packets)?, number(cells)?) {
        Some(fault) => Ok(format!(in alloc; "\"{fault}\"")?),
        None => Ok(String::from_str(alloc, "none")?),
    }
}

// The limits of a row.
fn limits_of(text: &str) -> Result<Limits, NoAnswer> {
    let (slots, rest) = text.split_once(':').ok_or(NoAnswer)?;
    let (packets, cells) = rest.split_once(':').ok_or(NoAnswer)?;
    let packets = match packets {
        "-" => None,
        packets => Some(number(packets)?),
    };
    Ok(Limits {
        slots: number(slots)?,
        packets,
        cells: number(cells)?,
    })
}

fn numbers(alloc: Global, text: &str) -> Result<Vec<u64>, NoAnswer> {
    let mut numbers = Vec::new(alloc);
    for item in text.split(',') {
        numbers.push(number(item)?)?;
    }
    Ok(numbers)
}

// A number of 64 bits.
fn number(text: &str) -> Result<u64, NoAnswer> {
    match text.parse::<u64>() {
        Ok(number) => Ok(number),
        Err(_) => Err(NoAnswer),
    }
}
