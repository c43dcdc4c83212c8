//! Rows of counted delays: `delays DELAY*NUMBER .. -> TOTAL SUM P50 P90 P99 P99.9 P99.99 LONGEST COUNTED*NUMBER ..` states
//! of so many delays of each length how many there are, their sum, five percentiles, the longest, and each number as
//! which some are counted with how many are.
ghost use Rattle.std.specs.Prelude.{◌≡◌};

use crate::items::add_item;
use delay_counts::{DELAY_PLACES, DelayCounts, MAX_DELAYS};
use std::alloc::{AllocError, Global};
use test_vectors::{NoAnswer, Row, number, words};

// The shares that a row states, in parts of 10,000.
const SHARES: [u32; 5] = [5_000, 9_000, 9_900, 9_990, 9_999];

/// The row that a line is.
pub fn row(alloc: Global, line: &str) -> Result<Row, AllocError> {
    match line.split_once(" -> ") {
        Some((question, stated)) => Row::new(alloc, stated, answer(alloc, question)),
        None => Row::unread(alloc, line),
    }
}

fn answer(alloc: Global, question: &str) -> Result<String, NoAnswer> {
    let words = words(alloc, question)?;
    let ["delays", lengths @ ..] = words.as_slice() else {
        return Err(NoAnswer);
    };
    let mut counts = DelayCounts::make(alloc)?;
    for length in lengths {
        note_all(&mut counts, length)?;
    }
    counts_text(alloc, &counts)
}

// Counts so many delays of one length, as `7*3` states.
fn note_all(counts: &mut DelayCounts, length: &str) -> Result<(), NoAnswer> {
    let (delay, times) = length.split_once('*').ok_or(NoAnswer)?;
    let delay = number(delay)?;
    for _ in 0..number(times)? {
        if counts.total() == MAX_DELAYS {
            return Err(NoAnswer);
        }
        counts.note(delay);
    }
    Ok(())
}

fn counts_text(alloc: Global, counts: &DelayCounts) -> Result<String, NoAnswer> {
    let total = counts.total();
    let sum = counts.sum();
    let mut text = format!(in alloc; "{total} {sum}")?;
    for share in SHARES {
        add_number(alloc, &mut text, counts.percentile(share))?;
    }
    add_number(alloc, &mut text, counts.longest())?;
    for place in 0..DELAY_PLACES {
        if let Some(count) = counts.count_at(place) {
            let delay = count.delay;
            let number = count.number;
            let item = format!(in alloc; "{delay}*{number}")?;
            add_item(&mut text, item.as_str())?;
        }
    }
    Ok(text)
}

fn add_number(alloc: Global, text: &mut String, number: u32) -> Result<(), AllocError> {
    let item = format!(in alloc; "{number}")?;
    add_item(text, item.as_str())
}
