//! The fields of a row, read: a summary, lines of outputs, and what a match asks for.

use rotating_pick::{LEVELS, MAX_PORTS, Ports, with};
use slot_match::Row;
use slot_report::{OutLine, Summary};
use std::alloc::Global;
use test_vectors::{NoAnswer, number, words};

fn numbers(alloc: Global, text: &str) -> Result<Vec<u32>, NoAnswer> {
    let mut numbers = Vec::new(alloc);
    for word in words(alloc, text)? {
        numbers.push(number(word)?)?;
    }
    Ok(numbers)
}

/// `PORTS ROUNDS DEPTH SLOTS PACKETS OVERSIZE UNROUTED DROPPED FORWARDED COPIES CELLS WAIT0 WAIT1 WAIT2 WAIT3`.
pub fn summary(alloc: Global, text: &str) -> Result<Summary, NoAnswer> {
    let numbers = numbers(alloc, text)?;
    let [counts @ .., first, second, third, fourth] = numbers.as_slice() else {
        return Err(NoAnswer);
    };
    let [
        ports,
        rounds,
        depth,
        slots,
        packets,
        oversize,
        unrouted,
        dropped,
        forwarded,
        copies,
        cells,
    ] = counts
    else {
        return Err(NoAnswer);
    };
    Ok(Summary {
        ports: *ports,
        rounds: *rounds,
        depth: *depth,
        slots: *slots,
        packets: *packets,
        oversize: *oversize,
        unrouted: *unrouted,
        dropped: *dropped,
        forwarded: *forwarded,
        copies: *copies,
        cells: *cells,
        longest: [*first, *second, *third, *fourth],
    })
}

/// `PACKETS:CELLS,..`, one for each output.
pub fn outputs(alloc: Global, text: &str) -> Result<Vec<OutLine>, NoAnswer> {
    let mut outputs = Vec::new(alloc);
    for item in text.split(',') {
        let (packets, cells) = item.split_once(':').ok_or(NoAnswer)?;
        outputs.push(OutLine {
            packets: number(packets)?,
            cells: number(cells)?,
        })?;
    }
    Ok(outputs)
}

/// The rows of `n` inputs that ask for just this match: for each output what feeds it, as `1:0u`, or
/// `-`, parted by commas.
pub fn asks(alloc: Global, n: u32, text: &str) -> Result<Vec<Row>, NoAnswer> {
    let mut rows = vec![in alloc; Row::empty(); n as usize]?;
    for (output, item) in text.split(',').enumerate() {
        if item != "-" {
            ask(&mut rows, output, item)?;
        }
    }
    Ok(rows)
}

// Lets the input that feeds the output ask for it.
fn ask(rows: &mut Vec<Row>, output: usize, item: &str) -> Result<(), NoAnswer> {
    let (input, fed) = item.split_once(':').ok_or(NoAnswer)?;
    let input = number(input)? as usize;
    if input >= rows.len() {
        return Err(NoAnswer);
    }
    let row = &mut rows[input];
    if let Some(level) = fed.strip_suffix('u') {
        return add(&mut row.uni, level, output);
    }
    add(
        &mut row.multi,
        fed.strip_suffix('m').ok_or(NoAnswer)?,
        output,
    )
}

fn add(sets: &mut [Ports; LEVELS as usize], level: &str, output: usize) -> Result<(), NoAnswer> {
    let level = number(level)?;
    if level >= LEVELS || output >= MAX_PORTS as usize {
        return Err(NoAnswer);
    }
    sets[level as usize] = with(sets[level as usize], output as u32);
    Ok(())
}
