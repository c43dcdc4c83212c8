//! Rows of made traffic. `stream SEED NUMBER -> WORD ..` states the first words of a stream, `traffic PATTERN WEIGHT
//! LOAD BURST PORTS -> PATTERN WEIGHT LOAD BURST PORTS` that there is such traffic, or `-> none` that there is none;
//! a weight that is `-` is not given. `source PATTERN WEIGHT LOAD BURST PORTS SEED INPUT SLOTS -> OUTPUT*COUNT ..`
//! states the outputs of the cells that come to an input in the first slots, each with how many slots it has one after
//! the other, and `-` where no cell comes.
ghost use Rattle.std.specs.Prelude.{◌≡◌, ◌<◌, IfOk};

use crate::items::add_item;
use made_traffic::{Pattern, Source, Traffic, stream};
use rand_core::utils::NextWord;
use std::alloc::{AllocError, Global};
use test_vectors::{NoAnswer, Row, byte, number, words};

// How many words of a stream a row states.
const STATED_WORDS: u32 = 3;

/// The row that a line is.
pub fn row(alloc: Global, line: &str) -> Result<Row, AllocError> {
    match line.split_once(" -> ") {
        Some((question, stated)) => Row::new(alloc, stated, answer(alloc, question)),
        None => Row::unread(alloc, line),
    }
}

fn answer(alloc: Global, question: &str) -> Result<String, NoAnswer> {
    let words = words(alloc, question)?;
    match words.as_slice() {
        ["stream", seed, index] => stream_text(alloc, number(seed)?, byte(index)?),
        ["traffic", numbers @ ..] => traffic_text(alloc, traffic_of(numbers)?),
        ["source", numbers @ .., seed, input, slots] => {
            let source = source_of(traffic_of(numbers)?, number(seed)?, number(input)?)?;
            source_text(alloc, source, number(slots)?)
        }
        _ => Err(NoAnswer),
    }
}

// The traffic that five words mean, None where there is none.
fn traffic_of(words: &[&str]) -> Result<Option<Traffic>, NoAnswer> {
    let [name, weight, load, burst, ports] = words else {
        return Err(NoAnswer);
    };
    let weight = match *weight {
        "-" => None,
        weight => Some(number(weight)?),
    };
    let load = number(load)?;
    let burst = number(burst)?;
    let ports = number(ports)?;
    match Pattern::named(name, weight) {
        Some(pattern) => Ok(Traffic::new(ports, pattern, load, burst)),
        None => Ok(None),
    }
}

// The source of an input, where there is such traffic and the input is one of its ports.
fn source_of(traffic: Option<Traffic>, seed: u32, input: u32) -> Result<Source, NoAnswer> {
    match traffic {
        Some(traffic) if input < traffic.ports() => Ok(Source::new(traffic, seed, input)),
        _ => Err(NoAnswer),
    }
}

fn stream_text(alloc: Global, seed: u32, index: u8) -> Result<String, NoAnswer> {
    let mut drawn = stream(seed, index);
    let mut text = String::new(alloc);
    for _ in 0..STATED_WORDS {
        let word = drawn.next_word();
        let item = format!(in alloc; "{word}")?;
        add_item(&mut text, item.as_str())?;
    }
    Ok(text)
}

fn traffic_text(alloc: Global, traffic: Option<Traffic>) -> Result<String, NoAnswer> {
    let Some(traffic) = traffic else {
        return Ok(String::from_str(alloc, "none")?);
    };
    let pattern = traffic.pattern();
    let name = pattern.word();
    let weight = pattern.weight();
    let load = traffic.load();
    let burst = traffic.burst();
    let ports = traffic.ports();
    Ok(format!(in alloc; "{name} {weight} {load} {burst} {ports}")?)
}

fn source_text(alloc: Global, mut source: Source, slots: u32) -> Result<String, NoAnswer> {
    let mut text = String::new(alloc);
    let mut output = None;
    let mut count: u32 = 0;
    for _ in 0..slots {
        let next = source.next();
        if next != output {
            add_outputs(alloc, &mut text, output, count)?;
            output = next;
            count = 0;
        }
        count = count.saturating_add(1);
    }
    add_outputs(alloc, &mut text, output, count)?;
    Ok(text)
}

// Adds an output that so many slots had one after the other, where any had it.
fn add_outputs(
    alloc: Global,
    text: &mut String,
    output: Option<u32>,
    count: u32,
) -> Result<(), AllocError> {
    let item = match output {
        _ if count == 0 => return Ok(()),
        Some(output) => format!(in alloc; "{output}*{count}")?,
        None => format!(in alloc; "-*{count}")?,
    };
    add_item(text, item.as_str())
}
