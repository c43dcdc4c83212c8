//! Rows of destinations: `NAME LINK ANSWER FRAME`, where an answer is an IPv4 address, `-` for none.
use crate::fields::{bytes, link};
use frame_fields::destination;
use std::alloc::{AllocError, Global};
use test_vectors::{NoAnswer, Row, words};

/// The row that a line is.
pub fn row(alloc: Global, line: &str) -> Result<Row, AllocError> {
    let words = words(alloc, line)?;
    match words.as_slice() {
        [_, link, stated, frame] => Row::new(alloc, stated, answer(alloc, link, frame)),
        _ => Row::unread(alloc, line),
    }
}

fn answer(alloc: Global, link_text: &str, frame: &str) -> Result<String, NoAnswer> {
    let link = link(link_text)?;
    let frame = bytes(alloc, frame)?;
    Ok(address_text(alloc, destination(link, frame.as_slice()))?)
}

fn address_text(alloc: Global, address: Option<u32>) -> Result<String, AllocError> {
    let Some(address) = address else {
        return String::from_str(alloc, "-");
    };
    let [first, second, third, fourth] = address.to_be_bytes();
    format!(in alloc; "{first}.{second}.{third}.{fourth}")
}
