//! Rows of output captures: `header UNIT LINK -> BYTES`, `record UNIT MESSAGE -> BYTES` and
//! `capture UNIT LINK MESSAGES -> BYTES`.
use crate::fields::{bytes, link, unit};
use cell_cutter::MAX_CAPTURED_BYTES;
use pcap_records::{FILE_HEADER_BYTES, Link, RECORD_HEADER_BYTES, write_header, write_record};
use std::alloc::{AllocError, Global};
use test_vectors::{NoAnswer, Row, words};

/// The row that a line is.
pub fn row(alloc: Global, line: &str) -> Result<Row, AllocError> {
    match line.split_once(" -> ") {
        Some((question, stated)) => Row::new(alloc, stated, answer(alloc, question)),
        None => Row::unread(alloc, line),
    }
}

fn answer(alloc: Global, question: &str) -> Result<String, NoAnswer> {
    let words = words(alloc, question)?;
    match words.as_slice() {
        ["header", unit, link] => header_text(alloc, unit, link),
        ["record", unit, message] => record_text(alloc, unit, message),
        ["capture", unit, link, messages] => capture_text(alloc, unit, link, messages),
        _ => Err(NoAnswer),
    }
}

fn header_text(alloc: Global, unit_word: &str, link_word: &str) -> Result<String, NoAnswer> {
    let header = header(alloc, unit(unit_word)?, link(link_word)?)?;
    Ok(hex::encode(alloc, header.as_slice())?)
}

fn record_text(alloc: Global, unit_word: &str, message: &str) -> Result<String, NoAnswer> {
    let record = record(alloc, unit(unit_word)?, message)?;
    Ok(hex::encode(alloc, record.as_slice())?)
}

fn capture_text(
    alloc: Global,
    unit_word: &str,
    link_word: &str,
    messages: &str,
) -> Result<String, NoAnswer> {
    let capture = capture(alloc, unit(unit_word)?, link(link_word)?, messages)?;
    Ok(hex::encode(alloc, capture.as_slice())?)
}

fn header(alloc: Global, nano: bool, link: Link) -> Result<Vec<u8>, AllocError> {
    let mut header = [0; FILE_HEADER_BYTES];
    write_header(&mut header, nano, link);
    Vec::from_slice(alloc, &header)
}

fn record(alloc: Global, nano: bool, message: &str) -> Result<Vec<u8>, NoAnswer> {
    let message = bytes(alloc, message)?;
    let len = message.len();
    if len < RECORD_HEADER_BYTES || len > RECORD_HEADER_BYTES + MAX_CAPTURED_BYTES as usize {
        return Err(NoAnswer);
    }
    let mut record = vec![in alloc; 0; len]?;
    let end = write_record(record.as_mut_slice(), 0, message.as_slice(), nano);
    if end == len {
        Ok(record)
    } else {
        Err(NoAnswer)
    }
}

fn capture(alloc: Global, nano: bool, link: Link, messages: &str) -> Result<Vec<u8>, NoAnswer> {
    let mut file = header(alloc, nano, link)?;
    if messages != "-" {
        for message in messages.split(',') {
            let record = record(alloc, nano, message)?;
            file.extend_from_slice(record.as_slice())?;
        }
    }
    Ok(file)
}
