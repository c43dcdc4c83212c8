//! Rows of cells: `cells_of LEN CELLS`, `cut INPUT LEVEL KIND SECONDS NANOS ORIGINAL K PACKET -> CELL`,
//! `cut_long INPUT LEVEL KIND SECONDS NANOS ORIGINAL K -> CELL` and
//! `form CELL -> INPUT LEVEL KIND LAST USED NUMBER`, or `-> none`.
use crate::fields::{bytes, kind};
use crate::texts::kind_letter;
use cell_cutter::{
    CELL_BYTES, Cell, MAX_CAPTURED_BYTES, MAX_FORWARDED_BYTES, Packet, cells_of, cut,
};
use rotating_pick::{LEVELS, MAX_PORTS};
use std::alloc::{AllocError, Global};
use test_vectors::{NoAnswer, Row, byte, number, words};

/// The row that a line is.
pub fn row(alloc: Global, line: &str) -> Result<Row, AllocError> {
    let parts = match line.split_once(" -> ") {
        Some(parts) => Some(parts),
        None => line.rsplit_once(' '),
    };
    match parts {
        Some((question, stated)) => Row::new(alloc, stated, answer(alloc, question)),
        None => Row::unread(alloc, line),
    }
}

fn answer(alloc: Global, question: &str) -> Result<String, NoAnswer> {
    let words = words(alloc, question)?;
    match words.as_slice() {
        ["cells_of", len] => count_text(alloc, len),
        ["form", cell] => form_text(alloc, cell),
        ["cut", head @ .., packet] => short_cut_text(alloc, head, packet),
        ["cut_long", head @ ..] => long_cut_text(alloc, head),
        _ => Err(NoAnswer),
    }
}

fn count_text(alloc: Global, len: &str) -> Result<String, NoAnswer> {
    let len = number(len)?;
    if len > MAX_CAPTURED_BYTES {
        return Err(NoAnswer);
    }
    Ok(format!(in alloc; "{}", cells_of(len))?)
}

/// The 64 bytes of a cell, in hexadecimal.
pub fn cell_bytes(text: &str) -> Result<[u8; CELL_BYTES], NoAnswer> {
    let mut bytes = [0; CELL_BYTES];
    match hex::decode_to_slice(text, &mut bytes) {
        Ok(()) => Ok(bytes),
        Err(_) => Err(NoAnswer),
    }
}

fn short_cut_text(alloc: Global, head: &[&str], packet: &str) -> Result<String, NoAnswer> {
    let packet = bytes(alloc, packet)?;
    cut_text(alloc, head, packet.as_slice())
}

fn long_cut_text(alloc: Global, head: &[&str]) -> Result<String, NoAnswer> {
    let packet = long_packet(alloc)?;
    cut_text(alloc, head, packet.as_slice())
}

// The longest packet that is forwarded: byte x is x mod 251.
fn long_packet(alloc: Global) -> Result<Vec<u8>, AllocError> {
    let mut bytes = Vec::with_capacity(alloc, MAX_FORWARDED_BYTES)?;
    for x in 0..MAX_FORWARDED_BYTES {
        bytes.push((x % 251) as u8)?;
    }
    Ok(bytes)
}

fn cut_text(alloc: Global, head: &[&str], bytes: &[u8]) -> Result<String, NoAnswer> {
    let [input, level, kind_word, seconds, nanos, original, k] = head else {
        return Err(NoAnswer);
    };
    let packet = Packet {
        input: byte(input)?,
        level: byte(level)?,
        kind: kind(kind_word)?,
        seconds: number(seconds)?,
        nanos: number(nanos)?,
        original: number(original)?,
        bytes,
    };
    let cell = cell_of(&packet, number(k)?)?;
    Ok(hex::encode(alloc, cell)?)
}

// The bytes of cell `k` of the packet.
fn cell_of(packet: &Packet<'_>, k: u32) -> Result<[u8; CELL_BYTES], NoAnswer> {
    let len = packet.bytes.len();
    if len > MAX_FORWARDED_BYTES
        || u32::from(packet.input) >= MAX_PORTS
        || u32::from(packet.level) >= LEVELS
        || k >= cells_of(len as u32)
    {
        return Err(NoAnswer);
    }
    match u16::try_from(k) {
        Ok(k) => Ok(cut(packet, k).to_bytes()),
        Err(_) => Err(NoAnswer),
    }
}

fn form_text(alloc: Global, cell: &str) -> Result<String, NoAnswer> {
    let bytes = cell_bytes(cell)?;
    match Cell::from_bytes(&bytes) {
        Some(cell) if cell.to_bytes() == bytes => Ok(cell_text(alloc, &cell)?),
        Some(_) => Err(NoAnswer),
        None => Ok(String::from_str(alloc, "none")?),
    }
}

fn cell_text(alloc: Global, cell: &Cell) -> Result<String, AllocError> {
    let input = cell.input;
    let level = cell.level;
    let kind = kind_letter(cell.kind);
    let last = u8::from(cell.last);
    let used = cell.used;
    let number = cell.number;
    format!(in alloc; "{input} {level} {kind} {last} {used} {number}")
}
