//! Rows of capture files: `NAME BYTES ANSWER`, where an answer is `ok UNIT LINK PACKETS` or a fault
//! with its numbers; a packet is `SECONDS.NANOSECONDS:ORIGINAL:START:LENGTH`.
use crate::fields::bytes;
use crate::texts::{add_item, link_number, unit_name};
use pcap_records::{Capture, PcapFault, Stored, read_capture};
use rotating_pick::MAX_FILE_BYTES;
use std::alloc::{AllocError, Global};
use test_vectors::{NoAnswer, Row};

/// The row that a line is.
pub fn row(alloc: Global, line: &str) -> Result<Row, AllocError> {
    let Some((_, rest)) = line.split_once(' ') else {
        return Row::unread(alloc, line);
    };
    match rest.split_once(' ') {
        Some((file, stated)) => Row::new(alloc, stated, answer(alloc, file)),
        None => Row::unread(alloc, line),
    }
}

fn answer(alloc: Global, file: &str) -> Result<String, NoAnswer> {
    let file = bytes(alloc, file)?;
    if file.len() > MAX_FILE_BYTES {
        return Err(NoAnswer);
    }
    match read_capture(alloc, file) {
        Ok(capture) => Ok(capture_text(alloc, &capture)?),
        Err(fault) => fault_text(alloc, fault),
    }
}

fn capture_text(alloc: Global, capture: &Capture) -> Result<String, AllocError> {
    let unit = unit_name(capture.nano);
    let link = link_number(capture.link);
    let packets = packets_text(alloc, capture.packets.as_slice())?;
    format!(in alloc; "ok {unit} {link} {packets}")
}

fn packets_text(alloc: Global, packets: &[Stored]) -> Result<String, AllocError> {
    if packets.is_empty() {
        return String::from_str(alloc, "-");
    }
    let mut list = String::new(alloc);
    for packet in packets {
        let item = packet_text(alloc, packet)?;
        add_item(&mut list, item.as_str())?;
    }
    Ok(list)
}

fn packet_text(alloc: Global, packet: &Stored) -> Result<String, AllocError> {
    let Stored {
        seconds,
        nanos,
        original,
        start,
        len,
    } = *packet;
    format!(in alloc; "{seconds}.{nanos:09}:{original}:{start}:{len}")
}

fn fault_text(alloc: Global, fault: PcapFault) -> Result<String, NoAnswer> {
    let text = match fault {
        PcapFault::ShortHeader { len } => format!(in alloc; "short_header {len}"),
        PcapFault::BadMagic { found } => format!(in alloc; "bad_magic {found:08x}"),
        PcapFault::BadVersion { major, minor } => format!(in alloc; "bad_version {major}.{minor}"),
        PcapFault::BadLink { found } => format!(in alloc; "bad_link {found}"),
        PcapFault::CutRecord { at } => format!(in alloc; "cut_record {at}"),
        PcapFault::LongRecord { at, len } => format!(in alloc; "long_record {at} {len}"),
        PcapFault::OutOfMemory => return Err(NoAnswer),
    };
    Ok(text?)
}
