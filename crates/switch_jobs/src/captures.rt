ghost use Rattle.std.specs.Prelude.{◌≡◌, ℕ, ◌≤◌, List, ◌++◌, map, length, OnOk, IfOk};
ghost use Rattle.std.specs.List.{concat, flat_map};
ghost use Rattle.pcap_records.specs.Output.{capture_text, fraction_of, header_text, record_text};
ghost use Rattle.switch_jobs.specs.Captures.{AreLengths, IsCut};

use byteorder::{BigEndian, ByteOrder, LittleEndian};
use card_core::CardOut;
use pcap_records::{FILE_HEADER_BYTES, Link, RECORD_HEADER_BYTES, write_header};
use rotating_pick::OutOfMemory;
use std::alloc::{AllocError, Global};

/// The output capture of what a card leaves: a record for each message, of nanoseconds where `nano` says so
/// and else of microseconds. The messages have 16 to 65,551 bytes and are all of the body. The only error
/// is out of memory.
pub fn output_bytes(
    alloc: Global,
    card: &CardOut,
    nano: bool,
    link: Link,
) -> Result<Vec<u8>, OutOfMemory>
    requires { IsCut card.now }
    ensures { (messages : List (List ℕ)) → card.now.body.items ≡ concat messages → card.now.lens.items ≡ map length messages
        → IfOk result (λ bytes. bytes.items ≡ capture_text nano link messages) }
{
    let mut body = Vec::with_capacity(alloc, FILE_HEADER_BYTES + card.body.len())?;
    body.extend_from_slice(&card.body)?;
    capture_in(body, &card.lens, nano, link)
}

/// The same of a card that is let go: each message becomes its record where it stands, behind room for the header.
pub fn into_capture(card: CardOut, nano: bool, link: Link) -> Result<Vec<u8>, OutOfMemory>
    requires { IsCut card }
    ensures { (messages : List (List ℕ)) → card.body.items ≡ concat messages → card.lens.items ≡ map length messages
        → IfOk result (λ bytes. bytes.items ≡ capture_text nano link messages) }
{
    capture_in(card.body, &card.lens, nano, link)
}

// The capture of the messages of this body, which have these lengths. The only error is out of memory.
fn capture_in(body: Vec<u8>, lens: &[u32], nano: bool, link: Link) -> Result<Vec<u8>, OutOfMemory>
    requires { AreLengths lens.now (length body.items) }
    ensures { (messages : List (List ℕ)) → body.items ≡ concat messages → lens.now ≡ map length messages
        → IfOk result (λ bytes. bytes.items ≡ capture_text nano link messages) }
{
    let mut bytes = body;
    turn_messages(&mut bytes, lens, nano);
    put_header(&mut bytes, nano, link)?;
    Ok(bytes)
}

// Puts the header of a capture before its records. The only error is out of memory.
fn put_header(records: &mut Vec<u8>, nano: bool, link: Link) -> Result<(), AllocError>
    ensures { OnOk result (records.new.items ≡ header_text nano link ++ records.old.items) }
{
    let mut header = [0; FILE_HEADER_BYTES];
    write_header(&mut header, nano, link);
    records.reserve_exact(FILE_HEADER_BYTES)?;
    records.splice(0..0, header)?;
    Ok(())
}

// Makes each message its record, where it stands.
fn turn_messages(bytes: &mut [u8], lens: &[u32], nano: bool)
    requires { AreLengths lens.now (length bytes.old) }
    ensures { (messages : List (List ℕ)) → bytes.old ≡ concat messages → lens.now ≡ map length messages
        → bytes.new ≡ flat_map (record_text nano) messages }
{
    let mut start = 0;
    for len in lens {
        let end = start + *len as usize;
        turn_message(&mut bytes[start..end], nano);
        start = end;
    }
}

// Makes a message its record: the numbers of its header are turned round, the nanoseconds come in the unit of the
// file, and the captured length is that of the bytes that follow.
fn turn_message(message: &mut [u8], nano: bool)
    requires header { 16 ≤ length message.old }
    requires size { length message.old ≤ 262160 }
    ensures { message.new ≡ record_text nano message.old }
{
    let seconds = BigEndian::read_u32(message);
    let nanos = BigEndian::read_u32(&message[4..]);
    let captured = message.len() - RECORD_HEADER_BYTES;
    let original = BigEndian::read_u32(&message[12..]);
    LittleEndian::write_u32(message, seconds);
    LittleEndian::write_u32(&mut message[4..], fraction_in(nano, nanos));
    LittleEndian::write_u32(&mut message[8..], captured as u32);
    LittleEndian::write_u32(&mut message[12..], original);
}

// Nanoseconds in the unit of a file, rounded down.
fn fraction_in(nano: bool, nanos: u32) -> u32
    ensures { result ≡ fraction_of nano nanos }
{
    if nano { nanos } else { nanos / 1_000 }
}
