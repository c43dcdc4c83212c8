ghost use Rattle.std.specs.Prelude.{◌≡◌, ◌+◌, ◌≤◌, ◌∷◌, [], None, Some, length, drop, decimal};
ghost use Rattle.slot_report.specs.Texts.{letter_of};
ghost use Rattle.packet_times.specs.Rows.{state_name, departure_text, delay_text, row_text};
ghost use Rattle.packet_times.specs.FieldSteps.{outcome_texts, leaving_texts, texts_of};
ghost use Rattle.packet_times.specs.PuttingSteps.{IsPut, IsPutBefore, AreFieldsBefore};

use crate::rows::{kind_of, size_of, state_of};
use crate::state::PacketState;
use crate::walk::Outcome;
use card_core::Planned;
use itoa::write_digits;
use rotating_pick::Kind;

/// More bytes than a row has: at most 21 for each of its 11 fields.
pub(crate) const MOST_ROW_BYTES: usize = 256;

/// An output of a packet, and the slot in which the packet left by it, if it did.
#[derive(Clone, Copy)]
pub(crate) struct Leaving {
    pub(crate) output: u32,
    pub(crate) departure: Option<u32>,
}

/// A row: a packet and one of its outputs, None where it goes nowhere.
#[derive(Clone, Copy)]
pub(crate) struct Row {
    pub(crate) outcome: Outcome,
    pub(crate) leaving: Option<Leaving>,
}

// The name of a state.
fn name_of(state: PacketState) -> &'static str
    ensures name { result.now ≡ state_name state }
    ensures short { length result.now ≤ 20 }
{
    match state {
        PacketState::Forwarded => "forwarded",
        PacketState::Dropped => "dropped",
        PacketState::Unrouted => "unrouted",
        PacketState::Oversize => "oversize",
    }
}

// The letter of a kind.
fn letter(kind: Kind) -> &'static str
    ensures name { result.now ≡ letter_of kind }
    ensures short { length result.now ≤ 20 }
{
    match kind {
        Kind::Uni => "u",
        Kind::Multi => "m",
    }
}

/// Puts bytes at a place, and answers the place after them.
pub(crate) fn put_bytes(buf: &mut [u8], at: usize, bytes: &[u8]) -> usize
    requires { at + length bytes.now ≤ length buf.old }
    ensures { IsPut buf.old at bytes.now buf.new result }
{
    let end = at + bytes.len();
    buf[at..end].copy_from_slice(bytes);
    end
}

// Puts bytes before a place, and answers where they begin.
fn put_before(line: &mut [u8], end: usize, bytes: &[u8]) -> usize
    requires room { length bytes.now ≤ end }
    requires inside { end ≤ length line.old }
    ensures { IsPutBefore line.old end bytes.now line.new result }
{
    let at = end - bytes.len();
    line[at..end].copy_from_slice(bytes);
    at
}

// Puts a comma and a text before a place, and answers where they begin.
fn put_text(line: &mut [u8], end: usize, text: &str) -> usize
    requires short { length text.now ≤ 20 }
    requires room { 21 ≤ end }
    requires inside { end ≤ length line.old }
    ensures put { IsPutBefore line.old end (44 ∷ text.now) line.new result }
    ensures short { end ≤ result + 21 }
{
    let at = put_before(line, end, text.as_bytes());
    put_before(line, at, b",")
}

// Puts a comma and the digits of a number before a place, and answers where they begin.
fn put_number(line: &mut [u8], end: usize, number: u64) -> usize
    requires room { 21 ≤ end }
    requires inside { end ≤ length line.old }
    ensures put { IsPutBefore line.old end (44 ∷ decimal number) line.new result }
    ensures short { end ≤ result + 21 }
{
    let at = write_digits(number, line, end);
    put_before(line, at, b",")
}

// Puts the departure and the delay of a packet before a place, and answers where they begin.
fn put_departure(line: &mut [u8], end: usize, arrival: u32, departure: Option<u32>) -> usize
    requires room { 42 ≤ end }
    requires inside { end ≤ length line.old }
    ensures put { AreFieldsBefore line.old end (departure_text departure ∷ delay_text arrival departure ∷ []) line.new result }
    ensures short { end ≤ result + 42 }
{
    match departure {
        Some(slot) => {
            let delay = put_number(line, end, u64::from(slot.saturating_sub(arrival)));
            put_number(line, delay, u64::from(slot))
        }
        None => put_before(line, end, b",,"),
    }
}

// Puts the fields from the level on of a packet that goes to an output before a place, and answers where they begin.
fn put_routed(line: &mut [u8], end: usize, packet: &Planned, leaving: Leaving) -> usize
    requires room { 126 ≤ end }
    requires inside { end ≤ length line.old }
    ensures put { AreFieldsBefore line.old end (leaving_texts packet.now (Some leaving)) line.new result }
    ensures short { end ≤ result + 126 }
{
    let departure = put_departure(line, end, packet.arrival, leaving.departure);
    let arrival = put_number(line, departure, u64::from(packet.arrival));
    let output = put_number(line, arrival, u64::from(leaving.output));
    let kind = put_text(line, output, letter(kind_of(packet.fan)));
    put_number(line, kind, u64::from(packet.level))
}

// Puts the same fields of one that goes nowhere.
fn put_aside(line: &mut [u8], end: usize, packet: &Planned) -> usize
    requires room { 126 ≤ end }
    requires inside { end ≤ length line.old }
    ensures put { AreFieldsBefore line.old end (leaving_texts packet.now None) line.new result }
    ensures short { end ≤ result + 126 }
{
    let departure = put_before(line, end, b",,");
    let arrival = put_number(line, departure, u64::from(packet.arrival));
    put_before(line, arrival, b",,,")
}

// Puts the same fields of any packet.
fn put_leaving(line: &mut [u8], end: usize, packet: &Planned, leaving: Option<Leaving>) -> usize
    requires room { 126 ≤ end }
    requires inside { end ≤ length line.old }
    ensures put { AreFieldsBefore line.old end (leaving_texts packet.now leaving) line.new result }
    ensures short { end ≤ result + 126 }
{
    match leaving {
        Some(leaving) => put_routed(line, end, packet, leaving),
        None => put_aside(line, end, packet),
    }
}

// Puts the fields from the packet's number to its state before a place, and answers where they begin.
fn put_outcome(line: &mut [u8], end: usize, outcome: &Outcome) -> usize
    requires room { 84 ≤ end }
    requires inside { end ≤ length line.old }
    ensures put { AreFieldsBefore line.old end (outcome_texts outcome.now) line.new result }
    ensures short { end ≤ result + 84 }
{
    let packet = &outcome.packet;
    let state = put_text(line, end, name_of(state_of(packet, outcome.admitted)));
    let cells = put_number(line, state, size_of(packet.len));
    let bytes = put_number(line, cells, u64::from(packet.len));
    put_number(line, bytes, outcome.number as u64)
}

/// Writes the line of a row from its end to its begin, so that it ends where `line` does, and answers where it begins.
pub(crate) fn put_line(line: &mut [u8], row: &Row) -> usize
    requires { length line.old ≡ MOST_ROW_BYTES }
    ensures inside { result ≤ MOST_ROW_BYTES }
    ensures text { drop result line.new ≡ row_text (texts_of row.now) }
{
    let outcome = &row.outcome;
    let end = put_before(line, MOST_ROW_BYTES, b"\n");
    let level = put_leaving(line, end, &outcome.packet, row.leaving);
    let number = put_outcome(line, level, outcome);
    write_digits(outcome.input as u64, line, number)
}

/// Puts the line of a row at a place, and answers the place after it. The line is written to `line` first.
pub(crate) fn put_row(buf: &mut [u8], at: usize, line: &mut [u8], row: &Row) -> usize
    requires room { at + MOST_ROW_BYTES ≤ length buf.old }
    requires line { length line.old ≡ MOST_ROW_BYTES }
    ensures { IsPut buf.old at (row_text (texts_of row.now)) buf.new result }
{
    let begin = put_line(line, row);
    put_bytes(buf, at, &line[begin..])
}
