ghost use Rattle.std.specs.Prelude.{◌≡◌, ◌+◌, ◌≤◌, ◌++◌, length, take, drop};
ghost use Rattle.pcap_records.specs.declared.order.Order.TheVariants.{Little};
ghost use Rattle.pcap_records.specs.Format.{number_bytes};
ghost use Rattle.pcap_records.specs.Output.{header_text, record_text, fraction_of};

use crate::header::{MAJOR, MINOR, magic_number};
use crate::limits::RECORD_HEADER_BYTES;
use crate::link::Link;
use crate::order::Order;
use crate::record::NANOS_PER_MICRO;
use byteorder::{ByteOrder, LittleEndian};
use cell_cutter::MAX_CAPTURED_BYTES;

/// Writes the header of an output capture to the first 24 places of a buffer, which has 24 or more:
/// that of a little-endian file whose fractions are nanoseconds, or else microseconds, of that link
/// type. The other places stay.
pub fn write_header(buf: &mut [u8], nano: bool, link: Link)
    requires { 24 ≤ length buf.old }
    ensures { buf.new ≡ header_text nano link ++ drop 24 buf.old }
{
    put_u32(buf, 0, magic_number(nano));
    put_u16(buf, 4, MAJOR);
    put_u16(buf, 6, MINOR);
    put_u32(buf, 8, 0);
    put_u32(buf, 12, 0);
    put_u32(buf, 16, MAX_CAPTURED_BYTES);
    put_u32(buf, 20, link.number());
}

/// Writes the record of a message from place `at` on, and answers the place after it; other places stay.
/// The buffer has room from there on for as many bytes as the message has.
///
/// A message is 16 bytes, which are its seconds, its nanoseconds, its captured length and its length
/// on the line, each a big-endian number of four bytes, and then at most 262,144 captured bytes. The
/// record's captured length is the number of these bytes, and its fraction is the nanoseconds, or in
/// a file of microseconds these divided by 1,000 and rounded down.
pub fn write_record(buf: &mut [u8], at: usize, message: &[u8], nano: bool) -> usize
    requires header { 16 ≤ length message.now }
    requires size { length message.now ≤ 262160 }
    requires room { at + length message.now ≤ length buf.old }
    ensures text { buf.new
        ≡ take at buf.old ++ record_text nano message.now ++ drop (at + length message.now) buf.old }
    ensures place { result ≡ at + length message.now }
{
    let captured = &message[RECORD_HEADER_BYTES..];
    let end = at + message.len();
    put_u32(buf, at, Order::Big.u32_at(message, 0));
    put_u32(
        buf,
        at + 4,
        fraction_in(nano, Order::Big.u32_at(message, 4)),
    );
    put_u32(buf, at + 8, captured.len() as u32);
    put_u32(buf, at + 12, Order::Big.u32_at(message, 12));
    buf[at + RECORD_HEADER_BYTES..end].copy_from_slice(captured);
    end
}

// Nanoseconds in the unit of a file, rounded down.
fn fraction_in(nano: bool, nanos: u32) -> u32
    ensures { result ≡ fraction_of nano nanos }
{
    if nano { nanos } else { nanos / NANOS_PER_MICRO }
}

// Writes the two bytes of a number at a place.
fn put_u16(buf: &mut [u8], at: usize, number: u16)
    requires { at + 2 ≤ length buf.old }
    ensures { buf.new ≡ take at buf.old ++ (number_bytes Little 2 number ++ drop (at + 2) buf.old) }
{
    LittleEndian::write_u16(&mut buf[at..], number);
}

// Writes the four bytes of a number at a place.
fn put_u32(buf: &mut [u8], at: usize, number: u32)
    requires { at + 4 ≤ length buf.old }
    ensures { buf.new ≡ take at buf.old ++ (number_bytes Little 4 number ++ drop (at + 4) buf.old) }
{
    LittleEndian::write_u32(&mut buf[at..], number);
}
