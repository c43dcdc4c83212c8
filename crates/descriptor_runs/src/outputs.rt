ghost use Rattle.std.specs.Prelude.{◌≡◌, ◌≤◌, ◌+◌, ◌^◌, ◌<◌, List, [], ◌∷◌, ◌++◌, ℕ, length, IfOk, OnOk, is_some};
ghost use Rattle.std.specs.Option.{option_map};
ghost use Rattle.descriptor_runs.specs.OutputSteps.{HasRecords, new_output, record_message};
ghost use Rattle.pcap_records.specs.declared.link.Link.{Link as ALink};
ghost use Rattle.pcap_records.specs.declared.order.Order.TheVariants.{Little};
ghost use Rattle.pcap_records.specs.Format.{record_header};
ghost use Rattle.pcap_records.specs.Output.{capture_text, fraction_of};

use byteorder::{ByteOrder, LittleEndian};
use card_core::Planned;
use pcap_records::{FILE_HEADER_BYTES, Link, RECORD_HEADER_BYTES, write_header};
use rotating_pick::OutOfMemory;
use slot_report::OutLine;
use std::alloc::{AllocError, Global};
use std::marker::Model;

/// What becomes of the captures of a run's outputs.
#[derive(Clone, Copy, Debug, PartialEq, Eq)]
pub enum Captures {
    /// They are made in memory, in room that is taken before the first slot.
    Kept,
    /// None is made, and no byte of a packet is read for one.
    Dropped,
}

/// An output of a run by descriptors: its capture, to which a record is added with the last cell of a packet, or none where
/// captures are dropped.
#[derive(Drop)]
pub(crate) struct Output {
    text: Option<Vec<u8>>,
    packets: u32,
    cells: u32,
}

impl Model for Output {
    ghost use Rattle.std.specs.Option.{option_map};
    ghost use Rattle.descriptor_runs.specs.OutputSteps.{OutputValue};

    ghost Value = { OutputValue };

    ghost view = { λ o. record { text = option_map (λ text. text.items) o.text; packets = o.packets; cells = o.cells } };
}

impl Output {
    /// An output to which nothing has come, with room for so many bytes of records where captures are kept. The only error is want
    /// of memory, as where the room is more than there can be.
    pub(crate) fn make(
        alloc: Global,
        captures: Captures,
        nano: bool,
        link: Link,
        room: usize,
    ) -> Result<Output, OutOfMemory>
        ensures { IfOk result (λ output. output ≡ new_output captures nano link) }
    {
        let text = match captures {
            Captures::Kept => Some(empty_capture(alloc, nano, link, room)?),
            Captures::Dropped => None,
        };
        Ok(Output {
            text,
            packets: 0,
            cells: 0,
        })
    }

    /// A cell comes that ends no packet.
    pub(crate) fn take_cell(&mut self)
        requires few { self.old.cells + 1 < 2 ^ 32 }
        ensures { self.new ≡ record { text = self.old.text; packets = self.old.packets; cells = self.old.cells + 1 } }
    {
        self.cells += 1;
    }

    /// A packet comes, whose record is added to the capture where it is kept, in nanoseconds or else in microseconds. The only error
    /// is out of memory. `bytes` are the captured bytes of all packets of its input.
    pub(crate) fn put(
        &mut self,
        nano: bool,
        packet: &Planned,
        bytes: &[u8],
    ) -> Result<(), AllocError>
        requires few { self.old.packets + 1 < 2 ^ 32 }
        requires place { packet.now.start + packet.now.len ≤ length bytes.now }
        ensures text { OnOk result (HasRecords nano (record_message packet.now bytes.now ∷ []) self.old.text self.new.text) }
        ensures kept { OnOk result (is_some self.new.text ≡ is_some self.old.text) }
        ensures counts { OnOk result ((self.new.packets ≡ self.old.packets + 1) × (self.new.cells ≡ self.old.cells)) }
    {
        if let Some(text) = &mut self.text {
            put_record(text, nano, packet, bytes)?;
        }
        self.packets += 1;
        Ok(())
    }

    /// The bytes of the capture where it is kept, and how many packets and cells came.
    pub(crate) fn into_parts(self) -> (Option<Vec<u8>>, OutLine)
        ensures { (option_map (λ text. text.items) result.0 ≡ self.text)
            × (result.1 ≡ record { packets = self.packets; cells = self.cells }) }
    {
        let line = OutLine {
            packets: self.packets,
            cells: self.cells,
        };
        (self.text, line)
    }
}

// A capture without records, with room for so many bytes of them. The only error is out of memory.
fn empty_capture(alloc: Global, nano: bool, link: Link, room: usize) -> Result<Vec<u8>, OutOfMemory>
    ensures { IfOk result (λ text. text.items ≡ capture_text nano link []) }
{
    let mut text = Vec::with_capacity(alloc, room.saturating_add(FILE_HEADER_BYTES))?;
    text.extend_from_slice(&[0; FILE_HEADER_BYTES])?;
    write_header(&mut text, nano, link);
    Ok(text)
}

// The record of a packet is added to a capture. The only error is out of memory.
fn put_record(
    text: &mut Vec<u8>,
    nano: bool,
    packet: &Planned,
    bytes: &[u8],
) -> Result<(), AllocError>
    requires place { packet.now.start + packet.now.len ≤ length bytes.now }
    ensures { OnOk result ((link : ALink) (messages : List (List ℕ)) → text.old.items ≡ capture_text nano link messages
        → text.new.items ≡ capture_text nano link (messages ++ record_message packet.now bytes.now ∷ [])) }
{
    let start = packet.start as usize;
    text.extend_from_slice(&header_of(nano, packet))?;
    text.extend_from_slice(&bytes[start..start + packet.len as usize])?;
    Ok(())
}

// The header of a packet's record.
fn header_of(nano: bool, packet: &Planned) -> [u8; RECORD_HEADER_BYTES]
    ensures { result ≡ record_header Little packet.now.seconds (fraction_of nano packet.now.nanos) packet.now.len packet.now.original }
{
    let mut header = [0; RECORD_HEADER_BYTES];
    LittleEndian::write_u32(&mut header, packet.seconds);
    LittleEndian::write_u32(&mut header[4..], fraction_in(nano, packet.nanos));
    LittleEndian::write_u32(&mut header[8..], packet.len);
    LittleEndian::write_u32(&mut header[12..], packet.original);
    header
}

// Nanoseconds in the unit of a file, rounded down.
fn fraction_in(nano: bool, nanos: u32) -> u32
    ensures { result ≡ fraction_of nano nanos }
{
    if nano { nanos } else { nanos / 1_000 }
}
