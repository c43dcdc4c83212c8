//! Laws of the format: each is the contract of a call that does nothing.

ghost use Rattle.std.specs.Prelude.{◌≡◌, ◌<◌, ◌≤◌, ◌++◌, ℕ, List, Bool, true, length, map, All};
ghost use Rattle.std.specs.List.{AllByRecursion};
ghost use Rattle.pcap_records.specs.declared.fault.PcapFault.{PcapFault};
ghost use Rattle.pcap_records.specs.declared.link.Link.{Link};
ghost use Rattle.pcap_records.specs.declared.order.Order.TheVariants.{Little};
ghost use Rattle.pcap_records.specs.Packets.{Packet};
ghost use Rattle.pcap_records.specs.Format.{Record, IsRecord, packet_of};
ghost use Rattle.pcap_records.specs.Captures.{IsCapture, records_bytes};
ghost use Rattle.pcap_records.specs.Faults.{IsFault};
ghost use Rattle.pcap_records.specs.Output.{header_text, record_text, capture_text, message_of, message_packet, IsMessage, IsWritable};

use crate::limits::{FILE_HEADER_BYTES, RECORD_HEADER_BYTES};
use cell_cutter::MAX_CAPTURED_BYTES;

/// The limits of the format as it is read here: 24 bytes of a file's header and 16 of a record's, and at
/// most 262,144 captured bytes of a packet. A file of any length below 2^32 bytes is read.
pub fn limits_are()
    ensures header { FILE_HEADER_BYTES ≡ 24 }
    ensures record_header { RECORD_HEADER_BYTES ≡ 16 }
    ensures captured { MAX_CAPTURED_BYTES ≡ 262144 }
{}

/// A file is a capture in one way: no other packets, unit or link type can be read from it.
pub fn one_reading()
    ensures { (file : List ℕ) (nano other_nano : Bool) (link other_link : Link)
        (packets other_packets : List Packet)
        → IsCapture file nano link packets → IsCapture file other_nano other_link other_packets
        → (nano ≡ other_nano) × (link ≡ other_link) × (packets ≡ other_packets) }
{}

/// A file has one fault at most, and a capture has none.
pub fn one_fault()
    ensures one { (file : List ℕ) (fault other : PcapFault)
        → IsFault file fault → IsFault file other → fault ≡ other }
    ensures none { (file : List ℕ) (nano : Bool) (link : Link) (packets : List Packet)
        (fault : PcapFault) → IsCapture file nano link packets → IsFault file fault → ⊥ }
{}

/// An output capture is a capture, with the packets of its messages; and so is one that
/// is followed by any records, with their packets too.
pub fn output_is_read_again()
    ensures alone { (nano : Bool) (link : Link) (messages : List (List ℕ))
        → All (IsMessage nano) messages
        → IsCapture (capture_text nano link messages) nano link (map message_packet messages) }
    ensures followed { (nano : Bool) (link : Link) (messages : List (List ℕ))
        (records : List Record)
        → All (IsMessage nano) messages → AllByRecursion IsRecord records
        → IsCapture (capture_text nano link messages ++ records_bytes Little records) nano link
        (map message_packet messages ++ map (packet_of nano) records) }
{}

/// The header of an output capture has 24 bytes, and a record of it as many as its message.
pub fn text_lengths()
    ensures header { (nano : Bool) (link : Link) → length (header_text nano link) ≡ 24 }
    ensures record_of_message { (nano : Bool) (m : List ℕ)
        → 16 ≤ length m → length (record_text nano m) ≡ length m }
{}

/// The packets of a capture can be written, to a file of its own unit and to one of nanoseconds.
pub fn what_is_read_can_be_written()
    ensures own_unit { (file : List ℕ) (nano : Bool) (link : Link) (packets : List Packet)
        → All (λ b. b < 256) file
        → IsCapture file nano link packets → All (IsWritable nano) packets }
    ensures nanoseconds { (file : List ℕ) (nano : Bool) (link : Link) (packets : List Packet)
        → All (λ b. b < 256) file
        → IsCapture file nano link packets → All (IsWritable true) packets }
{}

/// The message of a packet is one that can be written, and stands for that packet.
pub fn message_stands_for_its_packet()
    ensures message { (nano : Bool) (p : Packet) → IsWritable nano p → IsMessage nano (message_of p) }
    ensures packet { (nano : Bool) (p : Packet) → IsWritable nano p → message_packet (message_of p) ≡ p }
{}
