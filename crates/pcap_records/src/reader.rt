ghost use Rattle.std.specs.Prelude.{◌≡◌, ◌⊎◌, ◌<◌, ◌^◌, ℕ, List, Bool, length, drop, map, All, vec_len, IfOk, IfErr, IsErrAnd, MatchResult};
ghost use Rattle.pcap_records.specs.declared.fault.PcapFault.{PcapFault};
ghost use Rattle.pcap_records.specs.declared.link.Link.{Link};
ghost use Rattle.pcap_records.specs.Packets.{Packet, packet_in, packets_of, AreInOrder, IsWithin};
ghost use Rattle.pcap_records.specs.Format.{header_of};
ghost use Rattle.pcap_records.specs.Captures.{HasHeader, IsCapture};
ghost use Rattle.pcap_records.specs.Faults.{IsFault};

use crate::capture::{Capture, Stored};
use crate::fault::PcapFault;
use crate::header::{Header, read_header};
use crate::limits::FILE_HEADER_BYTES;
use crate::record::read_record;
use std::alloc::Global;

/// Reads a capture file of fewer than 2^32 bytes, each record once. The answer owns the file's
/// bytes as they came in, and takes memory for its packets alone, 20 bytes for each.
///
/// A file that is no capture is answered by its fault. The one other error is that there was no
/// memory, which may come in place of any answer.
pub fn read_capture(alloc: Global, bytes: Vec<u8>) -> Result<Capture, PcapFault>
    requires { vec_len bytes < 2 ^ 32 }

    // What is read is a capture, with just these packets, which stand in the file one after the other.
    ensures found { IfOk result (λ c. IsCapture bytes.items c.nano c.link (packets_of c)) }
    ensures within { IfOk result (λ c. All (IsWithin c.bytes.items) c.packets.items) }
    ensures in_order { IfOk result (λ c. AreInOrder c.packets.items) }
    ensures bytes { IfOk result (λ c. c.bytes.items ≡ bytes.items) }

    // What is not read has that fault, or there was no memory.
    ensures fault { IfErr result (λ answer.
        (answer ≡ PcapFault.OutOfMemory) ⊎ IsFault bytes.items answer) }

    // A capture is read, and a fault is answered, unless there is no memory.
    ensures every_capture { (nano : Bool) (link : Link) (packets : List Packet)
        → IsCapture bytes.items nano link packets
        → MatchResult result
        (λ c. (c.nano ≡ nano) × (c.link ≡ link) × (packets_of c ≡ packets))
        (λ answer. answer ≡ PcapFault.OutOfMemory) }
    ensures every_fault { (fault : PcapFault) → IsFault bytes.items fault
        → IsErrAnd result (λ answer. (answer ≡ PcapFault.OutOfMemory) ⊎ (answer ≡ fault)) }
{
    let header = read_header(&bytes)?;
    let packets = read_records(alloc, header, &bytes)?;
    Ok(Capture {
        nano: header.nano,
        link: header.link,
        packets,
        bytes,
    })
}

// The packets of the records that follow a header, to the end of the file.
fn read_records(alloc: Global, header: Header, bytes: &[u8]) -> Result<Vec<Stored>, PcapFault>
    requires size { length bytes.now < 2 ^ 32 }
    requires header { HasHeader bytes.now
        (header_of header.order header.nano header.link) (drop 24 bytes.now) }
    ensures found { IfOk result (λ v.
        IsCapture bytes.now header.nano header.link (map (packet_in bytes.now) v.items)) }
    ensures within { IfOk result (λ v. All (IsWithin bytes.now) v.items) }
    ensures in_order { IfOk result (λ v. AreInOrder v.items) }
    ensures fault { IfErr result (λ answer.
        (answer ≡ PcapFault.OutOfMemory) ⊎ IsFault bytes.now answer) }
{
    let mut packets = Vec::new(alloc);
    let mut at = FILE_HEADER_BYTES;
    while at < bytes.len() {
        let packet = read_record(header.order, header.nano, bytes, at)?;
        at = packet.start as usize + packet.len as usize;
        packets.push(packet)?;
    }
    Ok(packets)
}
