//! Captures of one packet or none: classic pcap files, little-endian, in microseconds, of Ethernet frames.
use std::alloc::{AllocError, Global};

// The header of a file.
const HEADER: &[u8; 24] = b"\xd4\xc3\xb2\xa1\x02\0\x04\0\0\0\0\0\0\0\0\0\0\0\x04\0\x01\0\0\0";

// The header of a record at time 0, of 34 captured bytes of a packet of 34.
const RECORD: &[u8; 16] = b"\0\0\0\0\0\0\0\0\x22\0\0\0\x22\0\0\0";

// The addresses of a frame.
const ADDRESSES: &[u8; 12] = b"\x02\0\0\0\0\x01\x02\0\0\0\0\x02";

// The Ethernet types of an IPv4 packet and of a frame that is none.
const IPV4: &[u8; 2] = b"\x08\0";

const ARP: &[u8; 2] = b"\x08\x06";

// An IPv4 header except for its last four bytes, the address that the packet goes to.
const IP_HEADER: &[u8; 16] = b"\x45\0\0\x14\0\0\0\0\x40\x11\0\0\x0a\0\0\x01";

/// A capture without packets.
pub fn without_packets(alloc: Global) -> Result<Vec<u8>, AllocError> {
    HEADER.to_vec(alloc)
}

/// A capture of one packet to the address, or of one that goes to no address.
pub fn of_one_packet(alloc: Global, address: Option<u32>) -> Result<Vec<u8>, AllocError> {
    let (kind, to) = match address {
        Some(address) => (IPV4, address),
        None => (ARP, 0),
    };
    let mut capture = without_packets(alloc)?;
    capture.extend_from_slice(RECORD)?;
    capture.extend_from_slice(ADDRESSES)?;
    capture.extend_from_slice(kind)?;
    capture.extend_from_slice(IP_HEADER)?;
    capture.extend_from_slice(&to.to_be_bytes())?;
    Ok(capture)
}
