//! The table and the captures of a load.
ghost use Rattle.std.specs.Prelude.{◌<◌, ◌≤◌};

use pcap_records::{FILE_HEADER_BYTES, Link, write_header};
use rotating_pick::MAX_PORTS;
use std::alloc::{AllocError, Global};

/// What an IPv4 header has before its destination.
const HEADER_BEGIN: [u8; 16] = [0x45, 0, 0, 0, 0, 0, 0, 0, 0, 0, 0, 0, 0, 0, 0, 0];

/// The bytes of an IPv4 header.
const HEADER_BYTES: u32 = 20;

/// Packets that come to each port, one after the other.
#[derive(Clone, Copy)]
pub(crate) struct Load {
    /// The number of ports, 1 to 64.
    pub(crate) ports: u32,
    /// How many packets come to each port.
    pub(crate) packets: u32,
    /// The bytes of each packet, at least 20.
    pub(crate) len: u32,
}

/// The text of a table with a route to each port.
pub(crate) fn table_of(alloc: Global, ports: u32) -> Result<Vec<u8>, AllocError> {
    let mut text = String::new(alloc);
    for port in 0..ports {
        write!(text, "10.0.{port}.0/24 {port}\n")?;
    }
    Ok(text.into_bytes())
}

/// The capture of each port, of raw IP packets.
pub(crate) fn captures_of(alloc: Global, load: &Load) -> Result<Vec<Vec<u8>>, AllocError>
    requires ports { load.now.ports ≤ MAX_PORTS }
    requires len { HEADER_BYTES ≤ load.now.len }
{
    let mut captures = Vec::new(alloc);
    for port in 0..load.ports {
        captures.push(capture_of(alloc, load, port)?)?;
    }
    Ok(captures)
}

// The capture of a port. Its packets go to the ports after it in turn.
fn capture_of(alloc: Global, load: &Load, port: u32) -> Result<Vec<u8>, AllocError>
    requires ports { load.now.ports ≤ MAX_PORTS }
    requires port { port < load.now.ports }
    requires len { HEADER_BYTES ≤ load.now.len }
{
    let mut file = vec![in alloc; 0; FILE_HEADER_BYTES]?;
    write_header(&mut file, false, Link::RawIp);
    let mut output = port;
    for _ in 0..load.packets {
        output = output.wrapping_add(1) % load.ports;
        push_header(&mut file, load.len)?;
        push_packet(&mut file, output as u8, load.len)?;
    }
    Ok(file)
}

// Adds the header of a record, of a packet of which all bytes were captured.
fn push_header(file: &mut Vec<u8>, len: u32) -> Result<(), AllocError> {
    file.extend_from_slice(&[0; 8])?;
    file.extend_from_slice(&len.to_le_bytes())?;
    file.extend_from_slice(&len.to_le_bytes())
}

// Adds a packet to an output.
fn push_packet(file: &mut Vec<u8>, output: u8, len: u32) -> Result<(), AllocError>
    requires { HEADER_BYTES ≤ len }
{
    file.extend_from_slice(&HEADER_BEGIN)?;
    file.extend_from_slice(&[10, 0, output, 1])?;
    file.resize(file.len() + (len - HEADER_BYTES) as usize, 0)
}
