ghost use Rattle.std.specs.Prelude.{◌≡◌, ◌<◌, slice_index_or, vec_len};
ghost use Rattle.pcap_records.specs.declared.capture.Stored.{Stored};
ghost use Rattle.pcap_records.specs.Packets.{Packet, captured_in, packets_of, IsWithin};

use crate::link::Link;

/// A packet of a capture, and where its captured bytes stand in the file.
#[derive(Clone, Copy, Debug, PartialEq, Eq)]
pub struct Stored {
    /// When it was captured: seconds.
    pub seconds: u32,
    /// When it was captured: nanoseconds beyond the second, below 1,000,000,000.
    pub nanos: u32,
    /// How many bytes the packet had on the line; any number.
    pub original: u32,
    /// The place of the first captured byte in the file, counted from 0.
    pub start: u32,
    /// How many bytes were captured, at most 262,144.
    pub len: u32,
}

/// A capture file, and its packets in the order of the file.
#[derive(Debug, Drop)]
pub struct Capture {
    /// Whether the file counts its fractions of seconds in nanoseconds; otherwise in microseconds.
    pub nano: bool,
    /// The link type of all its packets.
    pub link: Link,
    /// Its packets.
    pub packets: Vec<Stored>,
    /// The whole file as it was read.
    pub bytes: Vec<u8>,
}

impl Capture {
    /// The captured bytes of packet `k`, counted from 0: the `len` bytes of the file from `start` on,
    /// which must lie within it, as those of each packet of `read_capture` do.
    pub fn body(&self, k: u32) -> &[u8]
        requires packet { k < vec_len self.now.packets }
        requires within { (d : Stored)
            → IsWithin self.now.bytes.items (slice_index_or self.now.packets.items k d) }
        ensures place { (d : Stored)
            → result.now ≡ captured_in self.now.bytes.items (slice_index_or self.now.packets.items k d) }
        ensures packet { (d : Packet) → result.now ≡ (slice_index_or (packets_of self.now) k d).bytes }
    {
        let packet = self.packets[k as usize];
        let start = packet.start as usize;
        &self.bytes[start..start + packet.len as usize]
    }
}
