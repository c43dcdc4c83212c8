ghost use Rattle.std.specs.Prelude.{◌≡◌, ◌≤◌, ◌+◌, IfSome};
ghost use Rattle.frame_fields.specs.Destination.{type_at, packet_place, destination_at, destination_of};

use pcap_records::Link;

// The Ethernet type of an IPv4 packet.
const IPV4_TYPE: u16 = 0x0800;

// The Ethernet type of a VLAN tag.
const TAG_TYPE: u16 = 0x8100;

// Where the type field of an Ethernet frame stands: after its two addresses.
const TYPE_PLACE: usize = 12;

// The bytes of a VLAN tag. It stands before the type field of the frame that it tags.
const TAG_BYTES: usize = 4;

// The bytes of a type field.
const TYPE_BYTES: usize = 2;

// The least bytes of an IPv4 header.
const IPV4_HEADER_BYTES: usize = 20;

// Where the destination address stands in an IPv4 header.
const DESTINATION_PLACE: usize = 16;

/// The IPv4 destination address of a frame of this link type. None exactly where the frame has no IPv4
/// packet, or its header is not whole.
///
/// The packet of an Ethernet frame begins at byte 14 where the type at bytes 12 and 13 is 0x0800, and at
/// byte 18 where that type is 0x8100, one VLAN tag, and the type at bytes 16 and 17 is 0x0800. A packet
/// of raw IP begins at byte 0. It has at least 20 bytes, and the version in the upper four bits of its
/// first byte is 4; its header length is not read. The address is that at bytes 16 to 19 of its header.
/// Takes no memory. (The header of IPv4 is that of RFC 791, a VLAN tag that of IEEE 802.1Q.)
pub fn destination(link: Link, frame: &[u8]) -> Option<u32>
    ensures { result ≡ destination_of link frame.now }
{
    match link {
        Link::Ethernet => destination_at(frame, packet_place(frame)?),
        Link::RawIp => destination_at(frame, 0),
    }
}

// Where the IPv4 packet of an Ethernet frame begins.
#[tactic(auto, unfolding(crate::specs::Destination::packet_place))]
fn packet_place(frame: &[u8]) -> Option<usize>
    ensures place { result ≡ packet_place frame.now }
    ensures within { IfSome result (λ place. place ≤ TYPE_PLACE + TAG_BYTES + TYPE_BYTES) }
{
    match type_at(frame, TYPE_PLACE)? {
        IPV4_TYPE => Some(TYPE_PLACE + TYPE_BYTES),
        TAG_TYPE if type_at(frame, TYPE_PLACE + TAG_BYTES)? == IPV4_TYPE => {
            Some(TYPE_PLACE + TAG_BYTES + TYPE_BYTES)
        }
        _ => None,
    }
}

// The type field at this place, where both its bytes are in the frame.
fn type_at(frame: &[u8], place: usize) -> Option<u16>
    requires { place ≤ TYPE_PLACE + TAG_BYTES }
    ensures { result ≡ type_at frame.now place }
{
    if place + TYPE_BYTES <= frame.len() {
        Some(u16::from_be_bytes([frame[place], frame[place + 1]]))
    } else {
        None
    }
}

// The destination address of the IPv4 packet at this place.
fn destination_at(frame: &[u8], place: usize) -> Option<u32>
    requires { place ≤ TYPE_PLACE + TAG_BYTES + TYPE_BYTES }
    ensures { result ≡ destination_at frame.now place }
{
    if place + IPV4_HEADER_BYTES <= frame.len() && frame[place] >> 4 == 4 {
        let at = place + DESTINATION_PLACE;
        let bytes = [frame[at], frame[at + 1], frame[at + 2], frame[at + 3]];
        Some(u32::from_be_bytes(bytes))
    } else {
        None
    }
}
