ghost use Rattle.std.specs.Prelude.{◌≡◌, ◌+◌, ◌≤◌, ◌++◌, length, drop};
ghost use Rattle.pcap_records.specs.Format.{number_bytes, number_in};

use byteorder::{BigEndian, ByteOrder, LittleEndian};

/// The byte order of all numbers of a file.
#[derive(Clone, Copy, Debug, PartialEq, Eq)]
pub enum Order {
    /// The byte of the highest value comes first.
    Big,
    /// The byte of the lowest value comes first.
    Little,
}

impl Order {
    // The two bytes at a place as a number.
    pub(crate) fn u16_at(self, bytes: &[u8], at: usize) -> u16
        requires { at + 2 ≤ length bytes.now }
        ensures { drop at bytes.now ≡ number_bytes self 2 result ++ drop (at + 2) bytes.now }
    {
        match self {
            Order::Big => BigEndian::read_u16(&bytes[at..]),
            Order::Little => LittleEndian::read_u16(&bytes[at..]),
        }
    }

    // The four bytes at a place as a number.
    pub(crate) fn u32_at(self, bytes: &[u8], at: usize) -> u32
        requires { at + 4 ≤ length bytes.now }
        ensures value { result ≡ number_in self 4 (drop at bytes.now) }
        ensures spelled { drop at bytes.now ≡ number_bytes self 4 result ++ drop (at + 4) bytes.now }
    {
        match self {
            Order::Big => BigEndian::read_u32(&bytes[at..]),
            Order::Little => LittleEndian::read_u32(&bytes[at..]),
        }
    }
}
