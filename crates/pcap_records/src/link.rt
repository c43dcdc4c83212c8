ghost use Rattle.std.specs.Prelude.{◌≡◌, ◌≢◌, IfOk, IfErr};
ghost use Rattle.pcap_records.specs.Format.{link_type};

use crate::fault::PcapFault;

/// What the packets of a capture begin with: its link type.
#[derive(Clone, Copy, Debug, PartialEq, Eq)]
pub enum Link {
    /// Link type 1: an Ethernet frame.
    Ethernet,
    /// Link type 101: an IP packet, with no frame about it.
    RawIp,
}

impl Link {
    /// The number of the link type in a file's header: 1 or 101.
    pub fn number(self) -> u32
        ensures { result ≡ link_type self }
    {
        match self {
            Link::Ethernet => 1,
            Link::RawIp => 101,
        }
    }

    // The link type of a number. Any number but 1 and 101 is a fault.
    pub(crate) fn of_number(number: u32) -> Result<Link, PcapFault>
        ensures found { IfOk result (λ link. link_type link ≡ number) }
        ensures fault { IfErr result (λ fault.
            (fault ≡ PcapFault.BadLink number) × (number ≢ 1) × (number ≢ 101)) }
    {
        match number {
            1 => Ok(Link::Ethernet),
            101 => Ok(Link::RawIp),
            found => Err(PcapFault::BadLink { found }),
        }
    }
}
