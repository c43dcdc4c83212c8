ghost use Rattle.std.specs.Prelude.{◌≡◌, ◌-◌, ◌^◌, ◌%◌, ◌≤◌};

use rotating_pick::Ports;

/// How many bits an address has.
pub(crate) const ADDRESS_BITS: u32 = 32;

/// Where a packet goes: the outputs that it leaves by, one at least, and its level, 0 to 3.
#[derive(Clone, Copy, Debug, PartialEq, Eq)]
pub struct Route {
    pub fan: Ports,
    pub level: u8,
}

/// The addresses that a route line is for.
#[derive(Clone, Copy, Debug, PartialEq, Eq, PartialOrd, Ord)]
pub enum Target {
    /// The line `*`: what no prefix covers, and packets without an address.
    Fallback,
    /// The addresses whose first `length` bits are those of `address`, for a length of 0 to 32.
    Prefix { length: u32, address: u32 },
}

/// A route line of a table's text, with its number among all lines, from 1.
#[derive(Clone, Copy, Debug, PartialEq, Eq)]
pub struct RouteLine {
    pub number: u32,
    pub target: Target,
    pub route: Route,
}

/// The address with its last `host_bits` bits, 0 to 32, cleared.
pub(crate) fn without_host_bits(address: u32, host_bits: u32) -> u32
    requires { host_bits ≤ ADDRESS_BITS }
    ensures { result ≡ address - address % 2 ^ host_bits }
{
    let span = 1u64 << host_bits;
    address - (u64::from(address) % span) as u32
}
