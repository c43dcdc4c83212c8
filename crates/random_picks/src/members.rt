ghost use Rattle.std.specs.Prelude.{◌≡◌, ◌≤◌, drop, length, slice_get};
ghost use Rattle.rotating_pick.specs.declared.limits.TheConstants.{MAX_PORTS};
ghost use Rattle.random_picks.specs.Picks.{members};

use rotating_pick::{Ports, lowest, without};

// How many members the set has.
pub(crate) fn count(ports: Ports) -> u32
    ensures value { result ≡ length (members ports) }
    ensures few { result ≤ MAX_PORTS }
{
    ports.count_ones()
}

// Member number `number` of the set, by rising number from 0 on, if it has so many.
pub(crate) fn member(ports: Ports, number: u32) -> Option<u32>
    ensures { result ≡ slice_get (members ports) number }
{
    let mut rest = ports;
    for _ in 0..number {
        rest = without_first(rest);
    }
    first(rest)
}

// The first member of the set.
fn first(ports: Ports) -> Option<u32>
    ensures { result ≡ slice_get (members ports) 0 }
{
    lowest(ports)
}

// The set without its first member.
fn without_first(ports: Ports) -> Ports
    ensures { members result ≡ drop 1 (members ports) }
{
    match lowest(ports) {
        Some(port) => without(ports, port),
        None => 0,
    }
}
