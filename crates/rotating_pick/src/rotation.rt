ghost use Rattle.std.specs.Prelude.{◌≡◌, ℕ, Some, ◌+◌, ◌%◌, ◌^◌, ◌<◌, ◌≤◌, ◌↔◌, ◌⊎◌, IsNone, IfSome};
ghost use Rattle.rotating_pick.specs.PortSets.{Has, HasSeveral, IsAmong};
ghost use Rattle.rotating_pick.specs.Rotation.{distance, IsFirstFrom};

use crate::limits::MAX_PORTS;
use crate::port_set::{Ports, without};

/// How many steps port `x` is past port `from`, round the circle of `n` ports: `(x - from) mod n`, for
/// `n` from 1 to 64, and `from` and `x` below `n`.
pub fn dist(n: u32, from: u32, x: u32) -> u32
    requires size { n ≤ MAX_PORTS }
    requires from_in { from < n }
    requires x_in { x < n }
    ensures { result ≡ distance n from x }
{
    if x >= from { x - from } else { x + (n - from) }
}

/// The port after `x`, round the circle of `n` ports: `(x + 1) mod n`, for `n` from 1 to 64 and `x` below
/// `n`.
pub fn next(n: u32, x: u32) -> u32
    requires size { n ≤ MAX_PORTS }
    requires x_in { x < n }
    ensures value { result ≡ (x + 1) % n }
    ensures within { result < n }
{
    if x + 1 == n { 0 } else { x + 1 }
}

/// The least member; None exactly where the set is empty.
pub fn lowest(ports: Ports) -> Option<u32>
    ensures none { IsNone result ↔ (ports ≡ 0) }
    ensures member { IfSome result (Has ports) }
    ensures least { IfSome result (λ x. (y : ℕ) → Has ports y → x ≤ y) }
{
    if ports == 0 {
        None
    } else {
        Some(ports.trailing_zeros())
    }
}

/// The only member of a set of one port. None exactly where the set is empty or has several members.
pub fn only(ports: Ports) -> Option<u32>
    ensures one { IfSome result (λ x. (x < MAX_PORTS) × (ports ≡ 2 ^ x)) }
    ensures exact { (x : ℕ) → (result ≡ Some x) ↔ (ports ≡ 2 ^ x) }
    ensures none { IsNone result ↔ ((ports ≡ 0) ⊎ HasSeveral ports) }
{
    let port = lowest(ports)?;
    match lowest(without(ports, port)) {
        Some(_) => None,
        None => Some(port),
    }
}

/// The set as seen from port `by` on: port `x` is a member of the answer where port `(x + by) mod n` is
/// one of the set, for `n` from 1 to 64, `by` below `n`, and a set of ports below `n`.
pub fn rotate(n: u32, ports: Ports, by: u32) -> Ports
    requires size { n ≤ MAX_PORTS }
    requires by_in { by < n }
    requires among { IsAmong n ports }
    ensures among { IsAmong n result }
    ensures members { (x : ℕ) → x < n → Has result x ↔ Has ports ((x + by) % n) }
{
    if by == 0 {
        return ports;
    }
    let wrapped = ports & ((1 << by) - 1);
    (wrapped << (n - by)) | (ports >> by)
}

/// The member that comes first from port `from` on, round the circle of `n` ports: the one of least
/// distance, for `n` from 1 to 64, `from` below `n`, and a set of ports below `n`. None exactly where the
/// set is empty.
///
/// This is the round-robin choice of the iSLIP paper (McKeown 1999, section III), made by two words
/// and no walk.
pub fn pick(n: u32, from: u32, ports: Ports) -> Option<u32>
    requires size { n ≤ MAX_PORTS }
    requires from_in { from < n }
    requires among { IsAmong n ports }
    ensures none { IsNone result ↔ (ports ≡ 0) }
    ensures first { IfSome result (IsFirstFrom n from (Has ports)) }
    ensures exact { (x : ℕ) → (result ≡ Some x) ↔ IsFirstFrom n from (Has ports) x }
{
    let steps = lowest(rotate(n, ports, from))?;
    Some(advance(n, from, steps))
}

// The port `steps` past port `from`.
fn advance(n: u32, from: u32, steps: u32) -> u32
    requires size { n ≤ MAX_PORTS }
    requires from_in { from < n }
    requires steps_in { steps < n }
    ensures { result ≡ (steps + from) % n }
{
    let place = steps + from;
    if place >= n { place - n } else { place }
}
