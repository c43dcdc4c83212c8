ghost use Rattle.std.specs.Prelude.{◌≡◌, ◌≢◌, ℕ, ◌<◌, ◌≤◌, ◌↔◌, ◌⊎◌, IsTrue};
ghost use Rattle.rotating_pick.specs.PortSets.{Has, IsAmong};

use crate::limits::MAX_PORTS;

/// A set of ports: port `x` is a member where bit `x` is 1.
pub type Ports = u64;

/// Whether port `x`, which is below 64, is a member of the set.
pub fn contains(ports: Ports, x: u32) -> bool
    requires { x < MAX_PORTS }
    ensures { IsTrue result ↔ Has ports x }
{
    ports & (1 << x) != 0
}

/// Whether the set has no member.
pub fn is_empty(ports: Ports) -> bool
    ensures zero { IsTrue result ↔ (ports ≡ 0) }
    ensures members { IsTrue result ↔ ((x : ℕ) → Has ports x → ⊥) }
{
    ports == 0
}

/// Whether every member is one of the `n` ports 0 to `n - 1`, for `n` from 1 to 64.
pub fn is_among(n: u32, ports: Ports) -> bool
    requires some { 0 < n }
    requires size { n ≤ MAX_PORTS }
    ensures among { IsTrue result ↔ IsAmong n ports }
    ensures members { IsTrue result ↔ ((x : ℕ) → Has ports x → x < n) }
{
    is_subset(ports, all(n))
}

/// Whether every member of `inner` is a member of `outer`.
pub fn is_subset(inner: Ports, outer: Ports) -> bool
    ensures { IsTrue result ↔ ((x : ℕ) → Has inner x → Has outer x) }
{
    inner & !outer == 0
}

/// The set of all `n` ports, for `n` from 1 to 64.
pub fn all(n: u32) -> Ports
    requires some { 0 < n }
    requires size { n ≤ MAX_PORTS }
    ensures members { (x : ℕ) → Has result x ↔ (x < n) }
    ensures among { IsAmong n result }
{
    u64::MAX >> (MAX_PORTS - n)
}

/// The set with port `x`, which is below 64, as a further member.
pub fn with(ports: Ports, x: u32) -> Ports
    requires { x < MAX_PORTS }
    ensures { (y : ℕ) → Has result y ↔ ((y ≡ x) ⊎ Has ports y) }
{
    ports | (1 << x)
}

/// The set without port `x`, which is below 64.
pub fn without(ports: Ports, x: u32) -> Ports
    requires { x < MAX_PORTS }
    ensures members { (y : ℕ) → Has result y ↔ ((y ≢ x) × Has ports y) }

    // What a loop over the members counts down: the word falls with each that is taken out.
    ensures fewer { Has ports x → result < ports }
{
    ports & !(1 << x)
}

/// The ports that are in either set.
pub fn union(a: Ports, b: Ports) -> Ports
    ensures { (y : ℕ) → Has result y ↔ (Has a y ⊎ Has b y) }
{
    a | b
}

/// The ports that are in both sets.
pub fn intersection(a: Ports, b: Ports) -> Ports
    ensures { (y : ℕ) → Has result y ↔ (Has a y × Has b y) }
{
    a & b
}

/// The ports of `a` that are not in `b`.
pub fn difference(a: Ports, b: Ports) -> Ports
    ensures { (y : ℕ) → Has result y ↔ (Has a y × (Has b y → ⊥)) }
{
    a & !b
}
