ghost use Rattle.std.specs.Prelude.{ℕ, ◌<◌, ◌≤◌, ◌↔◌, IsTrue, slice_index};
ghost use Rattle.pointer_state.specs.Places.{ArePointing};
ghost use Rattle.pointer_state.specs.CallerTables.{AreInRange, ArePlacedBelow, places_from};

use rotating_pick::{LEVEL_COUNT, LEVELS, MAX_PORTS, PORT_COUNT};

/// Where the pointers of a switch are, as tables that a caller holds from slot to slot: for each level 64
/// places for the outputs' grant pointers, 64 for the inputs' accept pointers, and the shared pointer. The
/// places of ports that a switch does not have may hold any number.
#[repr(C)]
#[derive(Clone, Copy, Debug, PartialEq, Eq)]
pub struct PointerTables {
    /// For each level and output the input that it grants from.
    pub grant: [[u32; PORT_COUNT]; LEVEL_COUNT],
    /// For each level and input the output that it accepts from.
    pub accept: [[u32; PORT_COUNT]; LEVEL_COUNT],
    /// For each level the input that all outputs pick multicast from.
    pub shared: [u32; LEVEL_COUNT],
}

impl PointerTables {
    /// Whether the tables are those of a switch of `n` ports: `n` is 1 to 64, and the shared pointers and those of
    /// the `n` ports are at one of them.
    pub fn is_in_range(&self, n: u32) -> bool
        ensures { IsTrue result ↔ AreInRange n self.now }
    {
        0 < n && n <= MAX_PORTS && are_pointing(n, self)
    }
}

// Whether each pointer of the n ports is at one of them.
fn are_pointing(n: u32, tables: &PointerTables) -> bool
    requires some { 0 < n }
    requires size { n ≤ MAX_PORTS }
    ensures { IsTrue result ↔ ArePlacedBelow n tables.now }
{
    for level in 0..LEVEL_COUNT {
        if !is_level_pointing(n, tables, level) {
            return false;
        }
    }
    true
}

// Whether each pointer of the level is at one of the n ports.
fn is_level_pointing(n: u32, tables: &PointerTables, level: usize) -> bool
    requires some { 0 < n }
    requires size { n ≤ MAX_PORTS }
    requires level_in { level < LEVELS }
    ensures { IsTrue result ↔ ArePointing n level (places_from n tables.now) }
{
    greatest_place(n, &tables.grant[level], &tables.accept[level]) < n && tables.shared[level] < n
}

// The greatest of the places of the n ports in both tables. It looks at all of them, in one pass, which takes
// less time than to stop at the first that is too great.
fn greatest_place(n: u32, grant: &[u32; PORT_COUNT], accept: &[u32; PORT_COUNT]) -> u32
    requires some { 0 < n }
    requires size { n ≤ MAX_PORTS }
    ensures { (bound : ℕ) → 0 < bound
        → (result < bound) ↔ ((port : ℕ) → port < n → (slice_index grant.now port < bound) × (slice_index accept.now port < bound)) }
{
    let mut greatest: u32 = 0;
    for port in 0..n as usize {
        greatest = greatest.max(grant[port].max(accept[port]));
    }
    greatest
}
