ghost use Rattle.std.specs.Prelude.{◌≡◌, ℕ, ◌<◌, ◌↔◌, ◌⊎◌, Option, IsTrue, slice_index};
ghost use Rattle.rotating_pick.specs.PortSets.{Has};
ghost use Rattle.rotating_pick.specs.declared.kinds.Kind.{Kind};
ghost use Rattle.slot_match.specs.Rows.{Names, IsEmptyRow, IsWithin, IsOfLevels, AreWithin, empty_row, sets_of};
ghost use Rattle.slot_match.specs.Keeping.{KeepsRest, KeepsLevel, Gives};

use crate::matching::Served;
use rotating_pick::{
    Kind, LEVEL_COUNT, LEVELS, MAX_PORTS, Ports, difference, is_among, is_empty, is_subset, union,
};

/// What one input posts in a slot. Levels are 0 to 3. Its layout is that of C: first `uni`, then `multi`,
/// each four words of 64 bits.
#[repr(C)]
#[derive(Clone, Copy, Debug, PartialEq, Eq)]
pub struct Row {
    /// For each level the outputs with a unicast cell waiting.
    pub uni: [Ports; LEVEL_COUNT],
    /// For each level the remaining fan-out of the multicast queue's head cell, empty where that
    /// queue is empty.
    pub multi: [Ports; LEVEL_COUNT],
}

impl Row {
    /// The row that names no output.
    pub fn empty() -> Row
        ensures value { result ≡ empty_row }
        ensures nothing { IsEmptyRow result }
    {
        Row {
            uni: [0; LEVEL_COUNT],
            multi: [0; LEVEL_COUNT],
        }
    }

    /// The outputs that the row names at the level, 0 to 3, with the kind.
    pub fn outputs(&self, level: u8, kind: Kind) -> Ports
        requires { level < LEVELS }
        ensures { result ≡ slice_index (sets_of self.now kind) level }
    {
        match kind {
            Kind::Uni => self.uni[usize::from(level)],
            Kind::Multi => self.multi[usize::from(level)],
        }
    }

    /// All outputs that the row names, at whatever level and with whatever kind.
    pub fn named(&self) -> Ports
        ensures { (j : ℕ) → Has result j ↔ ((level : ℕ) × (kind : Kind) × Names self.now level kind j) }
    {
        let mut named = 0;
        for level in 0..LEVEL_COUNT {
            named = union(named, union(self.uni[level], self.multi[level]));
        }
        named
    }

    /// Adds all that the other row names, at its level with its kind.
    pub fn join(&mut self, other: &Row)
        ensures { (level j : ℕ) (kind : Kind) → Names self.new level kind j ↔ (Names self.old level kind j ⊎ Names other.now level kind j) }
    {
        self.uni = unions(&self.uni, &other.uni);
        self.multi = unions(&self.multi, &other.multi);
    }

    /// Whether the row names no output.
    pub fn is_empty(&self) -> bool
        ensures { IsTrue result ↔ IsEmptyRow self.now }
    {
        is_empty(self.named())
    }

    /// Whether every output that the row names is below `n`.
    pub fn within(&self, n: u32) -> bool
        ensures within { IsTrue result ↔ IsWithin n self.now }
        ensures levels { IsOfLevels self.now }
    {
        if n == 0 {
            self.is_empty()
        } else {
            is_among(n.min(MAX_PORTS), self.named())
        }
    }

    /// Whether this row keeps an input's earlier row, of which `served` was served: it names each
    /// unicast output that was not served, and where some of a head was not served, that rest is the
    /// head's fan-out.
    pub fn keeps(&self, old: &Row, served: Option<Served>) -> bool
        ensures { IsTrue result ↔ KeepsRest (Gives served) old.now self.now }
    {
        for level in 0..LEVELS as u8 {
            if !self.keeps_at(old, served, level) {
                return false;
            }
        }
        true
    }
}

/// Whether there is a row for each of `n` inputs, and every output that they name is below `n`.
pub fn are_within(n: u32, rows: &[Row]) -> bool
    ensures { IsTrue result ↔ AreWithin n rows.now }
{
    for row in rows {
        if !row.within(n) {
            return false;
        }
    }
    rows.len() == n as usize
}

impl Row {
    // Whether the row keeps the earlier row's sets of one level.
    fn keeps_at(&self, old: &Row, served: Option<Served>, level: u8) -> bool
        requires { level < LEVELS }
        ensures { IsTrue result ↔ KeepsLevel (Gives served) old.now self.now level }
    {
        let uni = difference(old.uni[level as usize], given(served, level, Kind::Uni));
        let rest = difference(old.multi[level as usize], given(served, level, Kind::Multi));
        is_subset(uni, self.uni[level as usize])
            && (is_empty(rest) || self.multi[level as usize] == rest)
    }
}

// The outputs that are served at the level with the kind, none where nothing is.
fn given(served: Option<Served>, level: u8, kind: Kind) -> Ports
    ensures { (j : ℕ) → Has result j ↔ Gives served j level kind }
{
    match served {
        Some(part) => part.given(level, kind),
        None => 0,
    }
}

// The sets of both, level by level.
fn unions(a: &[Ports; LEVEL_COUNT], b: &[Ports; LEVEL_COUNT]) -> [Ports; LEVEL_COUNT]
    ensures { (level j : ℕ) → Has (slice_index result level) j ↔ (Has (slice_index a.now level) j ⊎ Has (slice_index b.now level) j) }
{
    let mut both = *a;
    for level in 0..LEVEL_COUNT {
        both[level] = union(both[level], b[level]);
    }
    both
}
