ghost use Rattle.std.specs.Prelude.{◌≡◌, ◌≢◌, ℕ, ◌<◌, ◌≤◌, ◌↔◌, length, replicate, slice_index};
ghost use Rattle.rotating_pick.specs.PortSets.{Has};
ghost use Rattle.rotating_pick.specs.declared.kinds.Kind.{Kind};
ghost use Rattle.rotating_pick.specs.declared.kinds.Kind.TheVariants.{Uni};
ghost use Rattle.slot_match.specs.Rows.{Names, row_of, sets_of, AreWithin};
ghost use Rattle.eslip_rounds.specs.RankSteps.{level_at, kind_at};
ghost use Rattle.eslip_rounds.specs.Steps.{column_of, AreAsks, IsNamed};

use crate::ranks::{SETS, kind_of, level_of};
use islip_rounds::transpose;
use rotating_pick::{Kind, LEVELS, MAX_PORTS, PORT_COUNT, Ports, is_empty, union};
use slot_match::Row;

/// What the rows of a slot ask, by columns.
#[derive(Drop)]
pub(crate) struct Asks {
    /// For each set and each of the outputs the inputs whose rows name it there. The columns of a set in which no row
    /// names an output are not read.
    pub columns: [[Ports; PORT_COUNT]; SETS],
    /// For each set the outputs that some row names there.
    pub outputs: [Ports; SETS],
}

impl Asks {
    /// What no row asks.
    pub(crate) fn new() -> Asks
        ensures columns { result.columns ≡ replicate SETS (replicate MAX_PORTS 0) }
        ensures outputs { result.outputs ≡ replicate SETS 0 }
    {
        Asks {
            columns: [[0; PORT_COUNT]; SETS],
            outputs: [0; SETS],
        }
    }

    /// Turns the rows into columns: those of the sets in which some row names an output. What was in the others
    /// stays. What `collected` holds is not read.
    pub(crate) fn read(&mut self, n: u32, rows: &[Row], collected: &mut [Ports; PORT_COUNT])
        requires size { n ≤ MAX_PORTS }
        requires rows { AreWithin n rows.now }
        ensures { AreAsks n rows.now self.new }
    {
        self.outputs = named_by_set(&joined(rows));
        fill(n, rows, &self.outputs, collected, &mut self.columns);
    }

    /// The outputs that some row names in whatever set.
    pub(crate) fn named(&self) -> Ports
        ensures { (j : ℕ) → Has result j ↔ IsNamed self.now j }
    {
        let mut named = 0;
        for set in 0..SETS {
            named = union(named, self.outputs[set]);
        }
        named
    }
}

// Fills the columns of the sets in which some row names an output, by `outputs`.
fn fill(
    n: u32,
    rows: &[Row],
    outputs: &[Ports; SETS],
    collected: &mut [Ports; PORT_COUNT],
    columns: &mut [[Ports; PORT_COUNT]; SETS],
)
    requires size { n ≤ MAX_PORTS }
    requires rows { AreWithin n rows.now }
    ensures { (set i j : ℕ) → set < SETS → slice_index outputs.now set ≢ 0 → j < n → Has (column_of columns.new set j) i
        ↔ ((i < n) × Names (row_of rows.now i) (level_at set) (kind_at Uni set) j) }
{
    for set in 0..SETS as u32 {
        let at = set as usize;
        if !is_empty(outputs[at]) {
            let kind = kind_of(Kind::Uni, set);
            gather(n, rows, level_of(set), kind, collected, &mut columns[at]);
        }
    }
}

// What the row names in each set.
fn named_by_set(row: &Row) -> [Ports; SETS]
    ensures { (set : ℕ) → set < SETS → slice_index result set ≡ slice_index (sets_of row.now (kind_at Uni set)) (level_at set) }
{
    let mut named = [0; SETS];
    for set in 0..SETS as u32 {
        named[set as usize] = row.outputs(level_of(set), kind_of(Kind::Uni, set));
    }
    named
}

// All that the rows name, as one row.
fn joined(rows: &[Row]) -> Row
    ensures { (level j : ℕ) (kind : Kind) → Names result level kind j ↔ ((i : ℕ) × (i < length rows.now) × Names (row_of rows.now i) level kind j) }
{
    let mut named = Row::empty();
    for row in rows {
        named.join(row);
    }
    named
}

// Turns the rows' sets of the level and kind into columns, one for each of the ports.
fn gather(
    n: u32,
    rows: &[Row],
    level: u8,
    kind: Kind,
    collected: &mut [Ports; PORT_COUNT],
    columns: &mut [Ports; PORT_COUNT],
)
    requires size { n ≤ MAX_PORTS }
    requires rows { AreWithin n rows.now }
    requires level_in { level < LEVELS }
    ensures { (i j : ℕ) → j < n → Has (slice_index columns.new j) i ↔ ((i < n) × Names (row_of rows.now i) level kind j) }
{
    collect(n, rows, level, kind, collected);
    transpose(n, &collected[..n as usize], &mut columns[..n as usize]);
}

// Copies the rows' sets of the level and kind.
fn collect(n: u32, rows: &[Row], level: u8, kind: Kind, collected: &mut [Ports; PORT_COUNT])
    requires size { n ≤ MAX_PORTS }
    requires rows { length rows.now ≡ n }
    requires level_in { level < LEVELS }
    ensures { (i : ℕ) → i < n → slice_index collected.new i ≡ slice_index (sets_of (row_of rows.now i) kind) level }
{
    for i in 0..n {
        collected[i as usize] = rows[i as usize].outputs(level, kind);
    }
}
