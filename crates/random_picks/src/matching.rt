ghost use Rattle.std.specs.Prelude.{◌≡◌, ◌≢◌, ◌<◌, ◌≤◌, ◌↔◌, ℕ, Some, None, length, replicate, slice_index, IsTrue};
ghost use Rattle.rotating_pick.specs.PortSets.{Has};
ghost use Rattle.slot_match.specs.Matches.{IsFreeInput, IsFreeOutput, IsMatch, fed_of};
ghost use Rattle.slot_match.specs.Rows.{AreWithin, row_of};
ghost use Rattle.random_picks.specs.Rounds.{fed_by, is_port};
ghost use Rattle.random_picks.specs.PickSteps.{AreAsked, AreColumns, AreMembers, AreOffered, pick_at};

use islip_rounds::transpose;
use rotating_pick::{Kind, MAX_PORTS, PORT_COUNT, Ports, contains, intersection, with};
use slot_match::{Match, Row};

// For each output the inputs whose rows ask it, as unicast of level 0.
pub(crate) fn columns_of(n: u32, rows: &[Row]) -> [Ports; PORT_COUNT]
    requires size { n ≤ MAX_PORTS }
    requires rows { AreWithin n rows.now }
    ensures { AreColumns n rows.now result }
{
    let sets = asks_of(n, rows);
    let mut columns = no_sets();
    transpose(n, &sets[..n as usize], &mut columns);
    columns
}

// For each input the outputs that its row asks, as unicast of level 0.
fn asks_of(n: u32, rows: &[Row]) -> [Ports; PORT_COUNT]
    requires size { n ≤ MAX_PORTS }
    requires rows { length rows.now ≡ n }
    ensures { (i : ℕ) → i < n → slice_index result i ≡ slice_index (row_of rows.now i).uni 0 }
{
    let mut sets = no_sets();
    for i in 0..n {
        sets[i as usize] = rows[i as usize].outputs(0, Kind::Uni);
    }
    sets
}

// A table of empty sets.
fn no_sets() -> [Ports; PORT_COUNT]
    ensures { result ≡ replicate PORT_COUNT 0 }
{
    [0; PORT_COUNT]
}

// A table in which no port picks.
pub(crate) fn no_picks() -> [Option<u32>; PORT_COUNT]
    ensures { result ≡ replicate PORT_COUNT None }
{
    [None; PORT_COUNT]
}

// For each output the free inputs that ask it, where it is free.
pub(crate) fn asked_by(
    n: u32,
    columns: &[Ports; PORT_COUNT],
    matched: &Match,
) -> [Ports; PORT_COUNT]
    requires size { n ≤ MAX_PORTS }
    requires matched { length matched.now ≡ n }
    ensures { AreAsked n columns.now matched.now result }
{
    let inputs = matched.free_inputs();
    let outputs = matched.free_outputs();
    let mut asked = no_sets();
    for j in 0..n {
        let at = j as usize;
        asked[at] = asking(columns[at], inputs, contains(outputs, j));
    }
    asked
}

// The free inputs that ask an output, where it is free.
fn asking(column: Ports, inputs: Ports, is_free: bool) -> Ports
    ensures { (i : ℕ) → Has result i ↔ (IsTrue is_free × Has column i × Has inputs i) }
{
    if is_free {
        intersection(column, inputs)
    } else {
        0
    }
}

// For each input the outputs that grant it.
pub(crate) fn offered_by(n: u32, granted: &[Option<u32>; PORT_COUNT]) -> [Ports; PORT_COUNT]
    requires size { n ≤ MAX_PORTS }
    requires inputs { (i j : ℕ) → pick_at granted.now j ≡ Some i → i < MAX_PORTS }
    ensures { AreOffered n granted.now result }
{
    let mut offered = no_sets();
    for j in 0..n {
        if let Some(i) = granted[j as usize] {
            let at = i as usize;
            offered[at] = with(offered[at], j);
        }
    }
    offered
}

// Matches each output with the input that it granted, where this accepted it.
pub(crate) fn feed(
    n: u32,
    granted: &[Option<u32>; PORT_COUNT],
    accepted: &[Option<u32>; PORT_COUNT],
    out: &mut Match,
)
    requires size { n ≤ MAX_PORTS }
    requires whole { IsMatch n out.old }
    requires free { (i j : ℕ) → pick_at granted.now j ≡ Some i → (i < n) × IsFreeInput out.old i × IsFreeOutput out.old j }
    ensures fed { (j : ℕ) → j < n → fed_of out.new j ≡ fed_by (pick_at accepted.now) j (fed_of out.old j) (pick_at granted.now j) }
    ensures whole { IsMatch n out.new }
{
    for j in 0..n {
        feed_one(n, j, granted[j as usize], accepted, out);
    }
}

// Matches output `j` with the input that it granted, where this accepted it.
fn feed_one(
    n: u32,
    j: u32,
    granted: Option<u32>,
    accepted: &[Option<u32>; PORT_COUNT],
    out: &mut Match,
)
    requires size { n ≤ MAX_PORTS }
    requires output { j < n }
    requires whole { IsMatch n out.old }
    requires input { (i : ℕ) → granted ≡ Some i → i < n }
    requires free { (i : ℕ) → granted ≡ Some i → pick_at accepted.now i ≡ Some j → IsFreeInput out.old i × IsFreeOutput out.old j }
    ensures fed { fed_of out.new j ≡ fed_by (pick_at accepted.now) j (fed_of out.old j) granted }
    ensures others { (k : ℕ) → k ≢ j → fed_of out.new k ≡ fed_of out.old k }
    ensures whole { IsMatch n out.new }
{
    if let Some(i) = granted {
        if is_port(accepted[i as usize], j) {
            out.add(i, with(0, j), 0, Kind::Uni);
        }
    }
}

// Whether this is port `x`.
fn is_port(port: Option<u32>, x: u32) -> bool
    ensures { result ≡ is_port x port }
{
    match port {
        Some(port) => port == x,
        None => false,
    }
}
