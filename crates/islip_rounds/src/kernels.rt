ghost use Rattle.std.specs.Prelude.{◌≡◌, ℕ, ◌<◌, ◌≤◌, ◌↔◌, ◌⊎◌, Some, None, length, replicate, slice_index, slice_index_or, All, IsTrue};
ghost use Rattle.rotating_pick.specs.PortSets.{Has, IsAmong};
ghost use Rattle.rotating_pick.specs.Rotation.{IsFirstFrom};
ghost use Rattle.islip_rounds.specs.Choices.{AreChoices};
ghost use Rattle.islip_rounds.specs.Columns.{AreColumns};

use crate::square::turn_square;
use rotating_pick::{MAX_PORTS, PORT_COUNT, Ports, contains, lowest, pick, with, without};

// Rows of no more members than this are put into columns member by member, since a whole square costs as
// much as some three hundred of them.
const FEW_MEMBERS: u32 = 256;

/// Turns rows into columns, for `n` from 1 to 64: input `i` is in column `j` where output `j` is in row
/// `i`. There are `n` rows, each of the `n` ports, and at least `n` columns; those beyond become empty. The
/// cost is one step for each member of a row, and at most that of turning a square of 64 words.
pub fn transpose(n: u32, rows: &[Ports], columns: &mut [Ports])
    requires size { n ≤ MAX_PORTS }
    requires rows { length rows.now ≡ n }
    requires columns { n ≤ length columns.old }
    requires among { All (IsAmong n) rows.now }
    ensures { AreColumns n rows.now columns.new }
{
    if members(rows) <= FEW_MEMBERS {
        transpose_few(n, rows, columns);
    } else {
        transpose_many(n, rows, columns);
    }
}

// How many members the sets have.
fn members(sets: &[Ports]) -> u32 {
    let mut count: u32 = 0;
    for set in sets.iter() {
        count = count.saturating_add(set.count_ones());
    }
    count
}

// Turns rows into columns member by member.
fn transpose_few(n: u32, rows: &[Ports], columns: &mut [Ports])
    requires size { n ≤ MAX_PORTS }
    requires rows { length rows.now ≡ n }
    requires columns { n ≤ length columns.old }
    requires among { All (IsAmong n) rows.now }
    ensures { AreColumns n rows.now columns.new }
{
    clear(columns);
    for i in 0..n {
        scatter(i, rows[i as usize], columns);
    }
}

// Turns rows into columns by a whole square.
fn transpose_many(n: u32, rows: &[Ports], columns: &mut [Ports])
    requires size { n ≤ MAX_PORTS }
    requires rows { length rows.now ≡ n }
    requires columns { n ≤ length columns.old }
    requires among { All (IsAmong n) rows.now }
    ensures { AreColumns n rows.now columns.new }
{
    let mut square = no_sets();
    copy(rows, &mut square);
    turn_square(&mut square);
    clear(columns);
    copy(&square[..n as usize], columns);
}

// A table of empty sets.
pub(crate) fn no_sets() -> [Ports; PORT_COUNT]
    ensures { result ≡ replicate MAX_PORTS 0 }
{
    [0; PORT_COUNT]
}

// Copies sets into the first places of others.
fn copy(from: &[Ports], to: &mut [Ports])
    requires { length from.now ≤ length to.old }
    ensures copied { (k : ℕ) → k < length from.now → slice_index to.new k ≡ slice_index from.now k }
    ensures rest { (k : ℕ) → length from.now ≤ k → slice_index to.new k ≡ slice_index to.old k }
{
    for k in 0..from.len() {
        to[k] = from[k];
    }
}

// Empties each set.
fn clear(sets: &mut [Ports])
    ensures { (j : ℕ) → slice_index sets.new j ≡ 0 }
{
    for set in sets.iter_mut() {
        *set = 0;
    }
}

// Puts input `i` into the column of each output of its row.
fn scatter(i: u32, row: Ports, columns: &mut [Ports])
    requires i_in { i < MAX_PORTS }
    requires row { (j : ℕ) → Has row j → j < length columns.old }
    ensures { (k j : ℕ) → Has (slice_index columns.new j) k ↔ (((k ≡ i) × Has row j) ⊎ Has (slice_index columns.old j) k) }
{
    let mut rest = row;
    while let Some(j) = lowest(rest) {
        columns[j as usize] = with(columns[j as usize], i);
        rest = without(rest, j);
    }
}

/// For each port of `free` the rotating choice of its set from its pointer on, for `n` from 1 to 64;
/// None at each other port, and where the set is empty. There are at least `n` entries of each; those of
/// `chosen` beyond the `n` ports stay.
pub fn picks(n: u32, from: &[u32], masks: &[Ports], free: Ports, chosen: &mut [Option<u32>])
    requires size { n ≤ MAX_PORTS }
    requires from { n ≤ length from.now }
    requires masks { n ≤ length masks.now }
    requires chosen { n ≤ length chosen.old }
    requires from_in { (k : ℕ) → k < n → slice_index from.now k < n }
    requires among { (k : ℕ) → k < n → IsAmong n (slice_index masks.now k) }
    ensures choices { AreChoices n from.now masks.now free n chosen.new }
    ensures rest { (k : ℕ) → n ≤ k → slice_index_or chosen.new k None ≡ slice_index_or chosen.old k None }
{
    for k in 0..n {
        let at = k as usize;
        chosen[at] = choice(n, from[at], masks[at], contains(free, k));
    }
}

// The rotating choice of a port that takes part.
fn choice(n: u32, from: u32, ports: Ports, takes_part: bool) -> Option<u32>
    requires size { n ≤ MAX_PORTS }
    requires from_in { from < n }
    requires among { IsAmong n ports }
    ensures { (x : ℕ) → (result ≡ Some x) ↔ (IsTrue takes_part × IsFirstFrom n from (Has ports) x) }
{
    if takes_part {
        pick(n, from, ports)
    } else {
        None
    }
}
