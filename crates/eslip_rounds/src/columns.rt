ghost use Rattle.std.specs.Prelude.{◌≡◌, ℕ, ◌<◌, ◌≤◌, ◌↔◌, length, replicate, slice_index, slice_set};
ghost use Rattle.rotating_pick.specs.PortSets.{Has};
ghost use Rattle.slot_match.specs.Rows.{sets_of, empty_row, row_of, AreWithin};
ghost use Rattle.eslip_rounds.specs.Steps.{AreAsks};
ghost use Rattle.eslip_rounds.specs.ColumnSteps.{with_set, IsTurned, AreOutputs};

use crate::asks::Asks;
use crate::ranks::set_at_level;
use rotating_pick::{
    Kind, LEVELS, MAX_PORTS, PORT_COUNT, Ports, contains, difference, is_empty, lowest, union,
    with, without,
};
use slot_match::Row;
use std::marker::Model;

/// The rows of a switch's inputs, kept by columns from slot to slot: for each output, level and kind the inputs whose
/// rows name it so. Whoever keeps it changes it set by set.
///
/// Contracts see the rows, one for each input.
#[derive(Drop)]
pub struct Columns {
    ports: u32,
    rows: [Row; PORT_COUNT],
    asks: Asks,
}

impl Model for Columns {
    ghost use Rattle.std.specs.Prelude.{List, take};
    ghost use Rattle.slot_match.specs.declared.rows.Row.{Row};
    ghost use Rattle.eslip_rounds.specs.ColumnSteps.{AreKept};

    ghost Value = { List Row };

    ghost view = { λ c. take c.ports c.rows };

    ghost invariant = { λ c. AreKept c.ports c.rows c.asks };
}

impl Columns {
    /// Those of a switch of `n` ports, 1 to 64, whose rows name no output. Takes no memory.
    pub fn new(n: u32) -> Columns
        requires some { 0 < n }
        requires size { n ≤ MAX_PORTS }
        ensures { result ≡ replicate n empty_row }
    {
        Columns {
            ports: n,
            rows: empty_rows(),
            asks: Asks::new(),
        }
    }

    /// The rows, one for each input.
    pub fn rows(&self) -> &[Row]
        ensures { result.now ≡ self.now }
    {
        &self.rows[..self.ports as usize]
    }

    /// Puts another set of outputs in the place of the one that the input's row names at the level, 0 to 3, with the
    /// kind. It takes a step for each output in which they differ.
    pub fn change_set(&mut self, input: u32, level: u8, kind: Kind, outputs: Ports)
        requires input_in { input < length self.old }
        requires level_in { level < LEVELS }
        ensures { self.new ≡ slice_set self.old input (with_set (row_of self.old input) level kind outputs) }
    {
        let row = &mut self.rows[input as usize];
        let old = row.outputs(level, kind);
        put_set(row, level, kind, outputs);
        let set = set_at_level(level, kind);
        let columns = &mut self.asks.columns[set];
        let named = &mut self.asks.outputs[set];
        turn(input, old, outputs, columns, named);
    }

    // What the rows ask.
    pub(crate) fn asks(&self) -> &Asks
        ensures { AreWithin (length self.now) self.now → AreAsks (length self.now) self.now result.now }
    {
        &self.asks
    }
}

fn empty_rows() -> [Row; PORT_COUNT]
    ensures { result ≡ replicate MAX_PORTS empty_row }
{
    [Row::empty(); PORT_COUNT]
}

// Puts the outputs in the place of those that the row names at the level with the kind.
fn put_set(row: &mut Row, level: u8, kind: Kind, outputs: Ports)
    requires { level < LEVELS }
    ensures row { row.new ≡ with_set row.old level kind outputs }
    ensures set { slice_index (sets_of row.new kind) level ≡ outputs }
{
    match kind {
        Kind::Uni => row.uni[usize::from(level)] = outputs,
        Kind::Multi => row.multi[usize::from(level)] = outputs,
    }
}

// Notes in the columns of one set that the input names the outputs `new` in the place of `old`.
fn turn(input: u32, old: Ports, new: Ports, columns: &mut [Ports; PORT_COUNT], outputs: &mut Ports)
    requires input_in { input < MAX_PORTS }
    requires was { (j : ℕ) → j < MAX_PORTS → Has (slice_index columns.old j) input ↔ Has old j }
    requires outputs { AreOutputs columns.old outputs.old }
    ensures long { length columns.new ≡ MAX_PORTS }
    ensures columns { IsTurned input new columns.old columns.new }
    ensures outputs { AreOutputs columns.new outputs.new }
{
    let mut rest = union(difference(old, new), difference(new, old));
    while let Some(j) = lowest(rest) {
        let at = j as usize;
        let column = if contains(new, j) {
            with(columns[at], input)
        } else {
            without(columns[at], input)
        };
        columns[at] = column;
        *outputs = if is_empty(column) {
            without(*outputs, j)
        } else {
            with(*outputs, j)
        };
        rest = without(rest, j);
    }
}
