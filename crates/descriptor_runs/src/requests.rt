ghost use Rattle.std.specs.Prelude.{◌≡◌, ℕ, ◌<◌, ◌≤◌, ◌↔◌, IsTrue, length, replicate, slice_set};
ghost use Rattle.slot_match.specs.Rows.{empty_row, row_of};
ghost use Rattle.eslip_rounds.specs.ColumnSteps.{with_set};
ghost use Rattle.descriptor_runs.specs.PortSteps.{AsksAt};

use eslip_rounds::Columns;
use rotating_pick::{Kind, LEVELS, MAX_PORTS, Ports, is_empty, with, without};
use std::marker::Model;

/// What the inputs of a switch ask for: the rows of their queues, kept by columns, and which inputs ask for an output.
///
/// Contracts see the rows, one for each input.
#[derive(Drop)]
pub(crate) struct Requests {
    columns: Columns,
    // The inputs whose row names an output.
    asking: Ports,
}

impl Model for Requests {
    ghost use Rattle.std.specs.Prelude.{List};
    ghost use Rattle.slot_match.specs.declared.rows.Row.{Row};
    ghost use Rattle.descriptor_runs.specs.PortSteps.{AreAsking};

    ghost Value = { List Row };

    ghost view = { λ r. r.columns };

    ghost invariant = { λ r. AreAsking r.columns r.asking };
}

impl Requests {
    /// Those of a switch of `n` ports, 1 to 64, of which no input asks.
    pub(crate) fn new(n: u32) -> Requests
        requires some { 0 < n }
        requires size { n ≤ MAX_PORTS }
        ensures { result ≡ replicate n empty_row }
    {
        Requests {
            columns: Columns::new(n),
            asking: 0,
        }
    }

    /// The rows by columns.
    pub(crate) fn columns(&self) -> &Columns
        ensures { result.now ≡ self.now }
    {
        &self.columns
    }

    /// Whether an input asks for an output.
    pub(crate) fn has_any(&self) -> bool
        ensures { IsTrue result ↔ ((i : ℕ) × AsksAt self.now i) }
    {
        !is_empty(self.asking)
    }

    /// Puts another set of outputs in the place of the one that the input asks at the level, 0 to 3, with the kind.
    pub(crate) fn change_set(&mut self, input: u32, level: u8, kind: Kind, outputs: Ports)
        requires input_in { input < length self.old }
        requires level_in { level < LEVELS }
        ensures { self.new ≡ slice_set self.old input (with_set (row_of self.old input) level kind outputs) }
    {
        self.columns.change_set(input, level, kind, outputs);
        let row = self.columns.rows()[input as usize];
        self.asking = if row.is_empty() {
            without(self.asking, input)
        } else {
            with(self.asking, input)
        };
    }
}
