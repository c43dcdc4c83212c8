ghost use Rattle.std.specs.Prelude.{◌≡◌, ◌<◌, ◌≤◌, ◌↔◌, length, slice_set, replicate, IsNone};
ghost use Rattle.crossbar.specs.Crossing.{nothing_deposited, fetched, NothingCrosses};

use cell_cutter::Cell;
use rotating_pick::{MAX_PORTS, PORT_COUNT};
use slot_match::Match;
use std::marker::Model;

/// The crossbar of a switch: for each input the cell that it has deposited, or None.
///
/// Contracts see the list of the deposits, one for each port.
#[derive(Debug, Drop)]
pub struct Crossbar {
    ports: u32,
    deposits: [Option<Cell>; PORT_COUNT],
}

impl Model for Crossbar {
    ghost use Rattle.std.specs.Prelude.{List, Option, take, length, ◌≡◌, ◌≤◌};
    ghost use Rattle.rotating_pick.specs.declared.limits.TheConstants.{MAX_PORTS};
    ghost use Rattle.cell_cutter.specs.declared.cell.Cell.{Cell};

    ghost Value = { List (Option Cell) };

    ghost view = { λ c. take c.ports c.deposits };

    ghost invariant = { λ c. (length c.deposits ≡ MAX_PORTS) × (c.ports ≤ MAX_PORTS) };
}

impl Crossbar {
    /// The crossbar of a switch of `n` ports, 1 to 64, in which nothing is deposited.
    #[tactic(auto, using(crate::proofs::Places::take_none))]
    pub fn new(n: u32) -> Crossbar
        requires some { 0 < n }
        requires size { n ≤ MAX_PORTS }
        ensures { result ≡ nothing_deposited n }
    {
        Crossbar {
            ports: n,
            deposits: no_deposits(),
        }
    }

    /// Puts the cell, or None, in place of what the input, one of the ports, has deposited. The deposits
    /// of the other inputs stay.
    #[tactic(auto, using(crate::proofs::Places::take_set))]
    pub fn deposit(&mut self, input: u32, cell: Option<Cell>)
        requires { input < length self.old }
        ensures { self.new ≡ slice_set self.old input cell }
    {
        self.deposits[input as usize] = cell;
    }

    /// The cell that crosses to the output, one of the ports, in a slot with this match, which is one of
    /// as many ports: what the input that feeds the output has deposited. None exactly where no input
    /// feeds it, or the one that does has deposited None.
    pub fn fetch(&self, output: u32, matched: &Match) -> Option<Cell>
        requires output { output < length self.now }
        requires ports { length matched.now ≡ length self.now }
        ensures cell { result ≡ fetched matched.now self.now output }
        ensures none { IsNone result ↔ NothingCrosses matched.now self.now output }
    {
        prove!(matched.ports() == self.ports);
        let fed = matched.fed(output)?;
        self.deposits[fed.input as usize]
    }
}

// An array in which nothing is deposited.
fn no_deposits() -> [Option<Cell>; PORT_COUNT]
    ensures { result ≡ nothing_deposited MAX_PORTS }
{
    [None; PORT_COUNT]
}
