ghost use Rattle.std.specs.Prelude.{◌≡◌, ◌<◌, None, Some, replicate, slice_index_or, slice_set};
ghost use Rattle.descriptor_runs.specs.PortSteps.{no_name};

use cell_cutter::CellName;
use rotating_pick::{MAX_PORTS, PORT_COUNT, Ports, contains, with};
use std::marker::Model;

/// The names of the cells that a slot grants, by input.
///
/// Contracts see a name or none for each of the 64 inputs that a switch can have.
#[derive(Drop)]
pub(crate) struct CellNames {
    // The inputs that are granted a cell.
    granted: Ports,
    // Their names. What stands at another input is of an earlier slot.
    names: [CellName; PORT_COUNT],
}

impl Model for CellNames {
    ghost use Rattle.std.specs.Prelude.{◌≡◌, List, Option, length};
    ghost use Rattle.rotating_pick.specs.declared.limits.TheConstants.{MAX_PORTS};
    ghost use Rattle.cell_cutter.specs.declared.cell.CellName.{CellName};
    ghost use Rattle.descriptor_runs.specs.PortSteps.{names_of};

    ghost Value = { List (Option CellName) };

    ghost view = { λ n. names_of n.granted n.names };

    ghost invariant = { λ n. length n.names ≡ MAX_PORTS };
}

impl CellNames {
    /// No input is granted a cell.
    pub(crate) fn new() -> CellNames
        ensures { result ≡ replicate MAX_PORTS None }
    {
        CellNames {
            granted: 0,
            names: no_names(),
        }
    }

    /// The name of the cell that the input is granted.
    pub(crate) fn get(&self, input: u32) -> Option<CellName>
        requires { input < MAX_PORTS }
        ensures { result ≡ slice_index_or self.now input None }
    {
        if contains(self.granted, input) {
            Some(self.names[input as usize])
        } else {
            None
        }
    }

    /// Grants the input the cell of this name.
    pub(crate) fn put(&mut self, input: u32, name: CellName)
        requires { input < MAX_PORTS }
        ensures { self.new ≡ slice_set self.old input (Some name) }
    {
        self.granted = with(self.granted, input);
        self.names[input as usize] = name;
    }

    /// Grants nothing any more.
    pub(crate) fn clear(&mut self)
        ensures { self.new ≡ replicate MAX_PORTS None }
    {
        self.granted = 0;
    }
}

// As many names of no cell as there can be inputs.
fn no_names() -> [CellName; PORT_COUNT]
    ensures { result ≡ replicate MAX_PORTS no_name }
{
    let nothing = CellName {
        packet: 0,
        number: 0,
        last: false,
    };
    [nothing; PORT_COUNT]
}
