//! Laws of a table's text: each is the contract of a call that does nothing.

ghost use Rattle.std.specs.Prelude.{◌≡◌, ◌↔◌, ◌⊎◌, ℕ, List, Ok, Err, Contains};
ghost use Rattle.rotating_pick.specs.PortSets.{Has};
ghost use Rattle.forward_table.specs.declared.faults.TableFault.{TableFault};
ghost use Rattle.forward_table.specs.declared.route_lines.RouteLine.{RouteLine};
ghost use Rattle.forward_table.specs.Forms.{set_of};
ghost use Rattle.forward_table.specs.Reading.{reading_of, HasTooManyLines, IsFirstFault, IsTable};

use crate::limits::MAX_LINES;
use rotating_pick::MAX_FILE_BYTES;

/// The limits of a table: at most 4,096 route lines, in a text of at most 16,777,216 bytes.
pub fn limits_are()
    ensures lines { MAX_LINES ≡ 4096 }
    ensures text { MAX_FILE_BYTES ≡ 16777216 }
{}

/// The fault that is told of a text is that of its first line with one, unless it has too many route
/// lines; and a table is told exactly where none of the lines has a fault.
pub fn first_fault_is_told()
    ensures fault { (n : ℕ) (text : List ℕ) (fault : TableFault)
        → (reading_of n text ≡ Err fault) ↔ (HasTooManyLines text fault ⊎ IsFirstFault n text fault) }
    ensures table { (n : ℕ) (text : List ℕ) (table : List RouteLine)
        → (reading_of n text ≡ Ok table) ↔ IsTable n text table }
{}

/// The members of a fan-out are the ports that its list names.
pub fn named_ports_are_the_members()
    ensures { (ports : List ℕ) (x : ℕ) → Has (set_of ports) x ↔ Contains ports x }
{}
