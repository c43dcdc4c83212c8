ghost use Rattle.std.specs.Prelude.{◌≡◌, ℕ, ◌≤◌, List, IfOk, IfErr};
ghost use Rattle.rotating_pick.specs.PortSets.{Has};
ghost use Rattle.forward_table.specs.declared.route_lines.RouteLine.{RouteLine as ARouteLine};
ghost use Rattle.forward_table.specs.IndexSteps.{IsInOrder, IsPlaceOf, IsGapFor, IsIndexed, AreLengths};
ghost use Rattle.forward_table.specs.Reading.{line_with};
ghost use Rattle.forward_table.specs.Routing.{covering, longest};

use crate::route_lines::{ADDRESS_BITS, RouteLine, Target, without_host_bits};
use rotating_pick::{lowest, without};

/// Where the line with this target is among lines in the order of their targets, or where it would go.
pub(crate) fn place_of(ordered: &[RouteLine], target: &Target) -> Result<usize, usize>
    requires { IsInOrder ordered.now }
    ensures found { IfOk result (IsPlaceOf ordered.now target.now) }
    ensures absent { IfErr result (IsGapFor ordered.now target.now) }
{
    ordered.binary_search_by_key(target, |line| line.target)
}

/// The line with this target among lines in the order of their targets.
pub(crate) fn line_of(ordered: &[RouteLine], target: &Target) -> Option<RouteLine>
    requires { IsInOrder ordered.now }
    ensures { result ≡ line_with target.now ordered.now }
{
    match place_of(ordered, target) {
        Ok(at) => Some(ordered[at]),
        Err(_) => None,
    }
}

/// Of the lines of a table that cover the address the one of greatest length: the table's lines are in the
/// order of their targets, and bit `k` of `lengths` is 1 where one has a prefix with `k` host bits.
pub(crate) fn longest_of(ordered: &[RouteLine], lengths: u64, address: u32) -> Option<RouteLine>
    requires ordered { IsInOrder ordered.now }
    requires within { (k : ℕ) → Has lengths k → k ≤ ADDRESS_BITS }
    ensures { (table : List ARouteLine) → IsIndexed table ordered.now → AreLengths table lengths → result ≡ longest (covering table address) }
{
    let mut rest = lengths;
    while let Some(host_bits) = lowest(rest) {
        let prefix = Target::Prefix {
            length: ADDRESS_BITS - host_bits,
            address: without_host_bits(address, host_bits),
        };
        let line = line_of(ordered, &prefix);
        if line.is_some() {
            return line;
        }
        rest = without(rest, host_bits);
    }
    None
}
