ghost use Rattle.std.specs.Prelude.{◌≡◌, ◌≢◌, ◌↔◌, ℕ, ◌-◌, ◌≤◌, Some, None, List, [], ◌∷◌, ◌++◌, length, map, Contains, IfSome, IfOk, IfErr};
ghost use Rattle.std.specs.Prelude.{option_map};
ghost use Rattle.forward_table.specs.IndexSteps.{IsWithLength};
ghost use Rattle.forward_table.specs.Targets.{IsPrefix};
ghost use Rattle.forward_table.specs.Reading.{line_with};
ghost use Rattle.forward_table.specs.Routing.{covering, longest, serving_line, route_of};

use crate::faults::TableFault;
use crate::ordered_lines::{line_of, longest_of, place_of};
use crate::route_lines::{ADDRESS_BITS, Route, RouteLine, Target, without_host_bits};
use rotating_pick::{lowest, with};
use std::alloc::Global;
use std::marker::Model;

/// A forwarding table: the route lines of its text, in order.
///
/// A look-up takes a search by halves for each prefix length that occurs, from the longest on, at most 33.
#[derive(Debug, Drop)]
pub struct Table {
    lines: Vec<RouteLine>,

    // The same lines in the order of their targets.
    ordered: Vec<RouteLine>,

    // Bit `k` is 1 where a line has a prefix with `k` host bits.
    lengths: u64,
}

impl Model for Table {
    ghost use Rattle.std.specs.Prelude.{List};
    ghost use Rattle.forward_table.specs.declared.route_lines.RouteLine.{RouteLine};
    ghost use Rattle.forward_table.specs.IndexSteps.{IsIndexed, AreLengths};

    ghost Value = { List RouteLine };

    ghost view = { λ table. table.lines.items };

    ghost invariant = { λ table. IsIndexed table.lines.items table.ordered.items × AreLengths table.lines.items table.lengths };
}

impl Table {
    /// The table without a line.
    pub(crate) fn empty(alloc: Global) -> Table
        ensures { result ≡ [] }
    {
        Table {
            lines: Vec::new(alloc),
            ordered: Vec::new(alloc),
            lengths: 0,
        }
    }

    /// The table with one line more, unless an earlier one has the same target.
    pub(crate) fn with_line(self, line: RouteLine) -> Result<Table, TableFault>
        requires { IsPrefix line.target }
        ensures ok { IfOk result (λ table. (line_with line.target self ≡ None) × (table ≡ self ++ line ∷ [])) }
        ensures fault { IfErr result (λ fault. fault ≢ TableFault.OutOfMemory
            → option_map (λ first. TableFault.Repeated line.number first.number) (line_with line.target self) ≡ Some fault) }
    {
        let Table {
            mut lines,
            mut ordered,
            lengths,
        } = self;
        match place_of(&ordered, &line.target) {
            Ok(at) => Err(TableFault::Repeated {
                line: line.number,
                first: ordered[at].number,
            }),
            Err(at) => {
                ordered.insert(at, line)?;
                lines.push(line)?;
                Ok(Table {
                    lines,
                    ordered,
                    lengths: with_length(lengths, &line.target),
                })
            }
        }
    }

    /// The route of an address, by the line of greatest length among those that cover it, else by the
    /// `*` line; without an address by the `*` line. None exactly where no such line is there. Takes no
    /// memory.
    pub fn route(&self, address: Option<u32>) -> Option<Route>
        ensures route { result ≡ route_of self.now address }
        ensures line { IfSome result (Contains (map (λ line. line.route) self.now)) }
    {
        Some(self.serving_line(address)?.route)
    }

    /// An address with the same route, which many have in common: the address without the last bits that
    /// are host bits to every line.
    pub(crate) fn block_of(&self, address: u32) -> u32
        ensures { route_of self.now (Some result) ≡ route_of self.now (Some address) }
    {
        let host_bits = lowest(self.lengths).unwrap_or(ADDRESS_BITS);
        without_host_bits(address, host_bits)
    }

    /// How many route lines the text has.
    pub fn line_count(&self) -> usize
        ensures { result ≡ length self.now }
    {
        self.lines.len()
    }

    // The line that serves an address, or a packet without one.
    fn serving_line(&self, address: Option<u32>) -> Option<RouteLine>
        ensures { result ≡ serving_line self.now address }
    {
        let covering = match address {
            Some(address) => self.longest(address),
            None => None,
        };
        match covering {
            Some(line) => Some(line),
            None => self.line_with(&Target::Fallback),
        }
    }

    // Of the lines that cover the address the one of greatest length.
    fn longest(&self, address: u32) -> Option<RouteLine>
        ensures { result ≡ longest (covering self.now address) }
    {
        longest_of(&self.ordered, self.lengths, address)
    }

    // The line with this target.
    fn line_with(&self, target: &Target) -> Option<RouteLine>
        ensures { result ≡ line_with target.now self.now }
    {
        line_of(&self.ordered, target)
    }
}

// The prefix lengths with that of the target.
fn with_length(lengths: u64, target: &Target) -> u64
    requires { IsPrefix target.now }
    ensures { IsWithLength target.now lengths result }
{
    match target {
        Target::Fallback => lengths,
        Target::Prefix { length, .. } => with(lengths, ADDRESS_BITS - *length),
    }
}
