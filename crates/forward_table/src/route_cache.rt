ghost use Rattle.std.specs.Prelude.{◌≡◌, ◌<◌, List, Some};
ghost use Rattle.forward_table.specs.Routing.{route_of};

use crate::lookup::Table;
use crate::route_lines::Route;
use std::marker::Model;

// How many routes are kept: few, so that the cache is cheap to make for the packets of one port.
const PLACES: usize = 256;

// An odd number whose products spread near addresses over all places: 2^32 over the golden ratio.
const SPREAD: u32 = 0x9e37_79b1;

// A route that is kept, and the address that it was found for.
#[derive(Clone, Copy, Debug)]
struct Kept {
    address: u32,
    route: Option<Route>,
}

/// Look-ups in a table, of which the last ones are kept: an address that no line tells from one of these
/// needs no search. It holds 256 routes, in 8 KiB, and takes no memory from the heap.
///
/// Contracts see the table.
#[derive(Debug, Drop)]
pub struct RouteCache<'a> {
    table: &'a Table,

    // At each place the last route that was looked up for it.
    kept: [Kept; PLACES],
}

impl<'a> Model for RouteCache<'a> {
    ghost use Rattle.std.specs.Prelude.{List};
    ghost use Rattle.forward_table.specs.declared.route_lines.RouteLine.{RouteLine};
    ghost use Rattle.forward_table.specs.CacheSteps.{AreRoutesBy};

    ghost Value = { List RouteLine };

    ghost view = { λ cache. cache.table.now };

    ghost invariant = { λ cache. AreRoutesBy cache.table.now cache.kept };
}

impl<'a> RouteCache<'a> {
    /// The look-ups in a table, of which none was made.
    pub fn new(table: &'a Table) -> RouteCache<'a>
        ensures { result ≡ table.now }
    {
        // Each place has a true route from the start, so that none needs to say whether it has one.
        let first = Kept {
            address: 0,
            route: table.route(Some(0)),
        };
        RouteCache {
            table,
            kept: [first; PLACES],
        }
    }

    /// The route of an address, or of a packet without one, as [`Table::route`] answers it. Takes no memory.
    pub fn route(&mut self, address: Option<u32>) -> Option<Route>
        ensures route { result ≡ route_of self.old address }
        ensures table { self.new ≡ self.old }
    {
        let table = self.table;
        match address {
            Some(address) => self.kept_route(table.block_of(address)),
            None => table.route(None),
        }
    }

    // The route of an address, which is kept.
    fn kept_route(&mut self, address: u32) -> Option<Route>
        ensures route { result ≡ route_of self.old (Some address) }
        ensures table { self.new ≡ self.old }
    {
        let place = place_of(address);
        let kept = self.kept[place];
        if kept.address == address {
            return kept.route;
        }
        let route = self.table.route(Some(address));
        self.kept[place] = Kept { address, route };
        route
    }
}

// The place of an address's route.
fn place_of(address: u32) -> usize
    ensures { result < PLACES }
{
    (address.wrapping_mul(SPREAD) >> 24) as usize
}
