ghost use Rattle.std.specs.Prelude.{◌≡◌, ◌<◌, ◌≤◌, ◌↔◌, IfSome, IsSome};
ghost use Rattle.made_traffic.specs.Sources.{IsTraffic, begins, goes_on, traffic_of};
ghost use Rattle.made_traffic.specs.Patterns.{output_by};

use crate::limits::{MAX_BURST, MILLION};
use crate::pattern::Pattern;
use crate::streams::HALF;
use rotating_pick::MAX_PORTS;
use std::marker::Model;

/// The traffic of a switch. In each slot an input is in a burst or not; a cell comes in each slot of a burst, and all
/// cells of a burst go to one output. A value of this type has all its numbers in their ranges.
#[derive(Clone, Copy, Debug, PartialEq, Eq)]
pub struct Traffic {
    ports: u32,
    pattern: Pattern,
    load: u32,
    burst: u32,
}

impl Model for Traffic {
    ghost use Rattle.made_traffic.specs.Sources.{IsTraffic, TrafficValue, traffic_of};

    ghost Value = { TrafficValue };

    ghost view = { λ t. traffic_of t.ports t.pattern t.load t.burst };

    ghost invariant = { λ t. IsTraffic (traffic_of t.ports t.pattern t.load t.burst) };

    ghost inverse = { λ v. record { ports = v.ports; pattern = v.pattern; load = v.load; burst = v.burst } };
}

impl Traffic {
    /// The traffic of a switch of `ports` ports, 1 to 64, each of whose inputs gets `load` cells in a million slots, 0
    /// to 1,000,000, in bursts of `burst` cells on average, 1 to 4,096, that go where the pattern says. With bursts of
    /// 1 the slots of an input are independent of each other, which is Bernoulli traffic. None where a number is out
    /// of its range, or the pattern's weight is over 1,000,000.
    pub fn new(ports: u32, pattern: Pattern, load: u32, burst: u32) -> Option<Traffic>
        ensures in_range { IsSome result ↔ IsTraffic (traffic_of ports pattern load burst) }
        ensures value { IfSome result (λ t. t ≡ traffic_of ports pattern load burst) }
    {
        if ports == 0 || ports > MAX_PORTS || pattern.weight() > MILLION {
            return None;
        }
        if load > MILLION || burst == 0 || burst > MAX_BURST {
            return None;
        }
        Some(Traffic {
            ports,
            pattern,
            load,
            burst,
        })
    }

    /// The number of ports, 1 to 64.
    pub fn ports(&self) -> u32
        ensures value { result ≡ self.now.ports }
        ensures some { 0 < result }
        ensures size { result ≤ MAX_PORTS }
    {
        self.ports
    }

    /// Where the cells of each input go.
    pub fn pattern(&self) -> Pattern
        ensures { result ≡ self.now.pattern }
    {
        self.pattern
    }

    /// How many cells come to each input in a million slots, 0 to 1,000,000.
    pub fn load(&self) -> u32
        ensures { result ≡ self.now.load }
    {
        self.load
    }

    /// The mean length of a burst, 1 to 4,096 cells.
    pub fn burst(&self) -> u32
        ensures { result ≡ self.now.burst }
    {
        self.burst
    }

    /// The output of a burst that begins at the input, by a word.
    pub(crate) fn output(&self, input: u32, word: u64) -> u32
        requires { input < self.now.ports }
        ensures value { result ≡ output_by self.now.pattern self.now.ports input word }
        ensures port { result < self.now.ports }
    {
        self.pattern.output(self.ports, input, word)
    }

    /// Whether a burst that is under way goes on, by a word.
    pub(crate) fn goes_on(&self, word: u64) -> bool
        ensures { result ≡ goes_on self.now word }
    {
        HALF <= word / HALF * u64::from(self.burst)
    }

    /// Whether a burst begins, where none goes on, by a word.
    pub(crate) fn begins(&self, word: u64) -> bool
        ensures { result ≡ begins self.now word }
    {
        let load = u64::from(self.load);
        let all = load + u64::from(self.burst) * (u64::from(MILLION) - load);
        word % HALF * all < load * HALF
    }
}
