//! How many cells wait in the queues of an input, slot by slot, by counters alone.
#![tactic(auto)]

mod counters;
pub mod laws;

ghost use Rattle.std.specs.Prelude.{◌≡◌, ◌+◌, ◌*◌, ◌≤◌};
ghost use Rattle.rotating_pick.specs.declared.limits.TheConstants.{LEVELS, MAX_PORTS};
ghost use Rattle.queue_lengths.specs.Lengths.{count_of};

pub use counters::{Arrival, QueueLengths, queue_place};
use rotating_pick::{LEVELS, MAX_PORTS};

/// The number of queues of an input of a switch of `ports` ports: of each output and level for unicast, and of each level
/// for multicast.
pub fn queue_count(ports: u32) -> u32
    requires { ports ≤ MAX_PORTS }
    ensures { result ≡ count_of ports }
{
    LEVELS * ports + LEVELS
}
