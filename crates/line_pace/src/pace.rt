ghost use Rattle.std.specs.Prelude.{◌≡◌, ◌≤◌, ◌<◌, ◌^◌, ◌+◌, ◌-◌, ◌*◌, ◌/◌, max};

use cell_cutter::MAX_CAPTURED_CELLS;

/// The longest slot, in microseconds.
pub const MAX_SLOT_MICROS: u32 = 1_000_000;

/// The greatest line rate, in megabits a second.
pub const MAX_LINE_RATE: u32 = 1_600_000;

/// Nanoseconds of a microsecond.
const NANOS_PER_MICRO: u64 = 1_000;

/// Nanoseconds of a slot at one megabit a second: a cell of 64 bytes takes as many.
const NANOS_AT_ONE_MEGABIT: u64 = 512_000;

/// When a packet was captured and how long it occupies the line.
#[derive(Clone, Copy, Debug, PartialEq, Eq, Hash)]
pub struct Stamp {
    /// Its time, in nanoseconds.
    pub time: u64,
    /// Its cells, 1 to 4,682.
    pub cells: u32,
}

/// How fast a port's packets come.
#[derive(Clone, Copy, Debug, PartialEq, Eq, Hash)]
pub enum Pace {
    /// One after the other from slot 0 on, whatever their times.
    Line,
    /// By their times.
    Micros {
        /// Microseconds of a slot, 1 to 1,000,000.
        slot: u32,
        /// The time that slot 0 begins at, in nanoseconds.
        base: u64,
    },
    /// By their times, on a line of this rate: a slot takes as long as a cell of 64 bytes.
    Rate {
        /// Megabits a second, 1 to 1,600,000.
        mbps: u32,
        /// The time that slot 0 begins at, in nanoseconds.
        base: u64,
    },
}

impl Pace {
    ghost use Rattle.line_pace.specs.Arrivals.{IsPace, IsRateTime, CanCome, base_of, slot_of, arrival};

    // The slot in which a time falls.
    fn slot_of(&self, time: u64) -> u64
        requires pace { IsPace self.now }
        requires time { base_of self.now ≤ time }
        requires early { IsRateTime self.now time }
        ensures value { result ≡ slot_of self.now time }
        ensures few { result < 2 ^ 64 - 2 ^ 61 }
    {
        match self {
            Pace::Line => 0,
            Pace::Micros { slot, base } => (time - base) / (NANOS_PER_MICRO * u64::from(*slot)),
            Pace::Rate { mbps, base } => slots_in(time - base, u64::from(*mbps)),
        }
    }

    /// The arrival slot of a packet on a line that is free from slot `free` on: the slot in which its last
    /// cell comes. At a pace its first cell comes no earlier than in the slot of its time.
    pub fn arrival(&self, free: u64, packet: &Stamp) -> u64
        requires pace { IsPace self.now }
        requires packet { CanCome self.now packet.now }
        requires free { free < 2 ^ 64 - 2 ^ 60 }
        ensures value { result ≡ arrival self.now free packet.now }
        ensures bound { result < max (2 ^ 64 - 2 ^ 61) free + MAX_CAPTURED_CELLS }
    {
        self.slot_of(packet.time).max(free) + u64::from(packet.cells) - 1
    }
}

// How many whole slots so many nanoseconds have on a line of so many megabits a second. The quotient is taken
// first, so that no product passes 64 bits.
fn slots_in(nanos: u64, mbps: u64) -> u64
    requires nanos { nanos < 2 ^ 62 }
    requires mbps { mbps ≤ MAX_LINE_RATE }
    ensures value { result ≡ nanos * mbps / 512000 }
    ensures few { result < 2 ^ 64 - 2 ^ 61 }
{
    let whole = nanos / NANOS_AT_ONE_MEGABIT;
    let rest = nanos % NANOS_AT_ONE_MEGABIT;
    whole * mbps + rest * mbps / NANOS_AT_ONE_MEGABIT
}
