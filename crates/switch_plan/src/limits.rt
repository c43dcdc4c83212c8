ghost use Rattle.std.specs.Prelude.{◌≡◌, ◌<◌, ◌≤◌, ℕ, length, Some, None};
ghost use Rattle.switch_plan.specs.Totals.{most_for};
ghost use Rattle.switch_plan.specs.Refusals.{burst_limits, long_limits, limits_for, first_over, over_packets, over_cells, over_limits};

use crate::fault::PlanFault;
use cell_cutter::MAX_FORWARDED_BYTES;
use rotating_pick::{MAX_FILE_BYTES, MAX_PORTS};

/// The most ports of a switch for which the whole limit holds; it is halved for more.
const WHOLE_LIMIT_PORTS: u32 = 32;

/// The most arrival slots of a port, and the most cells of all packets counted for each output.
pub const MAX_CELLS: u64 = 131_072;

/// The same for a switch of more than 32 ports.
pub const MAX_CELLS_OF_MANY: u64 = 65_536;

/// The most arrival slots of a port of a long job.
pub const MAX_LONG_SLOTS: u64 = 2_147_483_648;

/// The most packets of all captures of a long job.
pub const MAX_LONG_PACKETS: u64 = 1_073_741_824;

/// The most cells of all packets of a long job, counted for each output.
pub const MAX_LONG_CELLS: u64 = 1_073_741_824;

/// The most packets of a capture: as many as records of 16 bytes in a file of 4,294,967,295 bytes.
pub(crate) const MAX_PORT_PACKETS: usize = 268_435_456;

/// The limits of a job.
#[derive(Clone, Copy, Debug, PartialEq, Eq)]
pub struct Limits {
    /// The most arrival slots of a port.
    pub slots: u64,
    /// The most packets of all captures, if there is such a limit.
    pub packets: Option<u64>,
    /// The most cells of all packets, counted for each output.
    pub cells: u64,
}

impl Limits {
    /// The limits of a job of `ports` ports, long or not: those of a long job, or of a burst for this number of ports.
    pub fn of(long: bool, ports: usize) -> Limits
        ensures { result ≡ limits_for long ports }
    {
        if long {
            return Limits {
                slots: MAX_LONG_SLOTS,
                packets: Some(MAX_LONG_PACKETS),
                cells: MAX_LONG_CELLS,
            };
        }
        let most = most_for(ports);
        Limits {
            slots: most,
            packets: None,
            cells: most,
        }
    }

    /// The first limit that is passed by ports of so many arrival slots each, 64 of them at most, whose captures have so
    /// many packets in all, which bring so many cells to their outputs: that on the slots of the least port, that on
    /// packets, or that on cells. None where none is passed.
    pub fn passed(&self, slots: &[u64], packets: u64, cells: u64) -> Option<PlanFault>
        requires { length slots.now ≤ MAX_PORTS }
        ensures { result ≡ over_limits self.now slots.now packets cells }
    {
        first_over(self.slots, slots)
            .or(over_packets(self.packets, packets))
            .or(over_cells(self.cells, cells))
    }
}

// The first of these ports, each given by its arrival slots, that has more than the limit.
fn first_over(most: u64, ports: &[u64]) -> Option<PlanFault>
    requires { length ports.now ≤ MAX_PORTS }
    ensures { result ≡ first_over most 0 ports.now }
{
    for port in 0..ports.len() {
        let slots = ports[port];
        if slots > most {
            let port = port as u32;
            return Some(PlanFault::TooManySlots { port, slots });
        }
    }
    None
}

// So many packets, where they are more than the limit, if there is one.
fn over_packets(most: Option<u64>, packets: u64) -> Option<PlanFault>
    ensures { result ≡ over_packets most packets }
{
    match most {
        Some(most) if packets > most => Some(PlanFault::TooManyPackets { packets }),
        _ => None,
    }
}

// So many cells, where they are more than the limit.
fn over_cells(most: u64, cells: u64) -> Option<PlanFault>
    ensures { result ≡ over_cells most cells }
{
    if cells > most {
        return Some(PlanFault::TooManyCells { cells });
    }
    None
}

/// The limit on a port's arrival slots, and on the cells of all packets counted for each output, for a
/// switch of `ports` ports: 131,072, or 65,536 over 32 ports.
pub(crate) fn most_for(ports: usize) -> u64
    ensures { result ≡ most_for ports }
{
    if ports <= WHOLE_LIMIT_PORTS as usize {
        MAX_CELLS
    } else {
        MAX_CELLS_OF_MANY
    }
}

/// The limits of a plan by their numbers: 131,072 arrival slots of a port and 131,072 cells of all packets
/// counted for each output, half of both over 32 ports; for a long job 2,147,483,648 slots, 1,073,741,824
/// packets and as many cells, for any number of ports; 64 ports, tables of 16,777,216 bytes, and forwarded
/// packets of 65,535 captured bytes. It does nothing; its contract says them of the constants that the code
/// uses, and of what the limits are for each number of ports.
pub fn limits_are()
    ensures cells { MAX_CELLS ≡ 131072 }
    ensures cells_of_many { MAX_CELLS_OF_MANY ≡ 65536 }
    ensures whole_limit_ports { WHOLE_LIMIT_PORTS ≡ 32 }
    ensures ports { MAX_PORTS ≡ 64 }
    ensures file_bytes { MAX_FILE_BYTES ≡ 16777216 }
    ensures forwarded_bytes { MAX_FORWARDED_BYTES ≡ 65535 }
    ensures up_to_32 { (ports : ℕ) → ports ≤ 32 → most_for ports ≡ 131072 }
    ensures over_32 { (ports : ℕ) → 32 < ports → most_for ports ≡ 65536 }
    ensures burst { (ports : ℕ) → burst_limits ports ≡ record { slots = most_for ports; packets = None; cells = most_for ports } }
    ensures long { long_limits ≡ record { slots = 2147483648; packets = Some 1073741824; cells = 1073741824 } }
{}
