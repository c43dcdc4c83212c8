ghost use Rattle.std.specs.Prelude.{◌≡◌, ◌≤◌, map, IfOk};
ghost use Rattle.switch_words.specs.Limits.{IsUpTo};
ghost use Rattle.switch_plan.specs.Made.{made_table, made_captures};

use crate::made_capture::made_capture;
use crate::made_table::made_table;
use rotating_pick::{MAX_PORTS, OutOfMemory};
use std::alloc::Global;
use switch_words::{GenJob, MAX_COUNT, MAX_SEED};

/// The input of a `gen` job.
#[derive(Debug, Drop)]
pub struct Made {
    /// The text of the table.
    pub table: Vec<u8>,
    /// The capture of each port, from port 0 on.
    pub captures: Vec<Vec<u8>>,
}

/// Makes the input of a `gen` job, the same for the same seed, count and ports: a seed of at most
/// 1,000,000,000, at most 4,000 packets for each port, and 1 to 64 ports. The settings do not matter.
///
/// The table has the route `10.LEVEL.GROUP.PORT/32` for each level, 0 to 3, each group, 0 and 1, and each
/// port; in group 1 it goes to the next port too. The captures are little-endian Ethernet captures in
/// microseconds, of 60 to 1,500 bytes a packet. The one error is that there was no memory.
pub fn made_input(alloc: Global, job: &GenJob) -> Result<Made, OutOfMemory>
    requires seed { job.now.seed ≤ MAX_SEED }
    requires count { job.now.count ≤ MAX_COUNT }
    requires ports { IsUpTo MAX_PORTS job.now.ports }
    ensures table { IfOk result (λ made. made.table.items ≡ made_table job.now.ports) }
    ensures captures { IfOk result (λ made. map (λ file. file.items) made.captures.items ≡ made_captures job.now) }
{
    let mut captures = Vec::new(alloc);
    for port in 0..job.ports {
        captures.push(made_capture(alloc, job, port)?)?;
    }
    Ok(Made {
        table: made_table(alloc, job.ports)?,
        captures,
    })
}
