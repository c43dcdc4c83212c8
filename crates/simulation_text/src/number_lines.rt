ghost use Rattle.std.specs.Prelude.{◌≡◌, [], ◌∷◌, ◌++◌, codes, OnOk, string_bytes};
ghost use Rattle.std.specs.List.{flat_map};
ghost use Rattle.simulation_text.specs.Texts.{batch_line, cells_text, count_line, delays_text, line, lines_by_place, port_line, slots_text};

use crate::lines::put_line;
use delay_counts::DelayCount;
use simulated_runs::{BatchNumbers, Numbers, PERCENTILES, PortNumbers};
use std::alloc::AllocError;

/// Appends the lines of the cells. The only error is out of memory.
#[tactic(auto, unfolding(crate::specs::Texts::cells_text))]
pub(crate) fn put_cells(text: &mut String, numbers: &Numbers) -> Result<(), AllocError>
    ensures { OnOk result (string_bytes text.new ≡ string_bytes text.old ++ cells_text numbers.now) }
{
    let before = numbers.before;
    let waiting = numbers.waiting;
    put_line(text, "arrived", &[u128::from(numbers.arrived)])?;
    put_line(text, "dropped", &[u128::from(numbers.dropped)])?;
    put_line(text, "departed", &[u128::from(numbers.departed)])?;
    put_line(
        text,
        "before",
        &[u128::from(before.cells), u128::from(before.age)],
    )?;
    put_line(
        text,
        "waiting",
        &[u128::from(waiting.cells), u128::from(waiting.age)],
    )?;
    put_line(text, "cell-slots", &[u128::from(numbers.cell_slots)])
}

// Appends the line of the percentiles of the delays and the longest one.
fn put_percentiles(
    text: &mut String,
    percentiles: &[u32; PERCENTILES],
    longest: u32,
) -> Result<(), AllocError>
    ensures { OnOk result (string_bytes text.new ≡ string_bytes text.old ++ line (codes "delay") (percentiles.now ++ longest ∷ [])) }
{
    let [p50, p90, p99, p99_9, p99_99] = *percentiles;
    put_line(
        text,
        "delay",
        &[
            u128::from(p50),
            u128::from(p90),
            u128::from(p99),
            u128::from(p99_9),
            u128::from(p99_99),
            u128::from(longest),
        ],
    )
}

/// Appends the lines of the delays. The only error is out of memory.
#[tactic(auto, unfolding(crate::specs::Texts::delays_text))]
pub(crate) fn put_delays(text: &mut String, numbers: &Numbers) -> Result<(), AllocError>
    ensures { OnOk result (string_bytes text.new ≡ string_bytes text.old ++ delays_text numbers.now) }
{
    put_line(text, "delays", &[numbers.delays])?;
    put_percentiles(text, &numbers.percentiles, numbers.longest_delay)
}

/// Appends the lines of the slots. The only error is out of memory.
#[tactic(auto, unfolding(crate::specs::Texts::slots_text))]
pub(crate) fn put_slots(text: &mut String, numbers: &Numbers) -> Result<(), AllocError>
    ensures { OnOk result (string_bytes text.new ≡ string_bytes text.old ++ slots_text numbers.now) }
{
    put_line(
        text,
        "rounds",
        &[
            u128::from(numbers.rounds_used),
            u128::from(numbers.first_pairs),
        ],
    )?;
    put_line(
        text,
        "peak",
        &[u128::from(numbers.peak), u128::from(numbers.most)],
    )?;
    put_line(text, "longest", &[u128::from(numbers.longest_wait)])
}

// Appends the line of a port.
#[tactic(auto, unfolding(crate::specs::Texts::port_line))]
fn put_port(text: &mut String, number: usize, port: PortNumbers) -> Result<(), AllocError>
    ensures { OnOk result (string_bytes text.new ≡ string_bytes text.old ++ port_line number port) }
{
    put_line(
        text,
        "port",
        &[
            number as u128,
            u128::from(port.arrived),
            u128::from(port.dropped),
            u128::from(port.left),
            u128::from(port.fed),
        ],
    )
}

/// Appends the line of each port. The only error is out of memory.
pub(crate) fn put_ports(text: &mut String, ports: &[PortNumbers]) -> Result<(), AllocError>
    ensures { OnOk result (string_bytes text.new ≡ string_bytes text.old ++ lines_by_place port_line ports.now) }
{
    for (number, port) in ports.iter().enumerate() {
        put_port(text, number, *port)?;
    }
    Ok(())
}

// Appends the line of a batch.
#[tactic(auto, unfolding(crate::specs::Texts::batch_line))]
fn put_batch(text: &mut String, number: usize, batch: BatchNumbers) -> Result<(), AllocError>
    ensures { OnOk result (string_bytes text.new ≡ string_bytes text.old ++ batch_line number batch) }
{
    put_line(
        text,
        "batch",
        &[number as u128, u128::from(batch.departed), batch.delays],
    )
}

/// Appends the line of each batch. The only error is out of memory.
pub(crate) fn put_batches(text: &mut String, batches: &[BatchNumbers]) -> Result<(), AllocError>
    ensures { OnOk result (string_bytes text.new ≡ string_bytes text.old ++ lines_by_place batch_line batches.now) }
{
    for (number, batch) in batches.iter().enumerate() {
        put_batch(text, number, *batch)?;
    }
    Ok(())
}

// Appends the line of a delay that cells had.
#[tactic(auto, unfolding(crate::specs::Texts::count_line))]
fn put_count(text: &mut String, count: DelayCount) -> Result<(), AllocError>
    ensures { OnOk result (string_bytes text.new ≡ string_bytes text.old ++ count_line count) }
{
    put_line(
        text,
        "count",
        &[u128::from(count.delay), u128::from(count.number)],
    )
}

/// Appends the line of each delay that cells had. The only error is out of memory.
pub(crate) fn put_counts(text: &mut String, counts: &[DelayCount]) -> Result<(), AllocError>
    ensures { OnOk result (string_bytes text.new ≡ string_bytes text.old ++ flat_map count_line counts.now) }
{
    for count in counts {
        put_count(text, *count)?;
    }
    Ok(())
}
