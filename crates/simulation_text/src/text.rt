ghost use Rattle.std.specs.Prelude.{◌≡◌, ◌++◌, IfOk, OnOk, string_bytes};
ghost use Rattle.simulation_text.specs.Texts.{histogram_text, text_of};

use crate::job_lines::put_job;
use crate::number_lines::{put_batches, put_cells, put_counts, put_delays, put_ports, put_slots};
use delay_counts::DelayCount;
use rotating_pick::OutOfMemory;
use simulated_runs::Numbers;
use simulated_slots::Job;
use std::alloc::{AllocError, Global};

// Appends the lines of the delays that cells had, where they are wanted.
fn put_histogram(
    text: &mut String,
    histogram: bool,
    counts: &[DelayCount],
) -> Result<(), AllocError>
    ensures { OnOk result (string_bytes text.new ≡ string_bytes text.old ++ histogram_text histogram counts.now) }
{
    if histogram {
        put_counts(text, counts)?;
    }
    Ok(())
}

/// The text of a job with these numbers: what is simulated and measured, a line for each number of the whole switch, a
/// line for each port and for each batch, and with the histogram a line for each delay that cells had. The only error
/// is out of memory.
#[tactic(auto, unfolding(crate::specs::Texts::text_of))]
pub fn simulation_text(
    alloc: Global,
    job: &Job,
    histogram: bool,
    numbers: &Numbers,
) -> Result<String, OutOfMemory>
    ensures { IfOk result (λ text. string_bytes text ≡ text_of job.now histogram numbers.now) }
{
    let mut text = String::new(alloc);
    put_job(&mut text, job)?;
    put_cells(&mut text, numbers)?;
    put_delays(&mut text, numbers)?;
    put_slots(&mut text, numbers)?;
    put_ports(&mut text, &numbers.ports)?;
    put_batches(&mut text, &numbers.batches)?;
    put_histogram(&mut text, histogram, &numbers.counts)?;
    Ok(text)
}
