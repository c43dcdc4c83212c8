ghost use Rattle.std.specs.Prelude.{◌≡◌, [], ◌∷◌, ◌++◌, OnOk, string_bytes};
ghost use Rattle.made_traffic.specs.Patterns.{pattern_word, weight_of};
ghost use Rattle.simulation_text.specs.Texts.{discipline_word, job_text, line};

use crate::lines::put_line;
use made_traffic::Traffic;
use simulated_slots::{Discipline, Job};
use std::alloc::AllocError;

// The name of a discipline.
fn discipline_word(discipline: Discipline) -> &'static str
    ensures { result.now ≡ discipline_word discipline }
{
    match discipline {
        Discipline::Scheduled(name) => name.word(),
        Discipline::Pim => "pim",
        Discipline::Fifo => "fifo",
        Discipline::Ideal => "ideal",
    }
}

// Appends the line of the traffic, from its pattern on.
fn put_traffic(text: &mut String, traffic: &Traffic) -> Result<(), AllocError>
    ensures { OnOk result (string_bytes text.new ≡ string_bytes text.old
        ++ line (pattern_word traffic.now.pattern) (weight_of traffic.now.pattern ∷ traffic.now.load ∷ traffic.now.burst ∷ [])) }
{
    let pattern = traffic.pattern();
    put_line(
        text,
        pattern.word(),
        &[
            u128::from(pattern.weight()),
            u128::from(traffic.load()),
            u128::from(traffic.burst()),
        ],
    )
}

/// Appends the lines of the job. The only error is out of memory.
#[tactic(auto, unfolding(crate::specs::Texts::job_text))]
pub(crate) fn put_job(text: &mut String, job: &Job) -> Result<(), AllocError>
    ensures { OnOk result (string_bytes text.new ≡ string_bytes text.old ++ job_text job.now) }
{
    let settings = job.settings();
    put_line(
        text,
        "job",
        &[
            u128::from(job.seed()),
            u128::from(job.slots()),
            u128::from(job.traffic().ports()),
        ],
    )?;
    text.push_str("scheduler ")?;
    put_line(
        text,
        discipline_word(settings.discipline),
        &[u128::from(settings.rounds)],
    )?;
    text.push_str("traffic ")?;
    put_traffic(text, &job.traffic())?;
    put_line(
        text,
        "measured",
        &[
            u128::from(settings.warm_up),
            u128::from(settings.batches),
            u128::from(settings.depth),
        ],
    )
}
