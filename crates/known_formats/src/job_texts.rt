//! Jobs as the rows state them.
use scheduler_names::SchedulerName;
use std::alloc::{AllocError, Global};
use switch_words::{CheckJob, FirmJob, GenJob, Job, RunJob, Settings, Speed};

/// A command with its settings.
pub fn job_text(alloc: Global, job: &Job) -> Result<String, AllocError> {
    match job {
        Job::Run(job) => run_text(alloc, job),
        Job::Gen(job) => gen_text(alloc, job),
        Job::Check(job) => check_text(alloc, job),
        Job::Firm(job) => firm_text(alloc, job),
    }
}

fn run_text(alloc: Global, job: &RunJob) -> Result<String, AllocError> {
    let settings = settings_text(alloc, job.settings)?;
    let slots = u32::from(job.slots);
    let journal = u32::from(job.journal);
    let reference = u32::from(job.reference);
    let measures = measures_text(job);
    let scheduler = scheduler_text(job.scheduler);
    let alone = if job.alone { " alone=1" } else { "" };
    let table = job.table.as_str();
    let prefix = job.prefix.as_str();
    let inputs = list_text(alloc, job.inputs.as_slice())?;
    format!(in alloc;
        "run {settings} slots={slots} journal={journal} reference={reference}{measures}{scheduler}{alone} table={table:?} prefix={prefix:?} inputs={inputs}"
    )
}

// What is measured of queues and packets: rows with neither flag do not name them.
fn measures_text(job: &RunJob) -> &'static str {
    match (job.queues, job.packets) {
        (false, false) => "",
        (true, false) => " queues=1",
        (false, true) => " packets=1",
        (true, true) => " queues=1 packets=1",
    }
}

// The scheduler: rows of iSLIP do not name it.
fn scheduler_text(name: SchedulerName) -> &'static str {
    match name {
        SchedulerName::Islip => "",
        SchedulerName::Firm => " scheduler=firm",
        SchedulerName::Rrm => " scheduler=rrm",
    }
}

fn gen_text(alloc: Global, job: &GenJob) -> Result<String, AllocError> {
    let settings = settings_text(alloc, job.settings)?;
    let seed = job.seed;
    let count = job.count;
    let ports = job.ports;
    let scheduler = scheduler_text(job.scheduler);
    format!(in alloc; "gen {settings} seed={seed} count={count} ports={ports}{scheduler}")
}

fn check_text(alloc: Global, job: &CheckJob) -> Result<String, AllocError> {
    let file = job.file.as_str();
    let scheduler = scheduler_text(job.scheduler);
    format!(in alloc; "check file={file:?}{scheduler}")
}

fn firm_text(alloc: Global, job: &FirmJob) -> Result<String, AllocError> {
    let settings = settings_text(alloc, job.settings)?;
    let table = job.table.as_str();
    let inputs = list_text(alloc, job.inputs.as_slice())?;
    format!(in alloc; "firm {settings} table={table:?} inputs={inputs}")
}

fn settings_text(alloc: Global, settings: Settings) -> Result<String, AllocError> {
    let rounds = settings.rounds;
    let depth = settings.depth;
    let workers = settings.workers;
    let speed = speed_text(alloc, settings.speed)?;
    let long = if settings.long { " long=1" } else { "" };
    format!(in alloc; "rounds={rounds} depth={depth} workers={workers} {speed}{long}")
}

fn speed_text(alloc: Global, speed: Speed) -> Result<String, AllocError> {
    match speed {
        Speed::Untimed => format!(in alloc; "pace=-"),
        Speed::SlotMicros(micros) => format!(in alloc; "pace={micros}"),
        Speed::LineRate(mbps) => format!(in alloc; "rate={mbps}"),
    }
}

// The names of a list, each in quotes, with commas between them.
fn list_text(alloc: Global, names: &[String]) -> Result<String, AllocError> {
    let mut text = String::new(alloc);
    for name in names {
        if !text.is_empty() {
            text.push(',')?;
        }
        let quoted = format!(in alloc; "{name:?}")?;
        text.push_str(quoted.as_str())?;
    }
    Ok(text)
}
