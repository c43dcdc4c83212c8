use scheduler_names::SchedulerName;

/// How fast the packets of a port come.
#[derive(Clone, Copy, Debug, PartialEq, Eq)]
pub enum Speed {
    /// One after the other from slot 0 on, whatever their times.
    Untimed,
    /// By their times, in slots of so many microseconds: 1 to 1,000,000.
    SlotMicros(u32),
    /// By their times, on a line of so many megabits a second: 1 to 1,600,000. A slot takes as long as the
    /// 512 bits of a cell.
    LineRate(u32),
}

/// How a job runs.
#[derive(Clone, Copy, Debug, PartialEq, Eq)]
pub struct Settings {
    /// Rounds of request, grant and accept in a slot: 1 to 64, 4 where no option says them.
    pub rounds: u32,
    /// The depth of each queue, in cells: 1 to 131,072, and to 1,073,741,824 in a long run; the greatest where no
    /// option says it.
    pub depth: u32,
    /// Workers: 1 to 32, 4 where no option says them.
    pub workers: u32,
    /// How fast packets come, untimed where no option says it.
    pub speed: Speed,
    /// Whether the run is a long one, which has greater limits and tells of no slot. A made input has no long run.
    pub long: bool,
}

/// Switch the packets of captures.
#[derive(Debug, Drop)]
pub struct RunJob {
    /// How the job runs.
    pub settings: Settings,
    /// The scheduler of the run, iSLIP where no option names one.
    pub scheduler: SchedulerName,
    /// Whether the report names each slot, which that of a long run does not.
    pub slots: bool,
    /// Whether the journal is written, which a long run has not.
    pub journal: bool,
    /// Whether the report compares each output with the output-queued reference.
    pub reference: bool,
    /// Whether the report tells of each queue how long it was.
    pub queues: bool,
    /// Whether the packets file is written: when each packet left.
    pub packets: bool,
    /// Whether the slots are made on one thread, without board and workers.
    pub alone: bool,
    /// The name of the table's file.
    pub table: String,
    /// What the names of all files that are written begin with.
    pub prefix: String,
    /// The name of the capture of each port, from port 0 on: 1 to 64.
    pub inputs: Vec<String>,
}

/// Switch the packets of a made input.
#[derive(Clone, Copy, Debug, PartialEq, Eq)]
pub struct GenJob {
    /// How the job runs.
    pub settings: Settings,
    /// The scheduler of the run, iSLIP where no option names one.
    pub scheduler: SchedulerName,
    /// Where the random numbers begin: 0 to 1,000,000,000.
    pub seed: u32,
    /// How many packets each port gets: 0 to 4,000.
    pub count: u32,
    /// The ports of the switch: 1 to 64.
    pub ports: u32,
}

/// Check the journal of a run.
#[derive(Debug, Drop)]
pub struct CheckJob {
    /// The scheduler whose matches are lawful, iSLIP where no option names one.
    pub scheduler: SchedulerName,
    /// The name of the journal's file.
    pub file: String,
}

/// Switch the packets of captures by FIRM, and tell only the summary.
#[derive(Debug, Drop)]
pub struct FirmJob {
    /// How the job runs. No option says the workers, so they are 4.
    pub settings: Settings,
    /// The name of the table's file.
    pub table: String,
    /// The name of the capture of each port, from port 0 on: 1 to 64.
    pub inputs: Vec<String>,
}

/// What the words of a command line ask for.
#[derive(Debug, Drop)]
pub enum Job {
    /// `run TABLE PREFIX INPUT..`
    Run(RunJob),
    /// `gen SEED COUNT PORTS`
    Gen(GenJob),
    /// `check FILE`
    Check(CheckJob),
    /// `firm TABLE INPUT..`
    Firm(FirmJob),
}
