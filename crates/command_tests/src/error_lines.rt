use job_files::{Ending, print_line};
use outside::MemFiles;
use scheduler_names::SchedulerName;
use std::test;
use switch_plan::PlanFault;
use switch_words::{Job, RunJob, Settings, Speed};

const SETTINGS: Settings = Settings {
    rounds: 4,
    depth: 131_072,
    workers: 4,
    speed: Speed::Untimed,
    long: false,
};

// The endings of large jobs and of those for which there is no memory. Seven bytes a call are printed.
const ROWS: [(Ending, &str); 4] = [
    (Ending::OutOfMemory, "out of memory\n"),
    (
        Ending::Refused(PlanFault::TooManyPackets {
            packets: 1_073_741_825,
        }),
        "too many packets: 1073741825\n",
    ),
    (
        Ending::JournalTooLong(134_217_729),
        "journal too long: 134217729\n",
    ),
    (
        Ending::PacketsTooLong(134_217_730),
        "packets too long: 134217730\n",
    ),
];

#[test]
fn endings_print_their_lines(rt: HostRuntime) -> Result<(), test::Fail> {
    let job = Job::Run(RunJob {
        settings: SETTINGS,
        scheduler: SchedulerName::Islip,
        slots: false,
        journal: true,
        reference: false,
        queues: false,
        packets: true,
        alone: false,
        table: String::new(rt.alloc()),
        prefix: String::new(rt.alloc()),
        inputs: Vec::new(rt.alloc()),
    });
    for (ending, line) in ROWS {
        let (given, fails) = (Vec::new(rt.alloc()), Vec::new(rt.alloc()));
        let mut files = MemFiles::make(rt.alloc(), given, 7, fails)?;
        print_line(&mut files, &job, ending);
        assert_eq!(rt; files.err_text(), line.as_bytes());
    }
    Ok(())
}
